// One level of pin 2, 4 or 6. A level that is the kept one is no edge.
ghost use Rattle.std.specs.Prelude.{◌≡◌, ◌≤◌};
ghost use Rattle.program.specs.Edges.{pin_two, foot_switch, pin_four, spring, pin_six};

use crate::state::{Core, Run};

impl Core {
    // Pin 2, the foot switch.
    pub fn pin_two(mut self, level: bool) -> Core
        requires { self.run.place.current ≤ 100 }
        ensures { result ≡ pin_two self level }
    {
        let before = self.pins.two;
        self.pins.two = level;
        if before & !level {
            return self.with_run(self.run.foot_switch());
        }
        self
    }

    // Pin 4, the event. It shares with pin 2 what an edge is, and neither the level kept nor what follows: one function for both would take
    // both as closures, and read no plainer.
    pub fn pin_four(mut self, level: bool) -> Core
        ensures { result ≡ pin_four self level }
    {
        let before = self.pins.four;
        self.pins.four = level;
        if before & !level {
            return self.with_run(self.run.spring());
        }
        self
    }

    // Pin 6 is read by IF alone.
    pub fn pin_six(mut self, level: bool) -> Core
        ensures { result ≡ pin_six self level }
    {
        self.pins.six = level;
        self
    }
}

impl Run {
    // Pin 2 falls: as RUN, or as STP in I, W and T; what does not apply changes nothing. With an alarm pending only the level is kept.
    fn foot_switch(self) -> Run
        requires { self.place.current ≤ 100 }
        ensures { result ≡ foot_switch self }
    {
        if self.pending().is_some() {
            return self;
        }
        if self.is_moving() {
            return self.stop_now().unwrap_or(self);
        }
        self.run_on().unwrap_or(self)
    }

    // Pin 4 falls: while operating it fires a set trap.
    fn spring(self) -> Run
        ensures { result ≡ spring self }
    {
        let Some(n) = self.trap else {
            return self;
        };
        if self.is_operating() {
            return self.fire(n);
        }
        self
    }
}
