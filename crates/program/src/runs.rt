// The program under way: its parts replaced, and what starting, stopping, pausing, moving on and a firing trap make of it.
ghost use Rattle.std.specs.Prelude.{◌≡◌, ◌≤◌};
ghost use Rattle.program.specs.Runs.{with_place, with_rate, with_loops, with_trap, with_mode, fresh_at, start, stop, raise, pause};
ghost use Rattle.program.specs.Runs.{resume, doing, go_to, go_on, fire, is_operating, is_moving, pending, clear_alarm};

use crate::state::{Mode, Place, Run, Work};
use dispense::Rate;
use loops::Loops;
use words::Alarm;

impl Run {
    // Nothing under way, at a phase that is not entered.
    pub fn fresh_at(current: u8, mode: Mode) -> Run
        ensures { result ≡ fresh_at current mode }
    {
        Run {
            place: Place {
                work: Work::Entering,
                current,
            },
            rate: None,
            loops: Loops::none(),
            mode,
            trap: None,
        }
    }

    // RUN at a phase: nothing of an earlier run stays.
    pub fn start(n: u8) -> Run
        ensures { result ≡ start n }
    {
        Run::fresh_at(n, Mode::Running)
    }

    // A stopped pump keeps its current phase and nothing else of the program.
    pub fn stop(self) -> Run
        ensures { result ≡ stop self }
    {
        Run::fresh_at(self.place.current, Mode::Stopped(None))
    }

    // An alarm stops the pump.
    pub fn raise(self, alarm: Alarm) -> Run
        ensures { result ≡ raise self alarm }
    {
        Run::fresh_at(self.place.current, Mode::Stopped(Some(alarm)))
    }

    pub fn pause(self) -> Run
        ensures { result ≡ pause self }
    {
        self.with_mode(Mode::Paused)
    }

    pub fn resume(self) -> Run
        ensures { result ≡ resume self }
    {
        self.with_mode(Mode::Running)
    }

    // The current phase does something else.
    pub fn doing(self, work: Work) -> Run
        ensures { result ≡ doing self work }
    {
        self.with_place(Place { work, ..self.place })
    }

    // Phase n is the current one, not entered.
    pub fn go_to(self, n: u8) -> Run
        ensures { result ≡ go_to self n }
    {
        self.with_place(Place {
            work: Work::Entering,
            current: n,
        })
    }

    // On to the next phase.
    pub fn go_on(self) -> Run
        requires { self.place.current ≤ 100 }
        ensures { result ≡ go_on self }
    {
        self.go_to(self.place.current + 1)
    }

    // A trap fires: the current rate stays.
    pub fn fire(self, n: u8) -> Run
        ensures { result ≡ fire self n }
    {
        let sprung = self.with_trap(None);
        sprung.with_loops(Loops::none()).go_to(n)
    }

    // Operating means I, W, T or U.
    pub fn is_operating(self) -> bool
        ensures { result ≡ is_operating self }
    {
        matches!(self.mode, Mode::Running)
    }

    // I, W and T: these alone move with ticks.
    pub fn is_moving(self) -> bool
        ensures { result ≡ is_moving self }
    {
        self.is_operating() & !self.place.work.is_waiting()
    }

    pub fn pending(self) -> Option<Alarm>
        ensures { result ≡ pending self }
    {
        match self.mode {
            Mode::Stopped(alarm) => alarm,
            Mode::Paused | Mode::Running => None,
        }
    }

    // The alarm is told, and no longer pending.
    pub fn clear_alarm(self) -> Run
        ensures { result ≡ clear_alarm self }
    {
        match self.mode {
            Mode::Stopped(_) => self.with_mode(Mode::Stopped(None)),
            Mode::Paused | Mode::Running => self,
        }
    }

    pub fn with_place(mut self, place: Place) -> Run
        ensures { result ≡ with_place self place }
    {
        self.place = place;
        self
    }

    pub fn with_loops(mut self, loops: Loops) -> Run
        ensures { result ≡ with_loops self loops }
    {
        self.loops = loops;
        self
    }

    pub fn with_rate(mut self, rate: Option<Rate>) -> Run
        ensures { result ≡ with_rate self rate }
    {
        self.rate = rate;
        self
    }

    pub fn with_trap(mut self, trap: Option<u8>) -> Run
        ensures { result ≡ with_trap self trap }
    {
        self.trap = trap;
        self
    }

    fn with_mode(mut self, mode: Mode) -> Run
        ensures { result ≡ with_mode self mode }
    {
        self.mode = mode;
        self
    }
}
