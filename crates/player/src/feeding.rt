// The bytes of the input, one after the other, and its end.
ghost use Rattle.std.specs.Prelude.{◌≡◌, ◌+◌, ◌≤◌, length};
ghost use Rattle.base.specs.Wrote.{Wrote};
ghost use Rattle.player.specs.Scripts.{fresh_bench, closed, Feeds};

use crate::joining::ROOM;
use crate::rigs::Rig;
use base::copy;
use script::Spot;

// The rig, and where in a line the input stands.
#[derive(Clone, Copy)]
pub struct Bench {
    pub rig: Rig,
    pub place: Spot,
}

// The bench after a part of the input, how much of it was taken, and where what it printed ends.
#[derive(Clone, Copy)]
pub struct Fed {
    pub bench: Bench,
    pub taken: usize,
    pub end: usize,
}

impl Fed {
    fn new(rig: Rig, place: Spot, taken: usize, end: usize) -> Fed
        ensures { result ≡ record { bench = record { rig = rig; place = place }; taken = taken; end = end } }
    {
        Fed {
            bench: Bench { rig, place },
            taken,
            end,
        }
    }
}

impl Bench {
    pub fn new() -> Bench
        ensures { result ≡ fresh_bench }
    {
        Bench {
            rig: Rig::new(),
            place: Spot::Start,
        }
    }

    // As much of `s` as there is room in `out` for what it prints. Most bytes only move the place: the rig, which is large, is not
    // touched for them.
    pub fn feed(self, s: &[u8], out: &mut [u8]) -> Fed
        requires { 69 ≤ length out.old }
        ensures { Feeds self s.now out.old out.new result }
    {
        let mut rig = self.rig;
        let mut place = self.place;
        let mut taken = 0;
        let mut end = 0;
        for b in s {
            if out.len() - end < ROOM {
                break;
            }
            let step = place.after(*b);
            place = step.place;
            if step.act.is_deed() {
                let acted = rig.act(step.act);
                rig = acted.rig;
                end = copy(out, end, acted.lines.as_slice());
            }
            taken += 1;
        }
        Fed::new(rig, place, taken, end)
    }

    // The end of the input.
    pub fn closed(self, out: &mut [u8]) -> usize
        requires { 69 ≤ length out.old }
        ensures { Wrote out.old out.new 0 result (closed self) }
    {
        let acted = self.rig.act(self.place.input_end());
        copy(out, 0, acted.lines.as_slice())
    }
}
