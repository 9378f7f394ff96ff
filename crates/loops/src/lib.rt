// The open loops (document 01, Ticks and phases): LPS opens one, LOP and LPE take the newest. At most three are open, begun by different
// phases. The crate knows a phase by its number alone.
#![tactic(auto)]

ghost use Rattle.std.specs.Prelude.{◌≡◌, [], ◌∷◌, ◌++◌, ◌<◌, length, take};
ghost use Rattle.loops.specs.Loops.{none, lps, Turning, lop, lpe, is_sound_loops, opened, in_slots, before, newest, older};

#[derive(Clone, Copy)]
pub struct Loop {
    pub begun: u8,
    pub passes: u8,
}

// What LOP and LPE take with none open: a loop counted as begun by phase 0. It also fills the places where no loop is open.
const NO_LOOP: Loop = Loop {
    begun: 0,
    passes: 0,
};

// Three places and how many are open, as document 01 names it. The newest open loop is the one at `count - 1`; LPS, LOP and LPE leave zeros
// in the places behind it.
#[derive(Clone, Copy)]
pub struct Loops {
    pub slots: [Loop; 3],
    pub count: u8,
}

// What LOP and LPE make of the loops, and the phase that follows.
#[derive(Clone, Copy)]
pub struct Turn {
    pub loops: Loops,
    pub next: u8,
}

impl Loops {
    pub fn none() -> Loops
        ensures { result ≡ none }
    {
        Loops {
            slots: [NO_LOOP; 3],
            count: 0,
        }
    }

    // LPS at this phase: with three still open there is no place for one more.
    pub fn lps(self, phase: u8) -> Option<Loops>
        ensures { result ≡ lps self phase }
    {
        let keep = self.place(phase);
        if 3 <= keep {
            return None;
        }
        let begun = Loop {
            begun: phase,
            passes: 0,
        };
        Some(self.opened_at(keep, begun))
    }

    // LOP n at the phase `current`: one more pass. The passes are compared in u16, since nothing bounds those of a loop that is not sound.
    pub fn lop(self, n: u8, current: u8) -> Turn
        requires { Turning self current }
        ensures { result ≡ lop self n current }
    {
        let newest = self.newest();
        let older = self.older();
        if n as u16 <= newest.passes as u16 + 1 {
            return Turn {
                loops: self.closed_to(older),
                next: current + 1,
            };
        }
        let again = Loop {
            passes: newest.passes + 1,
            ..newest
        };
        Turn {
            loops: self.opened_at(older, again),
            next: newest.begun + 1,
        }
    }

    // LPE: back to the loop's start, and no pass is counted.
    pub fn lpe(self) -> Turn
        requires { Turning self 0 }
        ensures { result ≡ lpe self }
    {
        let newest = self.newest();
        let older = self.older();
        Turn {
            loops: self.opened_at(older, newest),
            next: newest.begun + 1,
        }
    }

    // The places where no loop is open are asked nothing; most pumps have none open.
    pub fn is_sound(self, phases: u8) -> bool
        ensures { result ≡ is_sound_loops phases self }
    {
        let count = self.count;
        if count == 0 {
            return true;
        }
        let a = self.slots[0];
        let b = self.slots[1];
        let c = self.slots[2];
        (count <= 3)
            & ((count <= 0) | (a.begun <= phases) & (a.passes <= 98))
            & ((count <= 1) | (b.begun <= phases) & (b.passes <= 98))
            & ((count <= 2) | (c.begun <= phases) & (c.passes <= 98))
            & ((count <= 1) | !(a.begun == b.begun))
            & ((count <= 2) | !(a.begun == c.begun))
            & ((count <= 2) | !(b.begun == c.begun))
    }

    // How many loops were opened before the one that this phase opened; all of them, if it opened none.
    fn place(self, phase: u8) -> u8
        ensures { result ≡ length (before phase (opened self)) }
    {
        let a = self.slots[0];
        let b = self.slots[1];
        let c = self.slots[2];
        let count = self.count;
        if (0 < count) & (a.begun == phase) {
            return 0;
        }
        if (1 < count) & (b.begun == phase) {
            return 1;
        }
        if (2 < count) & (c.begun == phase) {
            return 2;
        }
        count.min(3)
    }

    // The newest loop, or one counted as begun by phase 0.
    fn newest(self) -> Loop
        ensures { result ≡ newest (opened self) }
    {
        if self.count == 0 {
            return NO_LOOP;
        }
        let i = self.older() as usize;
        self.slots[i]
    }

    // How many loops were opened before the newest. A count above three is taken as three, for no more places are there.
    fn older(self) -> u8
        ensures { result ≡ length (older (opened self)) }
    {
        self.count.saturating_sub(1).min(2)
    }

    // The first `keep` loops alone.
    fn closed_to(self, keep: u8) -> Loops
        requires { keep < 3 }
        ensures { result ≡ in_slots (take keep self.slots) }
    {
        let a = self.slots[0];
        let b = self.slots[1];
        Loops {
            slots: [
                if 0 < keep { a } else { NO_LOOP },
                if 1 < keep { b } else { NO_LOOP },
                NO_LOOP,
            ],
            count: keep,
        }
    }

    // The first `keep` loops and `newest` behind them.
    fn opened_at(self, keep: u8, newest: Loop) -> Loops
        requires { keep < 3 }
        ensures { result ≡ in_slots (take keep self.slots ++ newest ∷ []) }
    {
        let a = self.slots[0];
        let b = self.slots[1];
        let behind = if keep == 1 { newest } else { NO_LOOP };
        Loops {
            slots: [
                if 0 < keep { a } else { newest },
                if 1 < keep { b } else { behind },
                if keep == 2 { newest } else { NO_LOOP },
            ],
            count: keep + 1,
        }
    }
}
