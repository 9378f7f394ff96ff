// What a phase does. A case's datum may be any u8, also one that no pump can hold: `fits` says which it may.
ghost use Rattle.std.specs.Prelude.{◌≡◌, if◌then◌else◌};
ghost use Rattle.words.specs.Functions.{number, datum, is_flow, is_ramp, is_rate_phase, is_wait, is_beep, is_out, takes_phase, takes_count};
ghost use Rattle.words.specs.Functions.{takes_datum, fits, pause_ticks};
ghost use Rattle.words.specs.Spelling.{function_name};

#[derive(Clone, Copy, PartialEq, Eq, Debug)]
pub enum Function {
    Rat,
    Inc,
    Dec,
    Stp,
    // to a phase
    Jmp(u8),
    // so many passes
    Lop(u8),
    Lps,
    Lpe,
    // seconds; 0 waits for a trigger
    Pas(u8),
    // tenths of a second
    Tenths(u8),
    // to a phase, if pin 6 is low
    If(u8),
    // to a phase, when pin 4 falls
    Evn(u8),
    Evr,
    Bep,
    // the output's level
    Out(u8),
}

impl Function {
    // Its place in the list. A case that holds a datum has no number by `as`.
    pub fn number(self) -> u8
        ensures { result ≡ number self }
    {
        match self {
            Function::Rat => 0,
            Function::Inc => 1,
            Function::Dec => 2,
            Function::Stp => 3,
            Function::Jmp(_) => 4,
            Function::Lop(_) => 5,
            Function::Lps => 6,
            Function::Lpe => 7,
            Function::Pas(_) => 8,
            Function::Tenths(_) => 9,
            Function::If(_) => 10,
            Function::Evn(_) => 11,
            Function::Evr => 12,
            Function::Bep => 13,
            Function::Out(_) => 14,
        }
    }

    // Its datum, 0 where it takes none.
    pub fn datum(self) -> u8
        ensures { result ≡ datum self }
    {
        match self {
            Function::Jmp(n)
            | Function::Lop(n)
            | Function::Pas(n)
            | Function::Tenths(n)
            | Function::If(n)
            | Function::Evn(n)
            | Function::Out(n) => n,
            _ => 0,
        }
    }

    // RAT
    pub fn is_flow(self) -> bool
        ensures { result ≡ is_flow self }
    {
        matches!(self, Function::Rat)
    }

    // INC and DEC
    pub fn is_ramp(self) -> bool
        ensures { result ≡ is_ramp self }
    {
        matches!(self, Function::Inc | Function::Dec)
    }

    // RAT, INC and DEC: only these pump, and only these have a rate and a volume to ask for.
    pub fn is_rate_phase(self) -> bool
        ensures { result ≡ is_rate_phase self }
    {
        matches!(self, Function::Rat | Function::Inc | Function::Dec)
    }

    // PAS 0
    pub fn is_wait(self) -> bool
        ensures { result ≡ is_wait self }
    {
        matches!(self, Function::Pas(0))
    }

    // BEP
    pub fn is_beep(self) -> bool
        ensures { result ≡ is_beep self }
    {
        matches!(self, Function::Bep)
    }

    // OUT
    pub fn is_out(self) -> bool
        ensures { result ≡ is_out self }
    {
        matches!(self, Function::Out(_))
    }

    // JMP, IF and EVN
    pub fn takes_phase(self) -> bool
        ensures { result ≡ takes_phase self }
    {
        matches!(self, Function::Jmp(_) | Function::If(_) | Function::Evn(_))
    }

    // LOP, and PAS in tenths
    pub fn takes_count(self) -> bool
        ensures { result ≡ takes_count self }
    {
        matches!(self, Function::Lop(_) | Function::Tenths(_))
    }

    // The letters of its name, for whoever reads it or prints it.
    pub fn name(self) -> &'static [u8]
        ensures { result.now ≡ function_name self }
    {
        match self {
            Function::Rat => b"RAT",
            Function::Inc => b"INC",
            Function::Dec => b"DEC",
            Function::Stp => b"STP",
            Function::Jmp(_) => b"JMP",
            Function::Lop(_) => b"LOP",
            Function::Lps => b"LPS",
            Function::Lpe => b"LPE",
            Function::Pas(_) | Function::Tenths(_) => b"PAS",
            Function::If(_) => b"IF",
            Function::Evn(_) => b"EVN",
            Function::Evr => b"EVR",
            Function::Bep => b"BEP",
            Function::Out(_) => b"OUT",
        }
    }

    // How many ticks a timed pause takes, after the one that enters it; 0 for whatever is none.
    pub fn pause_ticks(self) -> u32
        ensures { result ≡ pause_ticks self }
    {
        match self {
            Function::Pas(seconds) => seconds as u32 * 1000,
            Function::Tenths(tenths) => tenths as u32 * 100,
            _ => 0,
        }
    }

    // Whether a pump of `phases` phases may hold this function with its datum. Every call on a pump asks this of all its phases,
    // so nearly every one leaves at the first test.
    pub fn fits(self, phases: u8) -> bool
        ensures { result ≡ fits phases self }
    {
        let n = self.quick();
        if (1 <= n) & (n <= phases) & (n <= 99) {
            return true;
        }
        self.fits_its_rule(phases)
    }

    // As `fits`, each function by its own rule.
    fn fits_its_rule(self, phases: u8) -> bool
        ensures { result ≡ fits phases self }
    {
        match self {
            Function::Jmp(n) | Function::If(n) | Function::Evn(n) => (1 <= n) & (n <= phases),
            Function::Lop(n) | Function::Tenths(n) => (1 <= n) & (n <= 99),
            Function::Pas(n) => n <= 99,
            Function::Out(n) => n <= 1,
            _ => true,
        }
    }

    // A number that, from 1 to the last phase, tells at once that the datum fits: the datum, 1 where there is none, 0 where it must be
    // looked at by its own rule.
    fn quick(self) -> u8
        ensures { result ≡ (if is_out self then 0 else if takes_datum self then datum self else 1) }
    {
        match self {
            Function::Jmp(n)
            | Function::Lop(n)
            | Function::Pas(n)
            | Function::Tenths(n)
            | Function::If(n)
            | Function::Evn(n) => n,
            Function::Out(_) => 0,
            _ => 1,
        }
    }
}
