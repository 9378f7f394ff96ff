// The sound states that the cases start from, and one part of a state replaced.
use dispense::{Rate, Visit};
use drive::{Direction, RateUnit};
use loops::{Loop, Loops};
use program::{Core, Mode, Place, Run, Work};
use pump::Pump;
use words::{Function, Phase};

// What the diameter of these states, 10,000, gives (document 01, Volumes, and figures b and i): 3,600,000 times a step of 19,635,000 fl.
pub const THRESHOLD: u64 = 70_686_000_000_000;

// A pump just switched on, its alarm told; phases 1 to 4 are RAT with the volume of 50 steps, RAT with none, PAS 2 and PAS 0.
pub fn stopped() -> Pump {
    let pump = Pump::new()
        .with_phase(1, phase(Function::Rat, 200_000, 1_000))
        .with_phase(2, phase(Function::Rat, 200_000, 0))
        .with_phase(3, phase(Function::Pas(2), 0, 0))
        .with_phase(4, phase(Function::Pas(0), 0, 0));
    with_run(pump, Run::fresh_at(1, Mode::Stopped(None)))
}

pub fn phase(function: Function, rate: u32, volume: u32) -> Phase {
    Phase {
        rate,
        volume,
        function,
        unit: RateUnit::Mh,
        direction: Direction::Infuse,
    }
}

// So many thousandths of a millilitre an hour.
pub fn mh(thousandths: u32) -> Option<Rate> {
    Some(Rate {
        unit: RateUnit::Mh,
        thousandths,
    })
}

// A program under way at phase `n`, at 200.0 MH.
pub fn running(work: Work, n: u8) -> Pump {
    with_run(stopped(), run_of(work, n))
}

pub fn run_of(work: Work, n: u8) -> Run {
    Run {
        place: Place { work, current: n },
        rate: mh(200_000),
        loops: Loops::none(),
        mode: Mode::Running,
        trap: None,
    }
}

pub fn visiting(n: u8, given: u64, target: u64, store: u64) -> Pump {
    running(
        Work::Visiting(Visit {
            given,
            target,
            store,
        }),
        n,
    )
}

// Three places of loops, of which so many are open.
pub fn loops_of(count: u8, first: Loop, second: Loop, third: Loop) -> Loops {
    Loops {
        slots: [first, second, third],
        count,
    }
}

pub fn begun(phase: u8, passes: u8) -> Loop {
    Loop {
        begun: phase,
        passes,
    }
}

pub fn with_run(pump: Pump, run: Run) -> Pump {
    with_core(pump, pump.device.core.with_run(run))
}

pub fn with_core(pump: Pump, core: Core) -> Pump {
    pump.with_device(pump.device.with_core(core))
}

// Another phase 41.
pub fn with_last(phase: Phase) -> Pump {
    stopped().with_phase(41, phase)
}
