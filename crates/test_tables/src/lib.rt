// The tables that are run against the clock, chosen by a number; the Rust crate beside tests/speed has them alike. No crate of the pump
// uses them.
//
// A table is chosen at run time: from one that the compiler knew, it would take the pump apart into its 41 phases and move them one by
// one.
#![tactic(auto)]

use drive::{Direction, RateUnit, Syringe};
use program::Run;
use pump::{Device, Pump};
use words::{Function, Phase};

// A pump just started on a table.
pub fn running(table: u32) -> Pump {
    let mut phases = [bare(Function::Stp); 41];
    for n in 0..Pump::PHASES {
        phases[n as usize] = phase_of(table, n + 1);
    }
    let device = Device::power_up();
    let mut core = device.core;
    core.run = Run::start(1);
    core.syringe = Syringe {
        diameter: diameter_of(table),
    };
    Pump {
        phases,
        device: device.with_core(core),
    }
}

// A narrow syringe for the visits of eighteen ticks, a wide one for those of a large volume and for the ramps.
fn diameter_of(table: u32) -> u16 {
    match table {
        5 | 8 | 9 => 26_590,
        _ => 10_000,
    }
}

fn phase_of(table: u32, n: u8) -> Phase {
    match table {
        // one continuous visit; nothing else is set
        0 => listed(&[rated(Function::Rat, 200_000, 0)], n),
        1 => large(n),
        // the longest pause, again and again
        2 => listed(&[bare(Function::Pas(99)), bare(Function::Jmp(1))], n),
        3 => mixed(n),
        4 => visits(n),
        // one visit of the largest volume
        5 => listed(&[rated(Function::Rat, 500_000, 9_999_000)], n),
        6 => bare(Function::Stp),
        // the trigger wait
        7 => listed(&[bare(Function::Pas(0))], n),
        8 => ramp(n, 100),
        9 => ramp(n, 1),
        // nothing but jumps
        _ => listed(&[bare(Function::Jmp(1))], n),
    }
}

// The phase of that number: one of those listed, or, behind them, one that stops.
fn listed(first: &[Phase], n: u8) -> Phase {
    n.checked_sub(1)
        .and_then(|at| first.get(at as usize))
        .copied()
        .unwrap_or(bare(Function::Stp))
}

// Every number above 9.999.
fn large(n: u8) -> Phase {
    let more = n as u32 * 1000;
    Phase {
        rate: 4_000_000 + more,
        volume: 9_000_000 + more,
        function: Function::Rat,
        unit: RateUnit::Um,
        direction: Direction::Infuse,
    }
}

// Every function, and numbers of every length, behind a continuous visit.
fn mixed(n: u8) -> Phase {
    let x = number_of(n);
    match n {
        1 => rated(Function::Rat, 200_000, 0),
        _ => rated(function_of(n), x, x),
    }
}

fn number_of(n: u8) -> u32 {
    match n % 4 {
        0 => 1_234_000,
        1 => 5_000,
        2 => 50_000,
        _ => 200_000,
    }
}

fn function_of(n: u8) -> Function {
    match n % 15 {
        0 => Function::Out(1),
        1 => Function::Rat,
        2 => Function::Inc,
        3 => Function::Dec,
        4 => Function::Stp,
        5 => Function::Jmp(7),
        6 => Function::Lop(9),
        7 => Function::Lps,
        8 => Function::Lpe,
        9 => Function::Pas(50),
        10 => Function::Tenths(5),
        11 => Function::If(3),
        12 => Function::Evn(4),
        13 => Function::Evr,
        _ => Function::Bep,
    }
}

// Visits of eighteen ticks in a loop.
fn visits(n: u8) -> Phase {
    let program = [
        bare(Function::Lps),
        rated(Function::Rat, 200_000, 1_000),
        bare(Function::Lop(99)),
        bare(Function::Jmp(1)),
    ];
    listed(&program, n)
}

// A ramp of 50 visits, each a little faster: of some 1,800 ticks at 0.1 ml, of some 18 at 0.001 ml.
fn ramp(n: u8, volume: u32) -> Phase {
    let program = [
        rated(Function::Rat, 200_000, volume),
        bare(Function::Lps),
        rated(Function::Inc, 1_000, volume),
        bare(Function::Lop(50)),
        bare(Function::Jmp(1)),
    ];
    listed(&program, n)
}

fn rated(function: Function, rate: u32, volume: u32) -> Phase {
    Phase {
        rate,
        volume,
        function,
        unit: RateUnit::Mh,
        direction: Direction::Infuse,
    }
}

fn bare(function: Function) -> Phase {
    rated(function, 0, 0)
}
