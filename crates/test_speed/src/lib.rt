// Ticks against the clock, one a call: one function for tests/speed, and nothing else. Calls of many are timed in a module of their own
// (test_leaps): what else is in a module alters how the compiler lays out a call.
#![tactic(auto)]

use test_tables::running;

// The steps infused by that many calls of a tick; all tables infuse.
pub fn proved_ticks(ticks: u32, table: u32) -> u64 {
    let mut pump = running(table);
    let mut steps: u64 = 0;
    for _ in 0..ticks {
        let mut out = [0u8; 24];
        let report = pump.tick(&mut out);
        pump = report.pump;
        steps += report.infused as u64;
    }
    steps
}
