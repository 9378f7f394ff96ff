// Ticks against the clock, many a call: one function for tests/speed, and nothing else.
#![tactic(auto)]

use test_tables::running;

// The steps infused by that many calls of so many ticks each.
pub fn proved_calls(calls: u32, ticks: u32, table: u32) -> u64 {
    let mut pump = running(table);
    let mut steps: u64 = 0;
    for _ in 0..calls {
        let mut out = [0u8; 24];
        let report = pump.ticks(ticks, &mut out);
        pump = report.pump;
        steps += report.infused as u64;
    }
    steps
}
