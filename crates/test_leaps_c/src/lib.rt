// What `test_leaps` offers, as a function for C.
#![tactic(auto)]

// The steps infused by that many calls of so many ticks each.
#[unsafe(no_mangle)]
pub extern "C" fn proved_calls(calls: u32, ticks: u32, table: u32) -> u64 {
    test_leaps::proved_calls(calls, ticks, table)
}
