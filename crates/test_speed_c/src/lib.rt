// What `test_speed` offers, as a function for C.
#![tactic(auto)]

// The steps infused by that many calls of a tick; all tables infuse.
#[unsafe(no_mangle)]
pub extern "C" fn proved_ticks(ticks: u32, table: u32) -> u64 {
    test_speed::proved_ticks(ticks, table)
}
