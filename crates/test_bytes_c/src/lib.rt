// What `test_bytes` offers, as a function for C.
#![tactic(auto)]

// The bytes that so many times eight are answered with, counted modulo 256 each.
#[unsafe(no_mangle)]
pub extern "C" fn proved_bytes(times: u32, kind: u32, table: u32) -> u64 {
    test_bytes::proved_bytes(times, kind, table)
}
