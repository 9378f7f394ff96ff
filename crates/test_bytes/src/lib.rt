// Bytes against the clock: packets in Safe mode and lines in Basic mode, with their answers. One function for tests/speed, and nothing
// else. The pump starts on a table that is chosen at run time, as it does for ticks, and `byte` is called in one place alone: else what is
// timed is how the compiler takes apart a pump that it knows.
#![tactic(auto)]

use test_tables::running;

// Of kind 0 the first eight bytes lead into Safe mode, and then it is the query DIA as a packet; of any other it is DIA twice, as lines.
const INTO_SAFE_MODE: [u8; 8] = *b"\rSAF255\r";

const PACKET: [u8; 8] = [2, 7, b'D', b'I', b'A', 0x2e, 0xdc, 3];

const LINES: [u8; 8] = *b"DIA\rDIA\r";

// The bytes that so many times eight are answered with, counted modulo 256 each.
pub fn proved_bytes(times: u32, kind: u32, table: u32) -> u64 {
    let mut pump = running(table);
    let (mut bytes, again) = match kind {
        0 => (INTO_SAFE_MODE, PACKET),
        _ => (LINES, LINES),
    };
    let mut said: u64 = 0;
    for _ in 0..times {
        for b in bytes {
            let mut out = [0u8; 24];
            let report = pump.byte(b, &mut out);
            pump = report.pump;
            said += report.length as u64 % 256;
        }
        bytes = again;
    }
    said
}
