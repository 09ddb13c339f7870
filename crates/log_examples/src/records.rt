// Fresh registers, the first record's bytes, and the 64th and the 65th record.
use attestation_log::{Log, Pmr};
use refusal::{Refusal, number_of};
use report::Report;
use std::fmt;

// Document 01's first record, in the layout of document 02, Item 4: PMR0, event type 10, digest all zero. The measurement, SHA-256 of 64 zero bytes, is
// Python's hashlib's.
const FIRST: [u8; 89] =
    *b"\xcb\x59\x00\x00\x00\x00\x00\x0a\x00\x00\x00\x00\x00\x00\x00\x01\x00\x00\x00\x0b\x00\
\x00\x00\x00\x00\x00\x00\x00\x00\x00\x00\x00\x00\x00\x00\x00\x00\x00\x00\x00\x00\x00\x00\x00\x00\x00\x00\x00\x00\x00\x00\x00\x00\
\x20\x00\x00\x00\
\xf5\xa5\xfd\x42\xd1\x6a\x20\x30\x27\x98\xef\x6e\xd3\x09\x97\x9b\x43\x00\x3d\x23\x20\xd9\xf0\xe8\xea\x98\x31\xa9\x27\x59\xfb\x4b";

fn fresh_registers(out: &mut Report, log: Log, buffer: &[u8]) -> fmt::Result {
    for pmr in 0..5 {
        let zeros = log.register(Pmr(pmr), buffer) == Ok([0; 32]);
        out.example(format_args!("a fresh PMR{pmr} reads as zeros"), zeros)?;
    }
    Ok(())
}

fn first_record(out: &mut Report, log: Log, buffer: &mut [u8]) -> fmt::Result {
    let next = log.record(Pmr(0), 10, [0; 32], buffer).log;
    let as_written = next.read_out(buffer) == FIRST.as_slice();
    out.example("the first record's 89 bytes", as_written)
}

// What the last of n records answers.
fn last_of(n: usize, buffer: &mut [u8]) -> Result<(), Refusal> {
    let mut log = Log::reset(buffer)?;
    let mut last = Ok(());
    for _ in 0..n {
        let recorded = log.record(Pmr(1), 7, [0x5a; 32], buffer);
        last = recorded.verdict;
        log = recorded.log;
    }
    last
}

pub(crate) fn run(out: &mut Report) -> fmt::Result {
    let mut buffer = [0xffu8; Log::BUFFER_LEN];
    let Ok(log) = Log::reset(&mut buffer) else {
        return out.example("a reset of 5,696 bytes is accepted", false);
    };
    fresh_registers(out, log, &buffer)?;
    first_record(out, log, &mut buffer)?;
    out.example("the 64th record passes", last_of(64, &mut buffer).is_ok())?;
    out.example(
        "the 65th record is 7",
        number_of(&last_of(65, &mut buffer)) == 7,
    )
}
