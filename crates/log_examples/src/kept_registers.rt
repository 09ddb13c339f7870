// Document 02, Item 2: a log's registers, where somebody else wrote its buffer.
use attestation_log::{Log, Pmr};
use refusal::number_of;
use report::Report;
use std::fmt;

// SHA-256 of 64 zero bytes, Python's hashlib's: PMR0 after one record of a digest of zeros.
const ONCE: [u8; 32] =
    *b"\xf5\xa5\xfd\x42\xd1\x6a\x20\x30\x27\x98\xef\x6e\xd3\x09\x97\x9b\x43\x00\x3d\x23\x20\xd9\xf0\xe8\xea\x98\x31\xa9\x27\x59\xfb\x4b";

// "record and register read give 4 only where the counts in the state don't add up or exceed 64"
fn after_a_write(out: &mut Report, log: Log, buffer: &mut [u8]) -> fmt::Result {
    let check = log.check(buffer);
    out.example(
        "a buffer that somebody else wrote is 4 in the check",
        number_of(&check) == 4,
    )?;
    let register = log.register(Pmr(0), buffer);
    out.example("a register is read all the same", register == Ok(ONCE))?;
    let recorded = log.record(Pmr(0), 10, [0; 32], buffer);
    out.example("a record passes all the same", recorded.verdict.is_ok())
}

pub(crate) fn run(out: &mut Report) -> fmt::Result {
    let mut buffer = [0u8; Log::BUFFER_LEN];
    let log = Log::fresh().record(Pmr(0), 10, [0; 32], &mut buffer).log;
    out.example(
        "a log's own buffer passes the check",
        log.check(&buffer).is_ok(),
    )?;
    buffer.fill(0);
    after_a_write(out, log, &mut buffer)
}
