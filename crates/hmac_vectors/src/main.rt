// Runs `hmac_sha256` and `pairing_key` on vectors whose values come from outside, and compares. Each module says where its values are from; none was taken from
// this code. Python's hmac and cryptography, which they were compared with, work by OpenSSL, so each was also compared with FIPS 198-1 written out in Python
// over CPython's own SHA-256 (_sha256).
#![tactic(auto)]

mod key_lengths;
mod pairing_keys;
mod rfc4231;

use report::Report;
use std::fmt;
use vector_report::Tally;
use vector_report::counting::counting_bytes;

fn run<W: fmt::Write>(tally: &mut Tally<W>) -> fmt::Result {
    let m = counting_bytes();
    rfc4231::run(tally)?;
    key_lengths::run(tally, &m)?;
    pairing_keys::run(tally, &m)?;
    tally.summary()
}

fn main(rt: HostRuntime) {
    let mut tally = Tally::new(Report::new(rt));
    // The report has said on standard error what couldn't be written.
    let _ = run(&mut tally);
    tally.out.end();
}
