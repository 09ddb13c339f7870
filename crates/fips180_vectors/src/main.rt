// Runs SHA-256, SHA-384 and SHA-512 on vectors whose digests come from outside, and compares.
//
// Each digest was computed by Python's hashlib, over OpenSSL, and by coreutils' sha256sum, sha384sum or sha512sum, which have code of their own: the two agree.
// Those of the empty message, of "abc", of the message of 896 bits and of a million times "a", and SHA-256's of the message of 448 bits, were also compared
// with the published ones as remembered. None was taken from this code.
#![tactic(auto)]

mod blocks_of_128;
mod blocks_of_64;
mod published;
mod vector;

use report::Report;
use std::fmt;
use vector_report::Tally;
use vector_report::counting::counting_bytes;

fn run<W: fmt::Write>(tally: &mut Tally<W>) -> fmt::Result {
    let pattern = counting_bytes();
    published::run(tally)?;
    blocks_of_64::run(tally, &pattern)?;
    blocks_of_128::run(tally, &pattern)?;
    tally.summary()
}

fn main(rt: HostRuntime) {
    let mut tally = Tally::new(Report::new(rt));
    // The report has said on standard error what couldn't be written.
    let _ = run(&mut tally);
    tally.out.end();
}
