// Runs document 01's "Examples at the edges" of manifests that are not marked P; says of each whether it came out as written there. Those marked P are the
// table in specs/; those of the measurement log are the program `log_examples`.
#![tactic(auto)]

mod elements_examples;
mod slot_examples;

use report::Report;
use std::fmt;

fn run(out: &mut Report) -> fmt::Result {
    elements_examples::run(out)?;
    slot_examples::run(out)
}

fn main(rt: HostRuntime) {
    let mut report = Report::new(rt);
    // The report has said on standard error what couldn't be written.
    let _ = run(&mut report);
    report.end();
}
