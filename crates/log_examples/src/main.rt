// Runs document 01's "Examples at the edges" of the measurement log, and what document 02, Item 2, says of a buffer that somebody else wrote; says of each
// whether it came out as written there.
#![tactic(auto)]

mod kept_registers;
mod records;

use report::Report;
use std::fmt;

fn run(out: &mut Report) -> fmt::Result {
    records::run(out)?;
    kept_registers::run(out)
}

fn main(rt: HostRuntime) {
    let mut report = Report::new(rt);
    // The report has said on standard error what couldn't be written.
    let _ = run(&mut report);
    report.end();
}
