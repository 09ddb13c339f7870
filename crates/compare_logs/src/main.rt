// Compares two recorded measurement logs, PMR by PMR. It writes which log is refused and why, or where the digests of each PMR first differ.
// README.md, "The output of compare_logs", has the format.
#![tactic(auto)]

mod lines;
mod words;

use lines::write_lines;
use log_comparison::RefusedLog;
use report::Report;
use std::fmt;
use std::fmt::Write;
use words::write_words;

// The longest text and one byte more, so that a longer file is seen to be longer.
const READ_LEN: usize = log_text::BUFFER_LEN + 1;

// What the lines on standard error begin with for an argument that names no file.
const ARGUMENT: &[u8] = b"compare_logs: argument";

const USAGE: &str =
    "usage: compare_logs LEFT RIGHT\ncompares two recorded measurement logs and writes, PMR by PMR, where their digests first differ\n";

// What the comparison of the texts in the files that arguments 1 and 2 name says.
fn compare<W: Write>(rt: &HostRuntime, out: &mut W, left: &[u8], right: &[u8]) -> fmt::Result {
    match log_comparison::compare(left, right) {
        Ok(pmrs) => {
            write_lines(out, &pmrs)?;
            write_words(out, &pmrs)
        }
        Err(RefusedLog::Left(why)) => {
            legacy_log::explain(rt, 1, left);
            write!(out, "refused left {}\nmeaning: {why}\n", why.number())
        }
        Err(RefusedLog::Right(why)) => {
            legacy_log::explain(rt, 2, right);
            write!(out, "refused right {}\nmeaning: {why}\n", why.number())
        }
    }
}

// Both files are read, so that each that can't be read whole has its line on standard error; what was read of it is never judged.
fn compare_named<W: Write>(rt: &HostRuntime, out: &mut W) -> fmt::Result {
    // Of fixed size, as no program here has a heap.
    let mut left = [0u8; READ_LEN];
    let mut right = [0u8; READ_LEN];
    let read_left = file_arguments::read_argument(rt, 1, ARGUMENT, &mut left);
    let read_right = file_arguments::read_argument(rt, 2, ARGUMENT, &mut right);
    match (read_left, read_right) {
        (Ok(n), Ok(m)) => compare(rt, out, &left[..n], &right[..m]),
        (Ok(_), Err(_)) => writeln!(out, "unread right"),
        (Err(_), Ok(_)) => writeln!(out, "unread left"),
        (Err(_), Err(_)) => writeln!(out, "unread left\nunread right"),
    }
}

fn main(rt: HostRuntime) {
    if file_arguments::argument_count(&rt) != 3 {
        let _ = whole_io::write_whole(&mut rt.stderr(), USAGE.as_bytes());
        return;
    }
    let mut report = Report::new(rt);
    // The report has said on standard error what couldn't be written.
    let _ = compare_named(&rt, &mut report);
    report.end();
}
