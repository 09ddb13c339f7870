// A program's report on standard output, written part by part. The first part that can't be written gets a line on standard error, and no part is written
// after it.
#![tactic(auto)]

ghost use Rattle.std.specs.Prelude.{◌≡◌, true, ◌&&◌, length, is_ok, IsOk, OnOk};
ghost use Rattle.std.specs.Fmt.{WritesText};
ghost use Rattle.report.specs.Report.{StaysFailed, example_line};

use std::fs::OpenOptions;
use std::io::ErrorKind;
use std::{fmt, fs, io};

// Whether every part so far was written whole.
#[derive(Drop)]
pub struct Report {
    pub ok: bool,
    rt: HostRuntime,
}

// Standard output by its name.
const OUTPUT: &str = "/dev/stdout";

// Has the system store what was written, where standard output is a file. Of a pipe, a terminal or a file that mustn't be opened again there is nothing more
// to learn, nor of one that can't be stored.
fn store_output(rt: &HostRuntime) -> io::Result<()> {
    match fs::metadata(rt, OUTPUT) {
        Ok(output) if output.is_file() => {}
        _ => return Ok(()),
    }
    let Ok(file) = OpenOptions::new().write(true).open(rt, OUTPUT) else {
        return Ok(());
    };
    match file.sync_all() {
        Err(e) if e.kind() == ErrorKind::InvalidInput => Ok(()),
        synced => synced,
    }
}

impl Report {
    pub fn new(rt: HostRuntime) -> Self
        ensures { result.ok ≡ true }
    {
        Report { ok: true, rt }
    }

    // A part, whose bytes need be no UTF-8. None is written after one that couldn't be.
    pub fn text(&mut self, bytes: &[u8]) -> fmt::Result
        ensures ok { IsOk result → (self.old.ok ≡ true) × (self.new.ok ≡ true) }
        ensures outcome { is_ok result ≡ self.new.ok }
        ensures failed { StaysFailed self.old.ok self.new.ok }
        ensures nothing { length bytes.now ≡ 0 → self.new.ok ≡ self.old.ok }
    {
        if !self.ok {
            return Err(fmt::Error);
        }
        let written = whole_io::write_whole(&mut self.rt.stdout(), bytes);
        self.outcome(written)
    }

    // What `write!` and `writeln!` call on a report, before the trait's: that says nothing of a part that fails. A report that has failed stays so.
    pub fn write_fmt<D: fmt::Display + Drop>(&mut self, value: D) -> fmt::Result
        ensures failed { StaysFailed self.old.ok self.new.ok }
        ensures writes { OnOk result (WritesText ⟦<Report as fmt::Write>⟧.write_str_gives self.old (D.output value) self.new) }
    {
        match self.ok {
            true => fmt::Write::write_fmt(self, value),
            false => Err(fmt::Error),
        }
    }

    // The report's end. What was written is stored: some file systems tell only then that a write has failed.
    pub fn end(&mut self)
        ensures { StaysFailed self.old.ok self.new.ok }
    {
        if self.ok {
            let stored = store_output(&self.rt);
            let _ = self.outcome(stored);
        }
    }

    // The line of an example. A report that has failed stays so, and gets no more lines.
    pub fn example<D: fmt::Display + Drop>(&mut self, text: D, as_written: bool) -> fmt::Result
        ensures failed { StaysFailed self.old.ok self.new.ok }
    {
        if self.ok {
            example(self, text, as_written)
        } else {
            Err(fmt::Error)
        }
    }

    // What a call on standard output leaves of the report.
    fn outcome(&mut self, call: io::Result<()>) -> fmt::Result
        ensures answer { is_ok result ≡ is_ok call }
        ensures ok { self.new.ok ≡ (is_ok call && self.old.ok) }
    {
        let Err(e) = call else {
            return Ok(());
        };
        whole_io::write_failure(&mut self.rt.stderr(), b"standard output", &e);
        self.ok = false;
        Err(fmt::Error)
    }
}

impl fmt::Write for Report {
    ghost write_str_gives = { λ before part after. (before.ok ≡ true) × (after.ok ≡ true) };

    fn write_str(&mut self, part: &str) -> fmt::Result
        ensures ok { IsOk result → (self.old.ok ≡ true) × (self.new.ok ≡ true) }
        ensures outcome { is_ok result ≡ self.new.ok }
        ensures failed { StaysFailed self.old.ok self.new.ok }
        ensures nothing { length part.now ≡ 0 → self.new.ok ≡ self.old.ok }
    {
        self.text(part.as_bytes())
    }
}

// Writes a line for an example that a document gives: whether it came out as written there.
#[tactic(auto, unfolding(crate::specs::Report::example_line))]
pub fn example<W: fmt::Write, D: fmt::Display + Drop>(
    out: &mut W,
    example: D,
    as_written: bool,
) -> fmt::Result
    ensures { OnOk result (WritesText W.write_str_gives out.old (example_line (D.output example) as_written) out.new) }
{
    if as_written {
        writeln!(out, "{example}: as written")
    } else {
        writeln!(out, "{example}: DIFFERS")
    }
}
