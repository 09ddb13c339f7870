// A line for each vector that a program runs, and how many there were: what was computed is compared with the hexadecimal text that was published.
#![tactic(auto)]

pub mod counting;

ghost use Rattle.std.specs.Prelude.{◌≡◌, true, false, OnOk, is_ok};
ghost use Rattle.std.specs.Fmt.{WritesText};
ghost use Rattle.report.specs.Report.{StaysFailed};
ghost use Rattle.vector_report.specs.Counts.{one_more, differing};
ghost use Rattle.vector_report.specs.Lines.{compared_line, vector_line, last_line};

use hex_text::Hex;
use std::fmt;

// How many vectors were run, how many of them differ, and where that is said.
#[derive(Drop)]
pub struct Tally<W> {
    pub run: u64,
    pub differ: u64,
    // Whether every line so far was written whole: none is written after one that wasn't.
    pub ok: bool,
    pub out: W,
}

// A vector's line: whether the computed bytes are the expected ones, or which others they are.
#[tactic(auto, unfolding(crate::specs::Lines::compared_line))]
fn write_line<W: fmt::Write, D: fmt::Display + Drop>(
    out: &mut W,
    vector: D,
    computed: &[u8],
    is_expected: bool,
) -> fmt::Result
    ensures { OnOk result (WritesText W.write_str_gives out.old (compared_line (D.output vector) computed.now is_expected) out.new) }
{
    if is_expected {
        writeln!(out, "{vector}: ok")
    } else {
        writeln!(out, "{vector}: {}", Hex(computed))
    }
}

impl<W: fmt::Write> Tally<W> {
    pub fn new(out: W) -> Self
        ensures counts { (result.run ≡ 0) × (result.differ ≡ 0) }
        ensures ok { result.ok ≡ true }
        ensures out { result.out ≡ out }
    {
        Tally {
            run: 0,
            differ: 0,
            ok: true,
            out,
        }
    }

    // Counts a vector, and writes its line.
    #[tactic(auto, unfolding(crate::specs::Counts::differing, crate::specs::Lines::vector_line))]
    pub fn compare<D: fmt::Display + Drop>(
        &mut self,
        vector: D,
        computed: &[u8],
        expected: &[u8],
    ) -> fmt::Result
        ensures run { self.new.run ≡ one_more self.old.run }
        ensures differ { self.new.differ ≡ differing computed.now expected.now self.old.differ }
        ensures failed { StaysFailed self.old.ok self.new.ok }
        ensures ok { self.new.ok ≡ is_ok result }
        ensures kept { self.old.ok ≡ false → self.new.out ≡ self.old.out }
        ensures written { OnOk result (WritesText W.write_str_gives self.old.out
            (vector_line (D.output vector) computed.now expected.now) self.new.out) }
    {
        self.run = self.run.wrapping_add(1);
        let is_expected = hex_text::same(computed, expected);
        if !is_expected {
            self.differ = self.differ.wrapping_add(1);
        }
        if self.ok {
            let written = write_line(&mut self.out, vector, computed, is_expected);
            self.ok = written.is_ok();
            written
        } else {
            Err(fmt::Error)
        }
    }

    // The last line.
    pub fn summary(&mut self) -> fmt::Result
        ensures counts { (self.new.run ≡ self.old.run) × (self.new.differ ≡ self.old.differ) }
        ensures failed { StaysFailed self.old.ok self.new.ok }
        ensures ok { self.new.ok ≡ is_ok result }
        ensures kept { self.old.ok ≡ false → self.new.out ≡ self.old.out }
        ensures written { OnOk result (WritesText W.write_str_gives self.old.out
            (last_line self.old.run self.old.differ) self.new.out) }
    {
        if !self.ok {
            return Err(fmt::Error);
        }
        let last = writeln!(self.out, "{} vectors, {} differ", self.run, self.differ);
        self.ok = last.is_ok();
        last
    }
}
