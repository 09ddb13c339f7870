// What the comparison found, in words: a line for each PMR, and one for the whole.
use log_comparison::PmrComparison;
use log_entry::{MeasurementIndex, Pmr};
use std::fmt;
use std::fmt::Write;

fn write_agrees<W: Write>(out: &mut W, pmr: usize, records: u8) -> fmt::Result {
    match records {
        0 => writeln!(out, "PMR {pmr} agrees: no records on either side."),
        1 => writeln!(out, "PMR {pmr} agrees: the same digest."),
        _ => writeln!(
            out,
            "PMR {pmr} agrees: the same {records} digests in the same order."
        ),
    }
}

// One log ends after k records of the PMR, the other has n.
fn write_end<W: Write>(
    out: &mut W,
    pmr: usize,
    (ends, k): (&str, u8),
    (other, n): (&str, u8),
) -> fmt::Result {
    let records = if k == 1 { "record" } else { "records" };
    write!(
        out,
        "PMR {pmr} differs: the {ends} log ends after {k} {records}"
    )?;
    writeln!(out, ", the {other} log has {n}.")
}

// The first difference is at this place among the PMR's records.
fn write_differs<W: Write>(
    out: &mut W,
    pmr: usize,
    place: MeasurementIndex,
    found: &PmrComparison,
) -> fmt::Result {
    let k = place.0;
    let left = found.left_records;
    let right = found.right_records;
    if k < left && k < right {
        write!(out, "PMR {pmr} differs: record {k}, counted from 0")?;
        return writeln!(out, ", has another digest in the right log.");
    }
    if k < right {
        write_end(out, pmr, ("left", k), ("right", right))
    } else {
        write_end(out, pmr, ("right", k), ("left", left))
    }
}

// Different digests under equal registers name a collision of SHA-256 (document 02, Item 13). Where one log has more records, its
// register may instead have come back to the 32 zero bytes that it started from.
fn write_equal_registers<W: Write>(out: &mut W, pmr: usize, found: &PmrComparison) -> fmt::Result {
    let or_zeros = if found.left_records != found.right_records {
        " or 32 zero bytes for one"
    } else {
        ""
    };
    write!(
        out,
        "PMR {pmr}: the registers are equal all the same; keep both logs, "
    )?;
    writeln!(
        out,
        "SHA-256 has given one value for two different strings{or_zeros}."
    )
}

fn write_pmr<W: Write>(out: &mut W, pmr: usize, found: &PmrComparison) -> fmt::Result {
    let Some(place) = found.first_difference else {
        return write_agrees(out, pmr, found.left_records);
    };
    write_differs(out, pmr, place, found)?;
    if found.same_register {
        write_equal_registers(out, pmr, found)?;
    }
    Ok(())
}

// How many PMRs differ.
fn differing(pmrs: &[PmrComparison; Pmr::COUNT]) -> usize {
    pmrs.iter()
        .filter(|found| found.first_difference.is_some())
        .count()
}

fn write_summary<W: Write>(out: &mut W, n: usize) -> fmt::Result {
    match n {
        0 => writeln!(out, "The logs agree in every PMR."),
        _ => writeln!(out, "The logs differ in {n} of {} PMRs.", Pmr::COUNT),
    }
}

pub(crate) fn write_words<W: Write>(
    out: &mut W,
    pmrs: &[PmrComparison; Pmr::COUNT],
) -> fmt::Result {
    for (pmr, found) in pmrs.iter().enumerate() {
        write_pmr(out, pmr, found)?;
    }
    write_summary(out, differing(pmrs))
}
