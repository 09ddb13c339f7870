// What the comparison found, for programs to read: a line for each PMR.
use log_comparison::PmrComparison;
use log_entry::Pmr;
use std::fmt;
use std::fmt::Write;

fn write_line<W: Write>(out: &mut W, pmr: usize, found: &PmrComparison) -> fmt::Result {
    match found.first_difference {
        None => write!(out, "pmr {pmr}: agree")?,
        Some(place) => write!(out, "pmr {pmr}: differ-at {}", place.0)?,
    }
    let registers = if found.same_register {
        "equal"
    } else {
        "different"
    };
    write!(
        out,
        " left-records {} right-records {}",
        found.left_records, found.right_records
    )?;
    writeln!(out, " registers {registers}")
}

pub(crate) fn write_lines<W: Write>(
    out: &mut W,
    pmrs: &[PmrComparison; Pmr::COUNT],
) -> fmt::Result {
    writeln!(out, "compared")?;
    for (pmr, found) in pmrs.iter().enumerate() {
        write_line(out, pmr, found)?;
    }
    Ok(())
}
