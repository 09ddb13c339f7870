// Recorded logs, without a buffer: whether a replay takes one, and two compared PMR by PMR.
ghost use Rattle.std.specs.Prelude.{◌≡◌};
ghost use Rattle.refusal.specs.Steps.{outcome};
ghost use Rattle.log_text.specs.Texts.{text_number};
ghost use Rattle.c_encoding.specs.Comparisons.{compared_in};

use c_encoding::comparison_bytes::{COMPARISON_LEN, comparison_bytes};
use log_comparison::{RefusedLog, compare};
use log_text::check_text;
use refusal::number_of;

#[unsafe(no_mangle)]
pub extern "C" fn cerberus_log_text_verdict(text: &[u8]) -> u8
    ensures { result ≡ text_number text.now }
{
    number_of(&check_text(text))
}

#[unsafe(no_mangle)]
pub extern "C" fn cerberus_log_compare(
    left: &[u8],
    right: &[u8],
    comparison: &mut [u8; COMPARISON_LEN],
) -> u8
    ensures { outcome result comparison.new ≡ compared_in left.now right.now comparison.old }
{
    match compare(left, right) {
        Ok(pmrs) => {
            *comparison = comparison_bytes(&pmrs);
            0
        }
        Err(RefusedLog::Left(why) | RefusedLog::Right(why)) => why.number(),
    }
}
