// The bytes in which C is told how two logs compare.
ghost use Rattle.std.specs.Prelude.{◌≡◌};
ghost use Rattle.c_encoding.specs.Comparisons.{pmr_comparison_bytes, comparison_bytes};

use attestation_log::Pmr;
use log_comparison::PmrComparison;

// The bytes of one PMR, and of all five.
const PMR_LEN: usize = 5;

pub const COMPARISON_LEN: usize = Pmr::COUNT * PMR_LEN;

fn pmr_bytes(compared: PmrComparison) -> [u8; PMR_LEN]
    ensures { result ≡ pmr_comparison_bytes compared }
{
    let left = compared.left_records;
    let right = compared.right_records;
    let same = u8::from(compared.same_register);
    match compared.first_difference {
        None => [left, right, same, 1, 0],
        Some(place) => [left, right, same, 0, place.0],
    }
}

pub fn comparison_bytes(pmrs: &[PmrComparison; Pmr::COUNT]) -> [u8; COMPARISON_LEN]
    ensures { result ≡ comparison_bytes pmrs.now }
{
    let mut bytes = [0u8; COMPARISON_LEN];
    for (p, compared) in pmrs.iter().enumerate() {
        octets::put(&mut bytes, PMR_LEN * p, &pmr_bytes(*compared));
    }
    bytes
}
