// Keys and messages whose byte i is i.
ghost use Rattle.std.specs.Prelude.{◌≡◌};
ghost use Rattle.vector_report.specs.Counting.{counting};

use std::array;

pub fn counting_bytes() -> [u8; 256]
    ensures { result ≡ counting 256 }
{
    array::from_fn(|i| i as u8)
}
