// The byte by which C says yes or no.
ghost use Rattle.std.specs.Prelude.{◌≡◌, eqb};

// 1 is yes; 0, and each number that the header doesn't name, is no.
pub fn yes(byte: u8) -> bool
    ensures { result ≡ eqb byte 1 }
{
    byte == 1
}
