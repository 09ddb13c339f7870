// Bytes as hexadecimal text, for programs that compare what they compute with published values.
#![tactic(auto)]

ghost use Rattle.std.specs.Prelude.{◌≡◌, ◌<◌, ◌≤◌, length, Some};
ghost use Rattle.octets.specs.Octets.{same_bytes};
ghost use Rattle.hex_text.specs.HexText.{digit_text, byte_text, hex_text};

use std::fmt;

#[tactic(auto, unfolding(crate::specs::HexText::digit_text))]
fn digit_text(n: u8) -> u8
    requires { n < 16 }
    ensures { result ≡ digit_text n }
{
    if n < 10 { b'0' + n } else { b'a' + (n - 10) }
}

#[tactic(auto, unfolding(crate::specs::HexText::byte_text))]
pub fn byte_text(b: u8) -> [u8; 2]
    ensures { result ≡ byte_text b }
{
    [digit_text(b / 16), digit_text(b % 16)]
}

// Whether text is the hexadecimal text of bytes. One of another length isn't read; halving its length can't overflow, as doubling that of bytes could.
pub fn same(bytes: &[u8], text: &[u8]) -> bool
    ensures { result ≡ same_bytes (hex_text bytes.now) text.now }
{
    if text.len() % 2 != 0 {
        return false;
    }
    if text.len() / 2 != bytes.len() {
        return false;
    }
    // Two digits at a time: by `flat_map` and `eq` it takes three times as long.
    for (i, &byte) in bytes.iter().enumerate() {
        let digits = byte_text(byte);
        if digits[0] != text[2 * i] {
            return false;
        }
        if digits[1] != text[2 * i + 1] {
            return false;
        }
    }
    true
}

// The longest run of bytes that one write shows: a word of 32 bits.
const RUN: usize = 4;

// The digits of a run as text, in the buffer lent: one write shows them all, where "{byte:02x}" makes one or two for each byte.
fn run_text<'a>(run: &[u8], digits: &'a mut [u8; 2 * RUN]) -> &'a str
    requires { length run.now ≤ 4 }
    ensures { result.now ≡ hex_text run.now }
{
    for (i, &byte) in run.iter().enumerate() {
        octets::put(digits, 2 * i, &byte_text(byte));
    }
    str::from_utf8(&digits[..2 * run.len()]).unwrap()
}

// Shows bytes as their hexadecimal text.
#[derive(Clone, Copy)]
pub struct Hex<'a>(pub &'a [u8]);

impl fmt::Display for Hex<'_> {
    ghost output = { λ h. Some (hex_text h.0.now) };

    #[tactic(auto, unfolding(crate::specs::HexText::hex_text))]
    fn fmt<W: fmt::Write>(&self, f: &mut fmt::Formatter<W>) -> fmt::Result {
        let mut digits = [0; 2 * RUN];
        for run in self.0.chunks(RUN) {
            f.write_str(run_text(run, &mut digits))?;
        }
        Ok(())
    }
}
