// What the manifest elements share: runs of items of one width, and a writer's verdict. Each function is total, so that no test of an element needs another
// to hold first.
#![tactic(auto)]

ghost use Rattle.std.specs.Prelude.{◌≡◌};
ghost use Rattle.refusal.specs.Refusals.{number_of};
ghost use Rattle.element_parts.specs.Parts.{write_number, item, item_count, bad_items};

use refusal::Refusal;

// A run of items of width bytes, one behind the other.
#[derive(Clone, Copy)]
pub struct Run<'a> {
    pub bytes: &'a [u8],
    pub width: usize,
}

impl<'a> Run<'a> {
    // Item i, from 0: empty past the last.
    pub fn nth(self, i: usize) -> &'a [u8]
        ensures { result.now ≡ item self.entry.width self.entry.bytes.now i }
    {
        let rest = octets::behind(self.bytes, self.width.saturating_mul(i));
        octets::front(rest, self.width)
    }

    // How many: none where items have no bytes.
    pub fn count(self) -> usize
        ensures { result ≡ item_count self.entry.width self.entry.bytes.now }
    {
        self.bytes.len().checked_div(self.width).unwrap_or(0)
    }

    // Whether the run is no whole number of items, or has none, or more than a count of one byte can say.
    pub fn bad(self) -> bool
        ensures { result ≡ bad_items self.entry.width self.entry.bytes.now }
    {
        let count = self.count();
        count == 0 || 255 < count || !self.bytes.len().is_multiple_of(self.width)
    }
}

// A writer's verdict on its fields, and then on the length of its buffer, which only sound fields have.
pub fn write_verdict(malformed: bool, len: usize, buffer_len: usize) -> Result<(), Refusal>
    ensures { number_of result ≡ write_number malformed len buffer_len }
{
    if malformed {
        return Err(Refusal::MalformedElement);
    }
    if buffer_len != len {
        return Err(Refusal::WrongBuffer);
    }
    Ok(())
}
