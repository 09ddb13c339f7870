// The digest of a message (FIPS 180-4, 5.1, 5.2, 6.2 and 6.4), for the words of either family: the padded message, the hash value over its blocks, and its
// bytes.
#![tactic(auto)]

mod last_blocks;

ghost use Rattle.std.specs.Prelude.{◌≡◌, ◌+◌, ◌*◌, ◌≤◌, ℕ, length, take, map};
ghost use Rattle.fips180.specs.Hash.{word_bytes_of};
ghost use Rattle.fips180.specs.Continued.{hash_after};

use last_blocks::hash_value;
use sha_words::Word;

// The words of a hash value as bytes, and zeros: no array's length is computed from B.
fn hash_bytes<W: Word<B>, const B: usize>(s: &[W; 8]) -> [u8; 64]
    ensures { take (8 * B) result ≡ word_bytes_of W.family 8 (map W.number s.now) }
{
    let mut out = [0u8; 64];
    for (i, word) in s.iter().enumerate() {
        octets::put(&mut out, i * B, &word.to_be_bytes());
    }
    out
}

// The first N bytes of the hash value over the message m, from the hash value h. m may be the end of a message of n bytes, whose blocks before it are in h:
// they count in the length, and nowhere else.
pub fn digest<W: Word<B>, const B: usize, const N: usize>(h: [W; 8], n: usize, m: &[u8]) -> [u8; N]
    ensures { (k : ℕ) → n ≡ k * (16 * B) + length m.now → N ≤ 8 * B
        → result ≡ take N (word_bytes_of W.family 8 (hash_after W.family (map W.number h) k m.now)) }
{
    let mut s = h;
    hash_value(&mut s, n, m);
    octets::bytes_at(&hash_bytes(&s), 0)
}
