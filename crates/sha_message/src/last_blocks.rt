// FIPS 180-4, 5.1 and 5.2: the last blocks of the padded message, one or two, put together.
ghost use Rattle.std.specs.Prelude.{◌≡◌, ◌+◌, ◌*◌, ◌/◌, ℕ, List, length, replicate, map};
ghost use Rattle.fips180.specs.Hash.{«compress», «hash_value»};
ghost use Rattle.fips180.specs.Continued.{hash_after};
ghost use Rattle.fips180.specs.LastBlocks.{tail_block, with_length};

use sha_blocks::whole_blocks;
use sha_words::Word;

// The bytes past the whole blocks and the byte 0x80, into a block of zeros.
fn put_tail<W: Word<B>, const B: usize>(m: &[u8], out: &mut [u8])
    requires { out.old ≡ replicate (16 * B) 0 }
    ensures { out.new ≡ tail_block W.family m.now }
{
    let tail = m.chunks_exact(16 * B).remainder();
    octets::put(out, 0, tail);
    out[tail.len()] = 0x80;
}

// The hash value s brought forward by the block b with a length of n bytes, in bits, at its end: two words.
fn last_block<W: Word<B>, const B: usize>(s: &mut [W; 8], b: &mut [u8], n: usize)
    requires { length b.old ≡ 16 * B }
    ensures { map W.number s.new ≡ «compress» W.family (with_length W.family n b.old) (map W.number s.old) }
{
    let (high, low) = W::length_words(n);
    octets::put(b, 14 * B, &high.to_be_bytes());
    octets::put(b, 15 * B, &low.to_be_bytes());
    whole_blocks(s, b);
}

// The hash value s, over the whole blocks of m, brought forward by the rest, which is put together in the block b of zeros.
fn last_blocks<W: Word<B>, const B: usize>(s: &mut [W; 8], n: usize, m: &[u8], b: &mut [u8])
    requires { b.old ≡ replicate (16 * B) 0 }
    ensures { (h : List ℕ) (k : ℕ) → map W.number s.old ≡ «hash_value» W.family h m.now (length m.now / (16 * B)) → n ≡ k * (16 * B) + length m.now
        → map W.number s.new ≡ hash_after W.family h k m.now }
{
    put_tail::<W, B>(m, b);
    if m.len() % (16 * B) < 14 * B {
        last_block(s, b, n);
        return;
    }
    whole_blocks(s, b);
    octets::zero_from(b, 0);
    last_block(s, b, n);
}

// The hash value s brought forward by all that is left of a message of n bytes.
pub(crate) fn hash_value<W: Word<B>, const B: usize>(s: &mut [W; 8], n: usize, m: &[u8])
    ensures { (k : ℕ) → n ≡ k * (16 * B) + length m.now → map W.number s.new ≡ hash_after W.family (map W.number s.old) k m.now }
{
    whole_blocks(s, m);
    let mut block = [[0u8; B]; 16];
    last_blocks(s, n, m, block.as_flattened_mut());
}
