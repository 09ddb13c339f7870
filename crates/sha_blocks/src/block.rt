// FIPS 180-4, 6.2.2 and 6.4.2, steps 2 to 4: the hash value after one more block.
ghost use Rattle.std.specs.Prelude.{◌≡◌, ◌*◌, length, map};
ghost use Rattle.fips180.specs.Hash.{«sums», «compress»};

use crate::rounds::{first_sixteen_rounds, next_sixteen_rounds};
use sha_words::Word;

// By an index: with `array::from_fn`, and with `iter_mut` and `zip`, the proof did not close.
fn sums<W: Word<B>, const B: usize>(s: [W; 8], t: [W; 8]) -> [W; 8]
    ensures { map W.number result ≡ «sums» W.family 8 (map W.number s) (map W.number t) }
{
    let mut r = s;
    for i in 0..8 {
        r[i] = s[i].add(t[i]);
    }
    r
}

// The hash value after the block b.
fn compress<W: Word<B>, const B: usize>(s: [W; 8], b: &[u8]) -> [W; 8]
    requires { length b.now ≡ 16 * B }
    ensures { map W.number result ≡ «compress» W.family b.now (map W.number s) }
{
    let mut w = [W::default(); 16];
    let mut v = first_sixteen_rounds(s, b, &mut w);
    // By the group's number: with chunks of the constants, each chunk's place would have to be proved besides.
    for group in 1..W::constants().len() / 16 {
        let u = next_sixteen_rounds(v, 16 * group, &mut w);
        v = u;
    }
    sums(v, s)
}

// The hash value brought forward by the block b where it stands: handed back, it would be copied, and the copy would wait for its words.
pub(crate) fn update<W: Word<B>, const B: usize>(s: &mut [W; 8], b: &[u8])
    requires { length b.now ≡ 16 * B }
    ensures { map W.number s.new ≡ «compress» W.family b.now (map W.number s.old) }
{
    let before = *s;
    let after = compress(before, b);
    *s = after;
}
