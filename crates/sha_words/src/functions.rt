// FIPS 180-4, 4.1.2 and 4.1.3: the functions on words, of both families.
ghost use Rattle.std.specs.Prelude.{◌≡◌};
ghost use Rattle.fips180.specs.Words.{ch, maj};
ghost use Rattle.fips180.specs.Family.{word_bits, rotations, rotations_shift, «big_sigma0», «big_sigma1», «small_sigma0», «small_sigma1»};
ghost use Rattle.sha_words.specs.Words.{amounts_of, Grow, GrowShift};

use crate::word::Word;

// The rotations are nested, as ROTR n (x ^ ROTR m x) = ROTR n x ^ ROTR (n + m) x: two copies of x fewer.
#[tactic(auto, using(crate::proofs::Nested::rotations_nested))]
fn rotations<W: Word<B>, const B: usize>(x: W, n: [u32; 3]) -> W
    requires { Grow (word_bits W.family) (amounts_of n) }
    ensures { W.number result ≡ rotations W.family (amounts_of n) (W.number x) }
{
    let inner = x.xor(x.rotate_right(n[2] - n[1]));
    let outer = x.xor(inner.rotate_right(n[1] - n[0]));
    outer.rotate_right(n[0])
}

#[tactic(auto, using(crate::proofs::Nested::rotations_shift_nested))]
fn rotations_shift<W: Word<B>, const B: usize>(x: W, n: [u32; 3]) -> W
    requires { GrowShift (word_bits W.family) (amounts_of n) }
    ensures { W.number result ≡ rotations_shift W.family (amounts_of n) (W.number x) }
{
    let inner = x.xor(x.rotate_right(n[1] - n[0]));
    inner.rotate_right(n[0]).xor(x.shift_right(n[2]))
}

#[tactic(auto, unfolding(fips180::specs::Family::big_sigma0))]
pub fn big_sigma0<W: Word<B>, const B: usize>(x: W) -> W
    ensures { W.number result ≡ «big_sigma0» W.family (W.number x) }
{
    rotations(x, W::big_sigma0_amounts())
}

#[tactic(auto, unfolding(fips180::specs::Family::big_sigma1))]
pub fn big_sigma1<W: Word<B>, const B: usize>(x: W) -> W
    ensures { W.number result ≡ «big_sigma1» W.family (W.number x) }
{
    rotations(x, W::big_sigma1_amounts())
}

#[tactic(auto, unfolding(fips180::specs::Family::small_sigma0))]
pub fn small_sigma0<W: Word<B>, const B: usize>(x: W) -> W
    ensures { W.number result ≡ «small_sigma0» W.family (W.number x) }
{
    rotations_shift(x, W::small_sigma0_amounts())
}

#[tactic(auto, unfolding(fips180::specs::Family::small_sigma1))]
pub fn small_sigma1<W: Word<B>, const B: usize>(x: W) -> W
    ensures { W.number result ≡ «small_sigma1» W.family (W.number x) }
{
    rotations_shift(x, W::small_sigma1_amounts())
}

// Ch, with one operation fewer than the standard's (x & y) ^ (!x & z).
pub fn choose<W: Word<B>, const B: usize>(x: W, y: W, z: W) -> W
    ensures { W.number result ≡ ch (word_bits W.family) (W.number x) (W.number y) (W.number z) }
{
    z.xor(x.and(y.xor(z)))
}

// Maj: its x ^ y is the next round's y ^ z, and so is formed once.
pub fn majority<W: Word<B>, const B: usize>(x: W, y: W, z: W) -> W
    ensures { W.number result ≡ maj (W.number x) (W.number y) (W.number z) }
{
    y.xor(x.xor(y).and(y.xor(z)))
}
