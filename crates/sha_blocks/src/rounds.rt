// FIPS 180-4, 6.2.2 and 6.4.2, step 3: the rounds, in groups of sixteen.
ghost use Rattle.std.specs.Prelude.{◌≡◌, ◌<◌, ◌≤◌, ◌+◌, ◌*◌, ◌%◌, length, get_or, set, take, drop, map};
ghost use Rattle.fips180.specs.Padding.{word_at, words_of};
ghost use Rattle.fips180.specs.Hash.{«round»};
ghost use Rattle.fips180.specs.Groups.{queue_word, advanced, rounds_from};

use crate::schedule;
use sha_words::{Word, big_sigma0, big_sigma1, choose, majority};

// The constants of the sixteen rounds from round t on, where they are: of an array of them the compiler would make copies.
fn constants_from<W: Word<B>, const B: usize>(t: usize) -> &'static [W]
    requires { t + 16 ≤ W.family.rounds }
    ensures long { length result.now ≡ 16 }
    ensures values { map W.number result.now ≡ take 16 (drop t W.family.constants) }
{
    &W::constants()[t..t + 16]
}

// One round.
fn round<W: Word<B>, const B: usize>(s: [W; 8], k: W, w: W) -> [W; 8]
    ensures { map W.number result ≡ «round» W.family (W.number k) (W.number w) (map W.number s) }
{
    let [a, b, c, d, e, f, g, h] = s;
    let t1 = h.add(big_sigma1(e)).add(choose(e, f, g)).add(k).add(w);
    let t2 = big_sigma0(a).add(majority(a, b, c));
    [t1.add(t2), a, b, c, d.add(t1), e, f, g]
}

// The round with constant i and word i.
fn round_with<W: Word<B>, const B: usize>(s: [W; 8], k: &[W], w: &[W; 16], i: usize) -> [W; 8]
    requires { (i < 16) × (length k.now ≡ 16) }
    ensures { map W.number result ≡ «round» W.family (get_or (map W.number k.now) i 0) (get_or (map W.number w.now) i 0) (map W.number s) }
{
    round(s, k[i], w[i])
}

// The same, with word i of the block b in place i. It says the block's length again, so that the proof of the next round finds it near.
fn first_round<W: Word<B>, const B: usize>(
    s: [W; 8],
    k: &[W],
    b: &[u8],
    w: &mut [W; 16],
    i: usize,
) -> [W; 8]
    requires { (i < 16) × (length k.now ≡ 16) × (length b.now ≡ 16 * B) }
    ensures block { length b.now ≡ 16 * B }
    ensures queue { map W.number w.new ≡ set (map W.number w.old) i (word_at W.family b.now i) }
    ensures state { map W.number result ≡ «round» W.family (get_or (map W.number k.now) i 0) (get_or (map W.number w.new) i 0) (map W.number s) }
{
    schedule::load_word(w, b, i);
    round_with(s, k, w, i)
}

// The same, with the word that takes the place of word i.
fn next_round<W: Word<B>, const B: usize>(s: [W; 8], k: &[W], w: &mut [W; 16], i: usize) -> [W; 8]
    requires { (i < 16) × (length k.now ≡ 16) }
    ensures queue { map W.number w.new ≡ set (map W.number w.old) i (queue_word W.family i (map W.number w.old)) }
    ensures state { map W.number result ≡ «round» W.family (get_or (map W.number k.now) i 0) (get_or (map W.number w.new) i 0) (map W.number s) }
{
    schedule::replace_word(w, i);
    round_with(s, k, w, i)
}

// The first sixteen rounds, over the words of the block b. Straight-line, so that indices are constants and the working variables stay in registers; each word
// is made just before its round, so that the two run side by side.
pub(crate) fn first_sixteen_rounds<W: Word<B>, const B: usize>(
    s: [W; 8],
    b: &[u8],
    w: &mut [W; 16],
) -> [W; 8]
    requires { length b.now ≡ 16 * B }
    ensures queue { map W.number w.new ≡ words_of W.family 16 b.now }
    ensures state { map W.number result ≡ rounds_from W.family 0 (map W.number w.new) (map W.number s) 16 }
{
    let k = constants_from(0);
    let s1 = first_round(s, k, b, w, 0);
    let s2 = first_round(s1, k, b, w, 1);
    let s3 = first_round(s2, k, b, w, 2);
    let s4 = first_round(s3, k, b, w, 3);
    let s5 = first_round(s4, k, b, w, 4);
    let s6 = first_round(s5, k, b, w, 5);
    let s7 = first_round(s6, k, b, w, 6);
    let s8 = first_round(s7, k, b, w, 7);
    let s9 = first_round(s8, k, b, w, 8);
    let s10 = first_round(s9, k, b, w, 9);
    let s11 = first_round(s10, k, b, w, 10);
    let s12 = first_round(s11, k, b, w, 11);
    let s13 = first_round(s12, k, b, w, 12);
    let s14 = first_round(s13, k, b, w, 13);
    let s15 = first_round(s14, k, b, w, 14);
    first_round(s15, k, b, w, 15)
}

// Sixteen rounds from round t on, over the next sixteen words, in the same way.
pub(crate) fn next_sixteen_rounds<W: Word<B>, const B: usize>(
    s: [W; 8],
    t: usize,
    w: &mut [W; 16],
) -> [W; 8]
    requires { t + 16 ≤ W.family.rounds }
    ensures queue { map W.number w.new ≡ advanced W.family 16 (map W.number w.old) }
    ensures state { map W.number result ≡ rounds_from W.family t (map W.number w.new) (map W.number s) 16 }
{
    let k = constants_from(t);
    let s1 = next_round(s, k, w, 0);
    let s2 = next_round(s1, k, w, 1);
    let s3 = next_round(s2, k, w, 2);
    let s4 = next_round(s3, k, w, 3);
    let s5 = next_round(s4, k, w, 4);
    let s6 = next_round(s5, k, w, 5);
    let s7 = next_round(s6, k, w, 6);
    let s8 = next_round(s7, k, w, 7);
    let s9 = next_round(s8, k, w, 8);
    let s10 = next_round(s9, k, w, 9);
    let s11 = next_round(s10, k, w, 10);
    let s12 = next_round(s11, k, w, 11);
    let s13 = next_round(s12, k, w, 12);
    let s14 = next_round(s13, k, w, 13);
    let s15 = next_round(s14, k, w, 14);
    next_round(s15, k, w, 15)
}
