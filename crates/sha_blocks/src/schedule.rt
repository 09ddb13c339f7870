// FIPS 180-4, 6.2.2 and 6.4.2, step 1: the message schedule, as a circular queue of sixteen words.
ghost use Rattle.std.specs.Prelude.{◌≡◌, ◌<◌, ◌*◌, length, set, map};
ghost use Rattle.fips180.specs.Padding.{word_at};
ghost use Rattle.fips180.specs.Groups.{queue_word};

use sha_words::{Word, small_sigma0, small_sigma1};

// Word j of a block.
fn word<W: Word<B>, const B: usize>(b: &[u8], j: usize) -> W
    requires { (j < 16) × (length b.now ≡ 16 * B) }
    ensures { W.number result ≡ word_at W.family b.now j }
{
    let at = j * B;
    let bytes = <&[u8; B]>::try_from(&b[at..at + B]).unwrap();
    W::from_be_bytes(bytes)
}

// Word i of the block b takes place i of the queue.
#[tactic(auto, using(sha_words::proofs::Numbers::stored))]
pub(crate) fn load_word<W: Word<B>, const B: usize>(w: &mut [W; 16], b: &[u8], i: usize)
    requires { (i < 16) × (length b.now ≡ 16 * B) }
    ensures { map W.number w.new ≡ set (map W.number w.old) i (word_at W.family b.now i) }
{
    w[i] = word(b, i);
}

// The word that takes the place of word i.
fn next_word<W: Word<B>, const B: usize>(w: &[W; 16], i: usize) -> W
    requires { i < 16 }
    ensures { W.number result ≡ queue_word W.family i (map W.number w.now) }
{
    let w2 = w[(i + 14) % 16];
    let w7 = w[(i + 9) % 16];
    let w15 = w[(i + 1) % 16];
    small_sigma1(w2).add(w7).add(small_sigma0(w15)).add(w[i])
}

// Word i gives way to the word sixteen places on.
#[tactic(auto, using(sha_words::proofs::Numbers::stored))]
pub(crate) fn replace_word<W: Word<B>, const B: usize>(w: &mut [W; 16], i: usize)
    requires { i < 16 }
    ensures { map W.number w.new ≡ set (map W.number w.old) i (queue_word W.family i (map W.number w.old)) }
{
    w[i] = next_word(w, i);
}
