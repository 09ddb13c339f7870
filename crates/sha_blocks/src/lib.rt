// The hash value over whole blocks (FIPS 180-4, 6.2.2 and 6.4.2), for the words of either family.
#![tactic(auto)]

mod block;
mod rounds;
mod schedule;

ghost use Rattle.std.specs.Prelude.{◌≡◌, ◌*◌, ◌/◌, length, map};
ghost use Rattle.fips180.specs.Hash.{hash_value};

use sha_words::Word;

// The hash value s brought forward by the whole blocks of m, read where they are; bytes past the last whole block are left out.
pub fn whole_blocks<W: Word<B>, const B: usize>(s: &mut [W; 8], m: &[u8])
    ensures { map W.number s.new ≡ hash_value W.family (map W.number s.old) m.now (length m.now / (16 * B)) }
{
    for b in m.chunks_exact(16 * B) {
        block::update(s, b);
    }
}
