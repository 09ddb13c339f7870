// FIPS 180-4, 3.2, 4.1.2 and 4.2.2: the words of 32 bits.
ghost use Rattle.std.specs.Prelude.{◌%◌, ◌^◌};
ghost use Rattle.std.proofs.Common.{rules};
ghost use Rattle.fips180.specs.Sha256.{family32};
ghost use Rattle.sha_words.specs.Families.{sizes32, below32};

use crate::word::Word;

const CONSTANTS: [u32; 64] = [
    0x428a2f98, 0x71374491, 0xb5c0fbcf, 0xe9b5dba5, 0x3956c25b, 0x59f111f1, 0x923f82a4, 0xab1c5ed5,
    0xd807aa98, 0x12835b01, 0x243185be, 0x550c7dc3, 0x72be5d74, 0x80deb1fe, 0x9bdc06a7, 0xc19bf174,
    0xe49b69c1, 0xefbe4786, 0x0fc19dc6, 0x240ca1cc, 0x2de92c6f, 0x4a7484aa, 0x5cb0a9dc, 0x76f988da,
    0x983e5152, 0xa831c66d, 0xb00327c8, 0xbf597fc7, 0xc6e00bf3, 0xd5a79147, 0x06ca6351, 0x14292967,
    0x27b70a85, 0x2e1b2138, 0x4d2c6dfc, 0x53380d13, 0x650a7354, 0x766a0abb, 0x81c2c92e, 0x92722c85,
    0xa2bfe8a1, 0xa81a664b, 0xc24b8b70, 0xc76c51a3, 0xd192e819, 0xd6990624, 0xf40e3585, 0x106aa070,
    0x19a4c116, 0x1e376c08, 0x2748774c, 0x34b0bcb5, 0x391c0cb3, 0x4ed8aa4a, 0x5b9cca4f, 0x682e6ff3,
    0x748f82ee, 0x78a5636f, 0x84c87814, 0x8cc70208, 0x90befffa, 0xa4506ceb, 0xbef9a3f7, 0xc67178f2,
];

#[tactic(auto, using(crate::proofs::Integers::integers), unfolding(fips180::specs::Sha256::family32, fips180::specs::Family::word_bits))]
impl Word<4> for u32 {
    ghost family = { family32 };

    ghost number = { λ x. x % 2 ^ 32 };

    #[tactic(auto, unfolding(fips180::specs::Sha256::family32, fips180::specs::Hash::plus, fips180::specs::Family::word_bits, fips180::specs::Words::add))]
    fn add(self, other: u32) -> u32 {
        self.wrapping_add(other)
    }

    fn xor(self, other: u32) -> u32 {
        self ^ other
    }

    fn and(self, other: u32) -> u32 {
        self & other
    }

    fn shift_right(self, n: u32) -> u32 {
        self >> (n % 32)
    }

    fn rotate_right(self, n: u32) -> u32 {
        (self >> (n % 32)) | (self << ((32 - n % 32) % 32))
    }

    fn from_be_bytes(bytes: &[u8; 4]) -> u32 {
        u32::from_be_bytes(*bytes)
    }

    fn to_be_bytes(self) -> [u8; 4] {
        u32::to_be_bytes(self)
    }

    fn length_words(n: usize) -> (u32, u32) {
        let high = ((n >> 29) % 0x1_0000_0000) as u32;
        let low = (n % 0x2000_0000 * 8) as u32;
        (high, low)
    }

    fn big_sigma0_amounts() -> [u32; 3] {
        [2, 13, 22]
    }

    fn big_sigma1_amounts() -> [u32; 3] {
        [6, 11, 25]
    }

    fn small_sigma0_amounts() -> [u32; 3] {
        [7, 18, 3]
    }

    fn small_sigma1_amounts() -> [u32; 3] {
        [17, 19, 10]
    }

    fn constants() -> &'static [u32] {
        &CONSTANTS
    }

    ghost sizes = { sizes32 };

    ghost below = { below32 };

    ghost small = { Prim.search rules };
}
