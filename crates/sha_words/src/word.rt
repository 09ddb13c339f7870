// What a family of hashes gives: its word, with the operations of FIPS 180-4, 3.2, and its amounts and constants. How many bytes a word has is a parameter,
// and stands beside the word's type in every signature: an array's length can't be a trait's constant.
ghost use Rattle.std.specs.Prelude.{◌≡◌, ◌<◌, ◌^◌, ◌%◌, ◌*◌, ℕ, [], ◌∷◌, map};
ghost use Rattle.std.specs.Mem.{type_size};
ghost use Rattle.std.specs.Int.Bits.{bit_and, bit_xor};
ghost use Rattle.fips180.specs.Words.{shr, rotr};
ghost use Rattle.fips180.specs.Family.{Family, word_bits, length_bytes};
ghost use Rattle.fips180.specs.Padding.{big_endian, from_big};
ghost use Rattle.fips180.specs.Hash.{plus, word_bytes_of};
ghost use Rattle.sha_words.specs.Words.{amounts_of, Grow, GrowShift, Sizes};

pub trait Word<const BYTES: usize>: Copy + Default + 'static {
    ghost family: { Family };

    // A word as a number. A law is asked of any number, and so an impl takes the number modulo 2 to the word's bits.
    ghost number: { Self → ℕ };

    fn add(self, other: Self) -> Self
        ensures { number result ≡ plus family (number self) (number other) };

    fn xor(self, other: Self) -> Self
        ensures { number result ≡ bit_xor (number self) (number other) };

    fn and(self, other: Self) -> Self
        ensures { number result ≡ bit_and (number self) (number other) };

    fn shift_right(self, n: u32) -> Self
        ensures { n < word_bits family → number result ≡ shr n (number self) };

    // By shifts, as this project makes every rotation of its hashes.
    fn rotate_right(self, n: u32) -> Self
        ensures { 0 < n → n < word_bits family → number result ≡ rotr (word_bits family) n (number self) };

    fn from_be_bytes(bytes: &[u8; BYTES]) -> Self
        ensures { number result ≡ from_big 0 bytes.now };

    fn to_be_bytes(self) -> [u8; BYTES]
        ensures { result ≡ big_endian BYTES (number self) };

    // A length of n bytes, in bits, as two words.
    fn length_words(n: usize) -> (Self, Self)
        ensures { word_bytes_of family 2 (number result.0 ∷ number result.1 ∷ []) ≡ big_endian (length_bytes family) (8 * n) };

    fn big_sigma0_amounts() -> [u32; 3]
        ensures same { amounts_of result ≡ family.Σ₀ }
        ensures grow { Grow (word_bits family) (amounts_of result) };

    fn big_sigma1_amounts() -> [u32; 3]
        ensures same { amounts_of result ≡ family.Σ₁ }
        ensures grow { Grow (word_bits family) (amounts_of result) };

    fn small_sigma0_amounts() -> [u32; 3]
        ensures same { amounts_of result ≡ family.σ₀ }
        ensures grow { GrowShift (word_bits family) (amounts_of result) };

    fn small_sigma1_amounts() -> [u32; 3]
        ensures same { amounts_of result ≡ family.σ₁ }
        ensures grow { GrowShift (word_bits family) (amounts_of result) };

    // The constants of the rounds.
    fn constants() -> &'static [Self]
        ensures { map number result.now ≡ family.constants };

    ghost sizes: { Sizes BYTES family };

    ghost below: { (x : Self) → number x < 2 ^ word_bits family };

    // Sixteen words have room in memory.
    ghost small: { type_size Self.row < 2 ^ 58 };
}
