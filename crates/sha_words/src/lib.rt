// The words of SHA-256 and of SHA-384 and SHA-512, and the functions on them (FIPS 180-4, 3.2, 4.1 and 4.2). What the two families differ in stands in the
// impls of `Word`, one written out for each word, as the gate takes none that a macro of ours writes; all else is over any word.
#![tactic(auto)]

mod functions;
mod word;
mod word32;
mod word64;

pub use functions::{big_sigma0, big_sigma1, choose, majority, small_sigma0, small_sigma1};
pub use word::Word;
