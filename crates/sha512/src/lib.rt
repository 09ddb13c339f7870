// SHA-384 and SHA-512 (FIPS 180-4) of a slice of bytes. None is refused: FIPS 180-4 defines both for messages below 2^125 bytes.
#![tactic(auto)]

mod initial_hash_value;

ghost use Rattle.std.specs.Prelude.{◌≡◌};
ghost use Rattle.fips180.specs.Sha512.{«sha384», «sha512»};

use sha_message::digest;

// The first 48 bytes of the hash value.
pub fn sha384(message: &[u8]) -> [u8; 48]
    ensures { result ≡ «sha384» message.now }
{
    digest(initial_hash_value::SHA384, message.len(), message)
}

// All 64.
pub fn sha512(message: &[u8]) -> [u8; 64]
    ensures { result ≡ «sha512» message.now }
{
    digest(initial_hash_value::SHA512, message.len(), message)
}
