// Hashes by a manifest's hash type.
ghost use Rattle.std.specs.Prelude.{◌≡◌};
ghost use Rattle.refusal.specs.Steps.{outcome};
ghost use Rattle.hash.specs.Calls.{hash_step, hash_matches};
ghost use Rattle.laws.specs.Tests.{bit_of};

use hash::{hash_into, hash_matches};
use refusal::number_of;

#[unsafe(no_mangle)]
pub extern "C" fn cerberus_hash(hash_type: u8, message: &[u8], hash: &mut [u8]) -> u8
    ensures { outcome result hash.new ≡ hash_step hash_type message.now hash.old }
{
    number_of(&hash_into(hash_type, message, hash))
}

#[unsafe(no_mangle)]
pub extern "C" fn cerberus_hash_matches(
    hash_type: u8,
    message: &[u8],
    hash: &[u8],
    matches: &mut u8,
) -> u8
    ensures { outcome result matches.new ≡ outcome 0 (bit_of (hash_matches hash_type message.now hash.now)) }
{
    *matches = u8::from(hash_matches(hash_type, message, hash));
    0
}
