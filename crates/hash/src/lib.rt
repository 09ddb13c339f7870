// Hashes by a manifest's hash type: 0 is SHA-256, 1 SHA-384, 2 SHA-512.
#![tactic(auto)]

ghost use Rattle.std.specs.Prelude.{◌≡◌, ◌≤◌};
ghost use Rattle.refusal.specs.Refusals.{number_of};
ghost use Rattle.refusal.specs.Steps.{outcome, reply_by};
ghost use Rattle.hash.specs.Types.{type_number, type_reply, hash_length};
ghost use Rattle.hash.specs.Calls.{hash_step, hash_matches};

use refusal::Refusal;
use sha256::sha256;
use sha512::{sha384, sha512};

#[derive(Clone, Copy, Debug, PartialEq, Eq, Hash)]
pub enum HashType {
    Sha256,
    Sha384,
    Sha512,
}

impl HashType {
    // The longest hash has so many bytes.
    pub const LONGEST: usize = 64;

    pub fn number(self) -> u8
        ensures { result ≡ type_number self }
    {
        match self {
            HashType::Sha256 => 0,
            HashType::Sha384 => 1,
            HashType::Sha512 => 2,
        }
    }

    // How many bytes a hash of this type has.
    pub fn len(self) -> usize
        ensures { result ≡ hash_length (type_number self) }
    {
        match self {
            HashType::Sha256 => 32,
            HashType::Sha384 => 48,
            HashType::Sha512 => 64,
        }
    }
}

impl TryFrom<u8> for HashType {
    type Error = Refusal;

    ghost try_from_gives = { λ number answer. reply_by type_number answer ≡ type_reply number };

    fn try_from(number: u8) -> Result<HashType, Refusal> {
        match number {
            0 => Ok(HashType::Sha256),
            1 => Ok(HashType::Sha384),
            2 => Ok(HashType::Sha512),
            _ => Err(Refusal::MalformedElement),
        }
    }
}

// How many bytes a hash of this type has; 0 for a type that isn't defined. A hash's type is a number here and in the readers above: any may be handed in, and
// the call refuses it in its own order.
pub fn hash_length(hash_type: u8) -> usize
    ensures length { result ≡ hash_length hash_type }
    ensures bound { result ≤ 64 }
{
    HashType::try_from(hash_type).map_or(0, HashType::len)
}

// The hash of this type of the message fills `hash`.
#[tactic(auto, unfolding(crate::specs::Calls::hash_step, crate::specs::Calls::hash_number, crate::specs::Types::hash_of, sha256::specs::Sha256::sha256_number))]
pub fn hash_into(hash_type: u8, message: &[u8], hash: &mut [u8]) -> Result<(), Refusal>
    ensures { outcome (number_of result) hash.new ≡ hash_step hash_type message.now hash.old }
{
    let kind = HashType::try_from(hash_type)?;
    if hash.len() != kind.len() {
        return Err(Refusal::WrongBuffer);
    }
    match kind {
        HashType::Sha256 => octets::put(hash, 0, &sha256(message)?),
        HashType::Sha384 => octets::put(hash, 0, &sha384(message)),
        HashType::Sha512 => octets::put(hash, 0, &sha512(message)),
    }
    Ok(())
}

// Whether the message has this hash. It is compared to its end, so that the time doesn't tell where it differs.
#[tactic(auto, using(crate::proofs::Types::length_bound), unfolding(crate::specs::Calls::hash_step, crate::specs::Calls::hash_number, crate::specs::Calls::hash_matches))]
pub fn hash_matches(hash_type: u8, message: &[u8], hash: &[u8]) -> bool
    ensures { result ≡ hash_matches hash_type message.now hash.now }
{
    // Of the longest hash's size: memory is fixed here.
    let mut made = [0u8; HashType::LONGEST];
    let Some(made) = made.get_mut(..hash.len()) else {
        return false;
    };
    hash_into(hash_type, message, made).is_ok() && octets::same(made, hash)
}
