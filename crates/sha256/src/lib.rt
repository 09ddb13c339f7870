// SHA-256 (FIPS 180-4) of a slice of bytes.
#![tactic(auto)]

mod initial_hash_value;

ghost use Rattle.std.specs.Prelude.{◌≡◌, ◌++◌};
ghost use Rattle.refusal.specs.Steps.{reply_of};
ghost use Rattle.sha256.specs.Sha256.{sha256_reply};

use refusal::Refusal;
use sha_blocks::whole_blocks;
use sha_message::digest;

// From this length on a message has no digest: its length in bits has no place in the padding.
pub const TOO_LONG: usize = 0x2000_0000_0000_0000;

// Refuses a message of 2^61 bytes or more.
#[tactic(auto, using(crate::proofs::Laws::reply_refused))]
pub fn sha256(message: &[u8]) -> Result<[u8; 32], Refusal>
    ensures { reply_of result ≡ sha256_reply message.now }
{
    if message.len() >= TOO_LONG {
        return Err(Refusal::BadLength);
    }
    Ok(digest(initial_hash_value::SHA256, message.len(), message))
}

// The digest of a block followed by a message, which need not lie together.
pub fn sha256_after_block(block: [u8; 64], message: &[u8]) -> Result<[u8; 32], Refusal>
    ensures { reply_of result ≡ sha256_reply (block ++ message.now) }
{
    if message.len() >= TOO_LONG - 64 {
        return Err(Refusal::BadLength);
    }
    let mut h = initial_hash_value::SHA256;
    whole_blocks(&mut h, &block);
    Ok(digest(h, 64 + message.len(), message))
}
