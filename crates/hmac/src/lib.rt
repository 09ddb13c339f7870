// HMAC-SHA-256 (FIPS 198-1) of a text under a key. What is worked out on the way, the padded key among it, stays in values of the functions here and goes
// into no lent buffer.
#![tactic(auto)]

ghost use Rattle.std.specs.Prelude.{◌≡◌, replicate};
ghost use Rattle.refusal.specs.Steps.{reply, reply_of};
ghost use Rattle.fips180.specs.Sha256.{sha256};
ghost use Rattle.sha256.specs.Sha256.{sha256_number};
ghost use Rattle.hmac.specs.Hmac.{K₀, ◌⊕◌};
ghost use Rattle.hmac.specs.HmacSha256.{hmac_reply};

use refusal::Refusal;
use sha256::{TOO_LONG, sha256, sha256_after_block};

const INNER_PAD: u8 = 0x36;

const OUTER_PAD: u8 = 0x5c;

// K0: a key longer than a block is hashed; zeros fill the block.
#[tactic(auto, using(crate::proofs::Parts::key_hashed, crate::proofs::Parts::key_alone), unfolding(sha256::specs::Sha256::sha256_number))]
fn key_block(key: &[u8]) -> Result<[u8; 64], Refusal>
    ensures { reply_of result ≡ reply (sha256_number key.now) (K₀ 64 sha256 key.now) }
{
    let mut block = [0u8; 64];
    if key.len() > 64 {
        octets::replace(&mut block, &sha256(key)?);
    } else {
        octets::replace(&mut block, key);
    }
    Ok(block)
}

// A block with each byte changed by the pad.
fn padded_with(mut block: [u8; 64], pad: u8) -> [u8; 64]
    ensures { result ≡ block ⊕ replicate 64 pad }
{
    for byte in &mut block {
        *byte ^= pad;
    }
    block
}

// Refuses a key that SHA-256 has no digest of, and a text that it has none of behind a block.
#[tactic(auto, using(crate::proofs::Answers::mac_made), unfolding(sha256::specs::Sha256::sha256_number, crate::specs::HmacSha256::hmac_number, fips180::specs::Family::block_bytes, fips180::specs::Sha256::family32))]
pub fn hmac_sha256(key: &[u8], text: &[u8]) -> Result<[u8; 32], Refusal>
    ensures { reply_of result ≡ hmac_reply key.now text.now }
{
    // Before the key is hashed, however long that is.
    if text.len() >= TOO_LONG - 64 {
        return Err(Refusal::BadLength);
    }
    let block = key_block(key)?;
    let inner = sha256_after_block(padded_with(block, INNER_PAD), text)?;
    sha256_after_block(padded_with(block, OUTER_PAD), &inner)
}
