// The pairing key of two devices that are bound to each other (document 000, "Secure Device Binding Sequence"; document 02, Item 14), derived from the key
// of their session: NIST SP 800-108 in counter mode, with HMAC-SHA-256, one iteration of which gives all 256 bits.
#![tactic(auto)]

ghost use Rattle.std.specs.Prelude.{◌≡◌, []};
ghost use Rattle.refusal.specs.Refusals.{number_of};
ghost use Rattle.refusal.specs.Steps.{outcome, reply_of};
ghost use Rattle.hmac.specs.HmacSha256.{hmac_reply};
ghost use Rattle.pairing.specs.CounterMode.{input_data};
ghost use Rattle.pairing.specs.Pairing.{label, pairing_step};

use hmac::hmac_sha256;
use refusal::Refusal;

pub const KEY_LEN: usize = 32;

const COUNTER: [u8; 4] = [0, 0, 0, 1];

const LABEL: [u8; 7] = *b"pairing";

// 256 bits.
const LENGTH: [u8; 4] = [0, 0, 1, 0];

// K(1): the MAC of the counter, the label, a zero byte, which is not written since it is there, and the length.
#[tactic(auto, unfolding(crate::specs::Pairing::label, crate::specs::CounterMode::input_data, fips180::specs::Padding::big_endian))]
fn first_iteration(session_key: &[u8]) -> Result<[u8; 32], Refusal>
    ensures { reply_of result ≡ hmac_reply session_key.now (input_data label [] 256 1) }
{
    let mut data = [0u8; 16];
    octets::put(&mut data, 0, &COUNTER);
    octets::put(&mut data, 4, &LABEL);
    octets::put(&mut data, 12, &LENGTH);
    hmac_sha256(session_key, &data)
}

// Puts the pairing key into `out`.
#[tactic(auto, using(crate::proofs::Derivation::buffer_refused, crate::proofs::Derivation::key_decides), unfolding(crate::specs::Pairing::pairing_step))]
pub fn pairing_key(session_key: &[u8], out: &mut [u8]) -> Result<(), Refusal>
    ensures { outcome (number_of result) out.new ≡ pairing_step session_key.now out.old }
{
    if out.len() != KEY_LEN {
        return Err(Refusal::WrongBuffer);
    }
    octets::put(out, 0, &first_iteration(session_key)?);
    Ok(())
}
