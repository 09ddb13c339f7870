// Hashes, and HMAC-SHA-256.
ghost use Rattle.std.specs.Prelude.{◌≡◌};
ghost use Rattle.refusal.specs.Steps.{outcome, decided};
ghost use Rattle.fips180.specs.Sha256.{«sha256»};
ghost use Rattle.fips180.specs.Sha512.{«sha384», «sha512»};
ghost use Rattle.sha256.specs.Sha256.{sha256_number};
ghost use Rattle.hmac.specs.HmacSha256.{hmac_number, «hmac_sha256»};

use crate::told::keep;
use hmac::hmac_sha256;
use sha256::sha256;
use sha512::{sha384, sha512};

#[unsafe(no_mangle)]
pub extern "C" fn cerberus_sha256(message: &[u8], digest: &mut [u8; 32]) -> u8
    ensures { outcome result digest.new ≡ decided (sha256_number message.now) digest.old («sha256» message.now) }
{
    keep(sha256(message), digest)
}

// The next two differ in the hash alone, which C names by the call.
#[unsafe(no_mangle)]
pub extern "C" fn cerberus_sha384(message: &[u8], digest: &mut [u8; 48]) -> u8
    ensures { outcome result digest.new ≡ outcome 0 («sha384» message.now) }
{
    *digest = sha384(message);
    0
}

#[unsafe(no_mangle)]
pub extern "C" fn cerberus_sha512(message: &[u8], digest: &mut [u8; 64]) -> u8
    ensures { outcome result digest.new ≡ outcome 0 («sha512» message.now) }
{
    *digest = sha512(message);
    0
}

#[unsafe(no_mangle)]
pub extern "C" fn cerberus_hmac_sha256(key: &[u8], text: &[u8], mac: &mut [u8; 32]) -> u8
    ensures { outcome result mac.new ≡ decided (hmac_number key.now text.now) mac.old («hmac_sha256» key.now text.now) }
{
    keep(hmac_sha256(key, text), mac)
}
