// What binds a card to its chassis: the pairing key, and the certificate slots of a challenge response.
ghost use Rattle.std.specs.Prelude.{◌≡◌};
ghost use Rattle.refusal.specs.Steps.{outcome};
ghost use Rattle.pairing.specs.Pairing.{pairing_step};
ghost use Rattle.cerberus.specs.Calls.{chains_told};

use certificate_slots::SlotMask;
use pairing::pairing_key;
use refusal::number_of;

const NO_CHAIN: u8 = 255;

#[unsafe(no_mangle)]
pub extern "C" fn cerberus_pairing_key(session_key: &[u8], key: &mut [u8]) -> u8
    ensures { outcome result key.new ≡ pairing_step session_key.now key.old }
{
    number_of(&pairing_key(session_key, key))
}

#[unsafe(no_mangle)]
pub extern "C" fn cerberus_certificate_slots(mask: u8, count: &mut u8, lowest: &mut u8) -> u8
    ensures { outcome result (count.new, lowest.new) ≡ chains_told mask }
{
    let slots = SlotMask(mask);
    *count = slots.chain_count();
    *lowest = match slots.lowest() {
        Some(slot) => slot.0,
        None => NO_CHAIN,
    };
    0
}
