// What each refusal means.
ghost use Rattle.std.specs.Prelude.{◌≡◌};
ghost use Rattle.refusal.specs.Steps.{outcome};
ghost use Rattle.cerberus.specs.Calls.{meaning_step};

use refusal::Refusal;

#[tactic(auto, unfolding(crate::specs::Calls::meaning_step, crate::specs::Calls::meaning_number))]
#[unsafe(no_mangle)]
pub extern "C" fn cerberus_meaning(number: u8, text: &mut [u8], meaning_len: &mut usize) -> u8
    ensures { outcome result (text.new, meaning_len.new) ≡ meaning_step number text.old meaning_len.old }
{
    if text.len() < Refusal::LONGEST_MEANING {
        return Refusal::WrongBuffer.number();
    }
    match Refusal::try_from(number) {
        Ok(why) => {
            let meaning = why.meaning();
            octets::put(text, 0, meaning.as_bytes());
            *meaning_len = meaning.len();
            0
        }
        Err(_) => Refusal::OutOfRange.number(),
    }
}
