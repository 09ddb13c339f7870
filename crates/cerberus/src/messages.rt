// Cerberus messages.
ghost use Rattle.std.specs.Prelude.{◌≡◌, eqb};
ghost use Rattle.refusal.specs.Steps.{outcome};
ghost use Rattle.message_header.specs.Header.{command_of};
ghost use Rattle.commands.specs.Commands.{command_step};
ghost use Rattle.c_encoding.specs.Slots.{c_slot};
ghost use Rattle.c_encoding.specs.Messages.{c_served, served_step};

use c_encoding::flags::yes;
use c_encoding::slot_numbers::{numbers_of, slot_of};
use commands::command;
use message_header::command_of;
use refusal::number_of;

#[unsafe(no_mangle)]
pub extern "C" fn cerberus_header(message: &[u8]) -> u8
    ensures { result ≡ (command_of message.now).number }
{
    number_of(&command_of(message))
}

#[unsafe(no_mangle)]
pub extern "C" fn cerberus_command(
    slot: &mut [u64; 6],
    signature_good: u8,
    message: &[u8],
    pending: &mut [u8],
    active: &mut [u8],
    response: &mut [u8],
    written: &mut usize,
) -> u8
    ensures { outcome result (c_served (c_slot slot.new pending.new active.new) response.new written.new)
        ≡ served_step (command_step (eqb signature_good 1) message.now) (c_served (c_slot slot.old pending.old active.old) response.old written.old) }
{
    let good = yes(signature_good);
    let answer = command(slot_of(slot), good, message, pending, active, response);
    match answer.verdict {
        Ok(count) => {
            *slot = numbers_of(answer.slot);
            *written = count;
            0
        }
        Err(why) => why.number(),
    }
}
