// The four PCD commands over a manifest slot.
#![tactic(auto)]

ghost use Rattle.std.specs.Prelude.{◌≡◌};
ghost use Rattle.refusal.specs.Refusals.{number_of};
ghost use Rattle.requests.specs.Requests.{served, performed};
ghost use Rattle.commands.specs.Commands.{ready_number, command_step, answered};

use command_bodies::request_of;
use manifest_slot::Slot;
use message_header::{HEADER_LEN, command_of};
use refusal::Refusal;
use requests::{Performed, REPLY_LEN, perform};

// A command's verdict, with how many bytes of response it wrote, and the next slot: the one handed in where the command refuses. A struct, as
// document 01 has it of the slot's calls.
#[derive(Clone, Copy, Debug, PartialEq, Eq, Hash)]
pub struct Answer {
    pub verdict: Result<usize, Refusal>,
    pub slot: Slot,
}

// What every command asks of its buffers and of the slot.
#[tactic(auto, unfolding(crate::specs::Commands::ready_number, manifest_slot::specs::Calls::lent_number))]
fn ready_verdict(slot: Slot, pending: &[u8], active: &[u8], response: &[u8]) -> Result<(), Refusal>
    ensures { number_of result ≡ ready_number (served slot pending.now active.now response.now 0) }
{
    if response.len() < REPLY_LEN {
        return Err(Refusal::WrongBuffer);
    }
    slot.lent_verdict(pending, active)
}

// Buffers and state, then the header, then the body, then the request.
#[tactic(auto, unfolding(crate::specs::Commands::command_step))]
fn carry_out(
    slot: Slot,
    signature_good: bool,
    message: &[u8],
    pending: &mut [u8],
    active: &mut [u8],
    response: &mut [u8],
) -> Result<Performed, Refusal>
    ensures { performed result slot pending.new active.new response.new
        ≡ command_step signature_good message.now (served slot pending.old active.old response.old 0) }
{
    ready_verdict(slot, pending, active, response)?;
    let named = command_of(message)?;
    let body = octets::behind(message, HEADER_LEN);
    let request = request_of(named, body)?;
    let byte = octets::byte_at(message, 4);
    perform(
        slot,
        signature_good,
        byte,
        request,
        body,
        pending,
        active,
        response,
    )
}

// Carries out the command of a message. Whether a signature is good is judged elsewhere, and only Activate PCD asks. A refusal changes nothing.
pub fn command(
    slot: Slot,
    signature_good: bool,
    message: &[u8],
    pending: &mut [u8],
    active: &mut [u8],
    response: &mut [u8],
) -> Answer
    ensures { answered result pending.new active.new response.new
        ≡ command_step signature_good message.now (served slot pending.old active.old response.old 0) }
{
    match carry_out(slot, signature_good, message, pending, active, response) {
        Ok(done) => Answer {
            verdict: Ok(done.written),
            slot: done.slot,
        },
        Err(why) => Answer {
            verdict: Err(why),
            slot,
        },
    }
}
