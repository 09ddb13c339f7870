// A request on one slot with its two buffers and the response. Buffers, state and body are judged by then.
#![tactic(auto)]

ghost use Rattle.std.specs.Prelude.{◌≡◌};
ghost use Rattle.requests.specs.Requests.{valid_byte, id_reply, served, served_step, performed};

use command_bodies::Request;
use manifest_slot::{Active, Slot};
use message_header::OPENING;
use octets::LittleEndian;
use refusal::Refusal;

// What Get PCD Id answers with, for which every response buffer has room.
pub const REPLY_LEN: usize = 10;

// What a request leaves: the next slot, and how many bytes of response were written.
#[derive(Clone, Copy, Debug, PartialEq, Eq, Hash)]
pub struct Performed {
    pub slot: Slot,
    pub written: usize,
}

fn valid_byte(active: Active) -> u8
    ensures { result ≡ valid_byte active }
{
    u8::from(active.length != 0)
}

fn id_reply(byte: u8, active: Active) -> [u8; REPLY_LEN]
    ensures { result ≡ id_reply byte active }
{
    let valid = valid_byte(active);
    let id: [u8; 4] = active.id.0.bytes();
    [
        OPENING[0], OPENING[1], OPENING[2], 0, byte, valid, id[0], id[1], id[2], id[3],
    ]
}

// Get PCD Id answers with the active manifest's version id; the others do what the slot call does, and write no response. The three buffers are no struct:
// a clause names what is left behind an argument that is a reference, and behind a struct's fields only by their places.
#[tactic(auto, using(octets::proofs::Buffers::pasted_none), unfolding(crate::specs::Requests::request_step))]
pub fn perform(
    slot: Slot,
    signature_good: bool,
    byte: u8,
    request: Request,
    body: &[u8],
    pending: &mut [u8],
    active: &mut [u8],
    response: &mut [u8],
) -> Result<Performed, Refusal>
    ensures { performed result slot pending.new active.new response.new
        ≡ served_step signature_good byte body.now request (served slot pending.old active.old response.old 0) }
{
    let (slot, written) = match request {
        Request::GetId => {
            octets::put(response, 0, &id_reply(byte, slot.active));
            (slot, REPLY_LEN)
        }
        Request::Prepare(total) => (slot.prepare_lent(total)?, 0),
        Request::Update => (slot.update_lent(body, pending)?, 0),
        Request::Activate => (slot.activate_lent(signature_good, pending, active)?, 0),
    };
    Ok(Performed { slot, written })
}
