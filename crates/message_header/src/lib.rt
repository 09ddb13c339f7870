// The Cerberus message header (document 000, "Attestation Protocol Format"): whether a message is ours, and the command that it names.
#![tactic(auto)]

mod flags;

ghost use Rattle.std.specs.Prelude.{◌≡◌};
ghost use Rattle.refusal.specs.Steps.{reply_of};
ghost use Rattle.message_header.specs.Header.{lookup, offered, foreign, unoffered_kind, command_of};

use flags::{CRYPT, REQUEST_TYPE, is_set, reserved_set};
use refusal::Refusal;

// The commands of document 000's table that are offered.
#[derive(Clone, Copy, Debug, PartialEq, Eq, Hash)]
pub enum Command {
    GetPcdId,
    PreparePcd,
    UpdatePcd,
    ActivatePcd,
}

// What every message begins with: the message type with the integrity check flag clear, and the vendor.
pub const OPENING: [u8; 3] = *b"\x7e\x14\x14";

pub const HEADER_LEN: usize = 5;

// By document 000's command table.
impl TryFrom<u8> for Command {
    type Error = Refusal;

    ghost try_from_gives = { λ byte answer. reply_of answer ≡ lookup offered byte };

    fn try_from(byte: u8) -> Result<Command, Refusal> {
        match byte {
            0x62 => Ok(Command::GetPcdId),
            0x63 => Ok(Command::PreparePcd),
            0x64 => Ok(Command::UpdatePcd),
            0x65 => Ok(Command::ActivatePcd),
            _ => Err(Refusal::NotOffered),
        }
    }
}

#[tactic(auto, unfolding(crate::specs::Header::foreign))]
fn foreign(message: &[u8]) -> bool
    ensures { result ≡ foreign message.now }
{
    message.len() < HEADER_LEN || !message.starts_with(&OPENING) || reserved_set(message[3])
}

#[tactic(auto, unfolding(crate::specs::Header::unoffered_kind))]
fn unoffered_kind(message: &[u8]) -> bool
    ensures { result ≡ unoffered_kind message.now }
{
    let flags = octets::byte_at(message, 3);
    is_set(flags, REQUEST_TYPE) || is_set(flags, CRYPT)
}

// The command of a message, by its header alone.
#[tactic(auto, unfolding(crate::specs::Header::command_of))]
pub fn command_of(message: &[u8]) -> Result<Command, Refusal>
    ensures { reply_of result ≡ command_of message.now }
{
    if foreign(message) {
        return Err(Refusal::ForeignHeader);
    }
    if unoffered_kind(message) {
        return Err(Refusal::NotOffered);
    }
    Command::try_from(octets::byte_at(message, 4))
}
