// The bodies of the commands, by 000's tables.
#![tactic(auto)]

ghost use Rattle.std.specs.Prelude.{◌≡◌};
ghost use Rattle.refusal.specs.Refusals.{number_of};
ghost use Rattle.refusal.specs.Steps.{reply_of};
ghost use Rattle.command_bodies.specs.Bodies.{identifier_number, exact_number, some_number, request_of};

use message_header::Command;
use refusal::Refusal;

// What a body asks for.
#[derive(Clone, Copy, Debug, PartialEq, Eq, Hash)]
pub enum Request {
    GetId,
    Prepare(u64),
    Update,
    Activate,
}

// An identifier that may be left out: only the version id is offered.
fn identifier_verdict(body: &[u8]) -> Result<(), Refusal>
    ensures { number_of result ≡ identifier_number body.now }
{
    match body {
        [] | [0] => Ok(()),
        [1] => Err(Refusal::NotOffered),
        [_] => Err(Refusal::OutOfRange),
        _ => Err(Refusal::BadLength),
    }
}

fn exact_verdict(n: usize, body: &[u8]) -> Result<(), Refusal>
    ensures { number_of result ≡ exact_number n body.now }
{
    if body.len() != n {
        return Err(Refusal::BadLength);
    }
    Ok(())
}

fn some_verdict(body: &[u8]) -> Result<(), Refusal>
    ensures { number_of result ≡ some_number body.now }
{
    if body.is_empty() {
        return Err(Refusal::BadLength);
    }
    Ok(())
}

// What the body of a command asks for, or its refusal.
#[tactic(auto, unfolding(crate::specs::Bodies::request_of))]
pub fn request_of(command: Command, body: &[u8]) -> Result<Request, Refusal>
    ensures { reply_of result ≡ request_of command body.now }
{
    match command {
        Command::GetPcdId => {
            identifier_verdict(body)?;
            Ok(Request::GetId)
        }
        Command::PreparePcd => {
            exact_verdict(4, body)?;
            let total: u32 = octets::number_at(body, 0);
            Ok(Request::Prepare(total as u64))
        }
        Command::UpdatePcd => {
            some_verdict(body)?;
            Ok(Request::Update)
        }
        Command::ActivatePcd => {
            exact_verdict(0, body)?;
            Ok(Request::Activate)
        }
    }
}
