// Reads and writes on a file or a stream that are whole or have failed. A call that a signal interrupted is made again.
#![tactic(auto)]

ghost use Rattle.std.specs.Prelude.{ℕ, List, ◌≡◌, ◌-◌, ◌≤◌, ◌<◌, length, take, IsOk, IfOk, OnOk, OnErr, IfSome};
ghost use Rattle.std.specs.IoError.{raw_os_error};
ghost use Rattle.std.specs.Io.KnownBytes.{Consumes, IsAtEnd, Appends};
ghost use Rattle.whole_io.specs.Calls.{moved_by};
ghost use Rattle.whole_io.specs.Transfers.{step_after};

use arrayvec::ArrayString;
use std::fmt::Write as _;
use std::io;
use std::io::{ErrorKind, Read, Write};
use std::ops::ControlFlow;

// How often one reading or writing lets a signal interrupt its calls: with a limit it ends whatever the signals do.
pub const INTERRUPTIONS: usize = 65536;

// What one call of read or write did.
#[derive(Clone, Copy)]
pub enum Moved {
    Bytes(usize),
    // The file's end, or a write that took no byte.
    Nothing,
    Interrupted(io::Error),
    Failed(io::Error),
}

// What a call says that was lent room bytes.
#[tactic(auto, unfolding(crate::specs::Calls::moved_by))]
pub fn call_moved(call: io::Result<usize>, room: usize) -> Moved
    ensures { result ≡ moved_by call room }
{
    match call {
        Ok(0) => Moved::Nothing,
        Ok(n) => Moved::Bytes(n.min(room)),
        Err(e) => match e.kind() {
            ErrorKind::Interrupted => Moved::Interrupted(e),
            _ => Moved::Failed(e),
        },
    }
}

// How far a reading or a writing has come.
#[derive(Clone, Copy)]
pub(crate) struct Progress {
    done: usize,
    // How many interruptions are still allowed.
    interruptions: usize,
}

const START: Progress = Progress {
    done: 0,
    interruptions: INTERRUPTIONS,
};

// After a call that was lent all of len bytes but those done: how far the next call finds it, or what the whole reading comes to.
#[tactic(auto, using(crate::proofs::CallLaws::bytes_most), unfolding(crate::specs::Transfers::step_after))]
pub(crate) fn step_after(
    call: io::Result<usize>,
    at: Progress,
    len: usize,
) -> ControlFlow<io::Result<usize>, Progress>
    requires { at.done ≤ len }
    ensures { result ≡ step_after (moved_by call (len - at.done)) at.done at.interruptions }
{
    match call_moved(call, len - at.done) {
        Moved::Bytes(n) => ControlFlow::Continue(Progress {
            done: at.done + n,
            ..at
        }),
        Moved::Nothing => ControlFlow::Break(Ok(at.done)),
        Moved::Interrupted(_) if at.interruptions > 0 => ControlFlow::Continue(Progress {
            interruptions: at.interruptions - 1,
            ..at
        }),
        Moved::Interrupted(e) | Moved::Failed(e) => ControlFlow::Break(Err(e)),
    }
}

// Reads until the buffer is full or the file ends, and answers how many bytes there are. Where a call failed, at whatever place of the file, so has the
// reading; bytes may have come before it.
pub fn read_whole<R: Read>(from: &mut R, buffer: &mut [u8]) -> io::Result<usize>
    ensures count { IfOk result (λ n. n ≤ length buffer.new) }
    ensures length { length buffer.new ≡ length buffer.old }
    ensures bytes { IfOk result (λ n. Consumes (R.remaining from.old) (R.remaining from.new) (take n buffer.new)) }
    ensures end { IfOk result (λ n. n < length buffer.new → IsAtEnd (R.remaining from.new)) }
    ensures nothing { length buffer.old ≡ 0 → IsOk result }
    ensures failed { OnErr result ((n : ℕ) × Consumes (R.remaining from.old) (R.remaining from.new) (take n buffer.new)) }
{
    let len = buffer.len();
    let mut at = START;
    // Only a call tells where the next begins: no iterator gives the turns.
    while at.done < len {
        match step_after(from.read(&mut buffer[at.done..]), at, len) {
            ControlFlow::Continue(next) => at = next,
            ControlFlow::Break(reading) => return reading,
        }
    }
    Ok(at.done)
}

// Writes all of the bytes. Where it fails, some of them may have been written. Where there is nothing to write, nothing fails.
#[tactic(auto, using(crate::proofs::KnownBytes::write_over))]
pub fn write_whole<W: Write>(to: &mut W, bytes: &[u8]) -> io::Result<()>
    ensures nothing { length bytes.now ≡ 0 → IsOk result }
    ensures bytes { OnOk result (Appends (W.contents to.old) (W.contents to.new) bytes.now) }
    ensures failed { OnErr result ((n : ℕ) × Appends (W.contents to.old) (W.contents to.new) (take n bytes.now)) }
{
    let len = bytes.len();
    let mut at = START;
    // As in read_whole. One function for both would be lent a buffer here and bytes there, and have two laws.
    while at.done < len {
        match step_after(to.write(&bytes[at.done..]), at, len) {
            ControlFlow::Continue(next) => at = next,
            // A write that took no byte has failed, and the system gives no reason.
            ControlFlow::Break(Ok(_)) => return Err(io::Error::from_raw_os_error(0)),
            ControlFlow::Break(Err(e)) => return Err(e),
        }
    }
    Ok(())
}

// Linux's errno of a call that a signal interrupted.
const EINTR: i32 = 4;

// Linux's errno where the system says no more than that the call failed.
const EIO: i32 = 5;

// An error as errno has it. That of a reader or a writer of memory may be none that the system numbers.
pub fn errno_of(error: &io::Error) -> i32
    ensures { IfSome (raw_os_error error.now) (λ code. result ≡ code) }
{
    match error.raw_os_error() {
        Some(code) => code,
        None if error.kind() == ErrorKind::Interrupted => EINTR,
        None => EIO,
    }
}

// The longest line of the C library's words for an error, and what std puts behind it.
const TEXT_LEN: usize = 128;

// Writes a line that says what failed, as the caller names it, a colon and errno's meaning. What can't be written is left out, and what stood before stays.
// The name is that of a file as it was given, which may be no UTF-8: so it is bytes, and no text.
pub fn write_failure<W: Write>(to: &mut W, what: &[u8], error: &io::Error)
    ensures { (bytes : List ℕ) × Appends (W.contents to.old) (W.contents to.new) bytes }
{
    let mut text = ArrayString::<TEXT_LEN>::new();
    let _ = write!(text, "{}", io::Error::from_raw_os_error(errno_of(error)));
    for part in [what, b": ", meaning(&text).as_bytes(), b"\n"] {
        let _ = write_whole(to, part);
    }
}

// An error's text without the number that std ends it with.
fn meaning(text: &str) -> &str {
    match text.split_once(" (os error ") {
        Some((words, _)) => words,
        None => text,
    }
}
