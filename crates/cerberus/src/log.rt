// The measurement log: its state is bytes behind a pointer.
ghost use Rattle.std.specs.Prelude.{◌≡◌};
ghost use Rattle.refusal.specs.Refusals.{number_of};
ghost use Rattle.refusal.specs.Steps.{outcome, decided};
ghost use Rattle.attestation_log.specs.Calls.{reset_step, record_step, register_step, read_out_step, read_out_verdict_step, check_step, replay_step};
ghost use Rattle.c_encoding.specs.Logs.{log_bytes, log_of, c_log, log_step, bytes_read, length_read};

use crate::told::keep;
use attestation_log::{Answer, Log, Pmr};
use c_encoding::log_states::{LOG_LEN, bytes_of, log_of};
use refusal::number_of;

// Keeps the next state of an accepted record, and answers the call's number.
#[tactic(auto, using(crate::proofs::Kept::told_kept))]
fn store(answer: Answer, log: &mut [u8; LOG_LEN]) -> u8
    ensures { outcome result log.new ≡ decided (number_of answer.verdict) log.old (log_bytes answer.log) }
{
    keep(answer.verdict.and(Ok(bytes_of(answer.log))), log)
}

#[unsafe(no_mangle)]
pub extern "C" fn cerberus_log_reset(log: &mut [u8; LOG_LEN], buffer: &mut [u8]) -> u8
    ensures { outcome result (c_log log.new buffer.new) ≡ log_step reset_step (c_log log.old buffer.old) }
{
    keep(Log::reset(buffer).map(bytes_of), log)
}

#[unsafe(no_mangle)]
pub extern "C" fn cerberus_log_record(
    log: &mut [u8; LOG_LEN],
    pmr: u8,
    event_type: u32,
    digest: &[u8; 32],
    buffer: &mut [u8],
) -> u8
    ensures { outcome result (c_log log.new buffer.new)
        ≡ log_step (record_step (record { pmr = pmr; event_type = event_type; digest = digest.now })) (c_log log.old buffer.old) }
{
    let answer = log_of(log).record(Pmr(pmr), event_type, *digest, buffer);
    store(answer, log)
}

#[unsafe(no_mangle)]
pub extern "C" fn cerberus_log_register(
    log: &[u8; LOG_LEN],
    pmr: u8,
    buffer: &[u8],
    value: &mut [u8; 32],
) -> u8
    ensures { outcome result value.new ≡ bytes_read (register_step pmr) (c_log log.now buffer.now) value.old }
{
    keep(log_of(log).register(Pmr(pmr), buffer), value)
}

// The length is worked out from the count: asking read_out too would check the log twice.
#[unsafe(no_mangle)]
pub extern "C" fn cerberus_log_read_out(
    log: &[u8; LOG_LEN],
    buffer: &[u8],
    text_len: &mut usize,
) -> u8
    ensures { outcome result text_len.new ≡ length_read read_out_step (c_log log.now buffer.now) text_len.old }
{
    let state = log_of(log);
    match state.read_out_verdict(buffer) {
        Ok(()) => {
            *text_len = Log::ENTRY_LEN * state.count;
            0
        }
        Err(why) => why.number(),
    }
}

#[unsafe(no_mangle)]
pub extern "C" fn cerberus_log_read_out_verdict(log: &[u8; LOG_LEN], buffer: &[u8]) -> u8
    ensures { result ≡ (read_out_verdict_step (log_of log.now) buffer.now).number }
{
    number_of(&log_of(log).read_out_verdict(buffer))
}

#[unsafe(no_mangle)]
pub extern "C" fn cerberus_log_check(log: &[u8; LOG_LEN], buffer: &[u8]) -> u8
    ensures { result ≡ (check_step (log_of log.now) buffer.now).number }
{
    number_of(&log_of(log).check(buffer))
}

#[unsafe(no_mangle)]
pub extern "C" fn cerberus_log_replay(log: &mut [u8; LOG_LEN], text: &[u8], buffer: &mut [u8]) -> u8
    ensures { outcome result (c_log log.new buffer.new) ≡ log_step (replay_step text.now) (c_log log.old buffer.old) }
{
    keep(Log::replay(text, buffer).map(bytes_of), log)
}
