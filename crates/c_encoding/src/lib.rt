// How states, arguments and answers stand in C: a slot as integers, the state of a log and a comparison of logs as bytes, a role and yes or no as a byte
// (include/cerberus.h).
#![tactic(auto)]

pub mod comparison_bytes;
pub mod flags;
pub mod log_states;
pub mod roles;
pub mod slot_numbers;
