// The public calls for C, as include/cerberus.h declares them: plain numbers and byte slices, states as integers or bytes behind pointers, the number as the
// result. Each takes its arguments apart and makes the one call that it stands for.
#![tactic(auto)]

pub mod binding;
pub mod comparisons;
pub mod digests;
pub mod flash_regions;
pub mod hashes;
pub mod images;
pub mod log;
pub mod messages;
pub mod refusals;
pub mod roots;
pub mod slots;
mod told;
