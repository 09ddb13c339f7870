// Flash regions of a manifest: a region, alone, in a run or as an R/W region of a PFM. How one region and how a run of them are judged is known here, by
// `Region::unsound` and `Region::any_unsound`, and nowhere else.
#![tactic(auto)]

pub mod region;
pub mod rw_region;
