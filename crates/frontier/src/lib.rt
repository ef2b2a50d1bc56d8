// A pass of cleaning by a frontier, on the planes of the work area: which regions are judged, and what becomes large.
#![tactic(auto)]

pub mod growing;
pub mod judging;
mod regions;
