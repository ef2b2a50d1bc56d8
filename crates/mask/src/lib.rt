// Masks: bytes of which a nonzero one is set, h rows of w, row after row.
#![tactic(auto)]

mod dilation;
mod label;

pub use dilation::{binary_dilation8, is_set};
pub use label::label4;
