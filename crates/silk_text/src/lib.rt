// Reading the text of the program `silk`.
#![tactic(auto)]

pub mod sheet;
