// Stored answers as a stream of whole numbers: reading them, the lists among them, whether a call gave what they say, and what is printed of that.
// Every function takes any stream: a number past its end is 0, so that a malformed one shows as a difference.
#![tactic(auto)]

pub mod comparison;
pub mod kinds;
pub mod lists;
pub mod numbers;
pub mod report;
pub mod text;

pub use comparison::{Cases, CasesAt, Comparison};
pub use kinds::Kind;
pub use lists::Stored;
pub use numbers::Numbers;
pub use report::{Total, report_case, report_total};
pub use text::{Loaded, TEXT, read, read_to_vec};
