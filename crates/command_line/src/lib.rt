//! The words of the program `ufsim`.
#![tactic(auto)]

mod asked;
mod words;

pub use asked::{Call, CallFault};
pub use words::call;
