//! What readers keep: the pages and slots that each open READ, and each request for data, keeps from
//! being erased or given up, and which of them are still to be read.
#![tactic(auto)]

mod counts;
mod pin;
mod pins;
mod row;
mod rows;
mod walks;

pub use counts::{pin_block, unpin_block};
pub use pin::{Pin, looks_on};
pub use pins::{MOST_PINS, Pins};
