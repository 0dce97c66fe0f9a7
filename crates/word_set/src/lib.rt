//! Sets of numbers in words of 64, in which the first number that is in, at or above one, is found
//! by words: of the numbers below a size, and of the places of a queue, whose first place leaves.
#![tactic(auto)]

mod bits;
mod queue;
mod words;

pub use queue::QueueSet;
pub use words::WordSet;
