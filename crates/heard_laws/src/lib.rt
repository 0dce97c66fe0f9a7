//! The laws of what a host reads off its messages and the replies: it agrees with the specification machine. The
//! functions do nothing: their contracts are the laws.
#![tactic(auto)]

mod headline;
mod hearing;

pub use headline::the_promise_is_read_off_the_bytes;
pub use hearing::{a_message_alone_accepts, each_life_is_heard, what_is_heard_is_accepted};
