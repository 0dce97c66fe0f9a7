//! A device as a C program holds it: behind a handle, with its dies in memory, or with dies of the
//! program's own. `libufs` exports what is here.
#![tactic(auto)]

mod bare;
mod buffer;
mod calls;
mod fault;
mod handle;
mod held;
mod laws;
mod left;
mod loose;
mod plain;
mod plain_calls;

pub use bare::Bare;
pub use buffer::put_front;
pub use fault::{
    Fault, answer_number, copy_text, ended_number, flag_number, heard_number, open_number,
    reply_number, saved_number, stop_number,
};
pub use handle::Handle;
pub use held::{Held, new_dies};
pub use laws::{
    a_torn_page_fails_its_check, calls_keep_the_promise, calls_over_own_dies_keep_the_promise,
    each_call_is_an_event, rounds_are_counted,
};
pub use left::Left;
pub use plain::{PlainConfig, PlainJob, PlainUnit, config_of, lefts_of, outcome_of};
