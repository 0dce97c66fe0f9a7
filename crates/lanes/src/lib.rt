//! The device among threads: its core lies in one slot of a table, and each caller has a seat
//! there, which knows a beginning of the one legal list of steps.
#![tactic(auto)]

mod calls;
mod deal;
mod facts;
mod keeper;
mod lane;
mod laws;
mod meeting;
mod opening;
mod patience;
mod place;
mod port;
mod serving;
mod shared;
mod tried;
mod view;
mod waiting;
mod went;

pub use keeper::Keeper;
pub use lane::Lane;
pub use laws::{
    a_device_over_new_dies_may_be_shared, a_job_that_is_done_may_be_left,
    a_stop_among_threads_leaves_a_prefix, legal_steps_are_a_life,
    no_reply_of_an_aborted_task_is_handed_out, what_was_seen_keeps_the_promise,
};
pub use meeting::meet;
pub use opening::open_parallel;
pub use patience::Patience;
pub use port::Port;
pub use shared::{Refused, Shared};
pub use tried::Tried;
