//! Hosts, a keeper and a thread for each die at work on one device at the same time: each host writes
//! blocks of its own and reads each of them back. Now and then it aborts a task.
#![tactic(auto)]

mod aborted;
mod aborts;
mod contents;
mod crew;
mod drawn;
mod fault;
mod host;
mod line;
mod messages;
mod opened;
mod replies;
mod run;
mod shared;

pub use fault::StressFault;
pub use run::stress_text;
