//! Reads and writes UPIUs, the messages between a host and a device (JESD220, 10.5 to 10.7). Each
//! message has one spelling.
#![tactic(auto)]

mod checks;
mod fields;
mod headers;
mod host_messages;
mod laws;
mod reading;
mod rejects;
mod replies;
mod writing;

pub use checks::HEADER;
pub use host_messages::{Command, DataOut, has_event_code, read_command, read_data_out};
pub use laws::{one_spelling, worked_faults, worked_messages, worked_rejects};
pub use reading::{read, read_host};
pub use rejects::reject_upiu;
pub use replies::{Response, write_data_in, write_ready_to_transfer, write_response};
pub use writing::write;
