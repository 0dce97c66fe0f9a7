//! The replay protected memory block of a region, and of all regions: what a request does, what
//! answers it, and the registers in which answers wait (JESD220, 12.4). The areas themselves lie on
//! the dies.
#![tactic(auto)]

mod machine;
mod machines;
mod macs;
mod outcomes;
mod regions;
mod requests;
mod responses;

pub use machine::Rpmb;
pub use machines::Machines;
pub use outcomes::{Accepted, Failure, Outcome, Refusal};
pub use regions::RegionState;
pub use requests::{
    AreaBlocks, Request, all_data, asked_area, asked_by, data_of, request_of, whole_frames,
};
