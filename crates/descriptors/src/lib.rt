//! What a QUERY REQUEST is answered: the response code by a table, and what is told of the
//! descriptors, attributes and flags that `ufs_spec::PARAMETERS` has (JESD220, 10.7.8, 10.7.9, 14).
#![tactic(auto)]

mod answers;
mod codes;
mod descriptors;
mod laws;
mod queries;
mod responses;
mod table;

pub use answers::{QueryAnswer, Setting, Told, answer};
pub use codes::{STANDARD_READ, STANDARD_WRITE};
pub use descriptors::{
    Descriptor, configuration_descriptor, descriptor_told, device_descriptor, geometry_descriptor,
    power_descriptor, rpmb_descriptor, string_descriptor, unit_descriptor,
};
pub use laws::{
    answers_decide_the_state, profile_1_reads_the_geometry, profile_1_tells_more_of_the_device,
    worked_geometry,
};
pub use queries::{QueryRequest, QuerySettings};
pub use responses::ResponseCode;
