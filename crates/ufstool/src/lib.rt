//! Tells in words what a script of `ufsim` and its output say, and writes the lines of a script.
#![tactic(auto)]

mod cause;
mod commands;
mod digits;
mod fields;
mod first_lines;
mod frame_lines;
mod frames;
mod host;
mod host_cdbs;
mod images;
mod laws;
mod lines;
mod luns;
mod malformed;
mod messages;
mod names;
mod operations;
mod outputs;
mod parts;
mod queries;
mod query_names;
mod query_words;
mod requests;
mod rpmb;
mod script;
mod tasks;
mod telling;
mod unmap;

pub use digits::spelled;
pub use frame_lines::explain_frames;
pub use host::{HostMessage, LineFault, LinkReset, host_line, message_of, write_host_line};
pub use host_cdbs::HostCdb;
pub use images::explain_image;
pub use laws::{a_list_is_read_again, a_list_is_refused_for_a_field};
pub use queries::{FlagCall, HostQuery, Named, query_message};
pub use query_names::{
    ATTRIBUTE_NAMES, DESCRIPTOR_NAMES, FLAG_NAMES, attribute_idn, descriptor_idn, flag_idn,
};
pub use rpmb::{RpmbRequest, write_rpmb_lines};
pub use tasks::TaskCall;
pub use telling::explain;
pub use unmap::{HostUnmap, write_unmap_lines};
