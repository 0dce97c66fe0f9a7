//! The device: messages of a host in, replies and jobs for the dies out. `World` is a device with its
//! dies, and `run` plays a list of events on one.
#![tactic(auto)]

mod area;
mod attentions;
mod checks;
mod commands;
mod device;
mod groups;
mod leftovers;
mod link_events;
mod management;
mod plans;
mod queries;
mod replies;
mod requests;
mod responses;
mod targets;
mod unmap;
mod world;

pub use device::Device;
pub use world::{World, run};
