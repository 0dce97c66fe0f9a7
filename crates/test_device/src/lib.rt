//! The device and its world at work where scripts do not lead: failed jobs, bad blocks, worlds that end,
//! dies as stops leave them, and openings by several threads.
//! Expected bytes come from the device's formats and from the standards, never from its own output.
//!
//! A device has many parts, and a function that lets one go is proved for each of them. So a test hands the device
//! that it is done with to `drop`, which is proved once.
#![tactic(auto)]

#[cfg(test)]
mod answers;
#[cfg(test)]
mod collections;
#[cfg(test)]
mod dies;
#[cfg(test)]
mod erases;
#[cfg(test)]
mod failures;
#[cfg(test)]
mod freed_blocks;
#[cfg(test)]
mod hostile_frames;
#[cfg(test)]
mod hostile_messages;
#[cfg(test)]
mod leftovers;
#[cfg(test)]
mod locks;
#[cfg(test)]
mod mendings;
#[cfg(test)]
mod openings;
#[cfg(test)]
mod players;
#[cfg(test)]
mod regions;
#[cfg(test)]
mod rpmb_counter_end;
#[cfg(test)]
mod spares;
#[cfg(test)]
mod worlds;
