//! A device among threads: hosts, lanes and a keeper, step by step and in threads of their own.
//! Expected bytes come from the standards, never from the device's own output.
//!
//! A test hands the crew that it is done with to `drop`: the proof that each part of it may be let go is made once then.
#![tactic(auto)]

#[cfg(test)]
mod example;
#[cfg(test)]
mod flags;
#[cfg(test)]
mod gate_die;
#[cfg(test)]
mod hosts;
#[cfg(test)]
mod scans_beside;
#[cfg(test)]
mod sharing;
#[cfg(test)]
mod steps;
#[cfg(test)]
mod threads;
