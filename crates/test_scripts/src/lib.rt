//! The worked rows and wrong input, as scripts. Expected bytes come from the device's formats and from the
//! standards, never from its own output.
#![tactic(auto)]

#[cfg(test)]
mod bad_input;
#[cfg(test)]
mod checks;
#[cfg(test)]
mod commands;
#[cfg(test)]
mod frames;
#[cfg(test)]
mod gap;
#[cfg(test)]
mod groups;
#[cfg(test)]
mod image_checks;
#[cfg(test)]
mod image_faults;
#[cfg(test)]
mod images;
#[cfg(test)]
mod locked_reads;
#[cfg(test)]
mod locks;
#[cfg(test)]
mod long_commands;
#[cfg(test)]
mod managed_tasks;
#[cfg(test)]
mod messages;
#[cfg(test)]
mod query_rows;
#[cfg(test)]
mod regions;
#[cfg(test)]
mod rpmb_commands;
#[cfg(test)]
mod rpmb_refusals;
#[cfg(test)]
mod rpmb_write_stopped;
#[cfg(test)]
mod scripts;
#[cfg(test)]
mod short_writes;
#[cfg(test)]
mod steps;
#[cfg(test)]
mod stops;
#[cfg(test)]
mod unit_rows;
#[cfg(test)]
mod unmap_lists;
#[cfg(test)]
mod unmapped;
#[cfg(test)]
mod verifies;
#[cfg(test)]
mod worked_rows;
