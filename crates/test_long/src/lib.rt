//! Rows of many writes, over dies of 4,096 pages, and stops at each job of a long script: too long
//! to be tried without LLVM. Short ones like them stand in `test_device` and `test_scripts`. A test
//! hands the device that it is done with to `drop`, as those do.
#![tactic(auto)]

#[cfg(test)]
mod areas;
#[cfg(test)]
mod checked_script;
#[cfg(test)]
mod collections;
#[cfg(test)]
mod commands;
#[cfg(test)]
mod failures;
#[cfg(test)]
mod held;
#[cfg(test)]
mod kept;
#[cfg(test)]
mod long_groups;
#[cfg(test)]
mod player;
#[cfg(test)]
mod read_beside;
#[cfg(test)]
mod rows;
#[cfg(test)]
mod script;
#[cfg(test)]
mod stops;
