//! What `ufstool` says of the dies that `ufsim` saved. Expected lines are counted by hand, from the
//! rules of docs/FORMATS.md, never taken from its own output.
#![tactic(auto)]

#[cfg(test)]
mod images;
