//! Journals compared with what a device holds after them: those of writes, of requests to the RPMB,
//! of settings and of UNMAP. Each says which prefixes of its commands a stop may leave.
#![tactic(auto)]

#[cfg(test)]
mod journals;
#[cfg(test)]
mod rpmb_journals;
#[cfg(test)]
mod setting_journals;
#[cfg(test)]
mod unmap_journals;
