//! Tests of the device behind a handle: what C programs call, but for the crossing.
//! Expected bytes come from docs/FORMATS.md and from the standards, never from the device's own output.
#![tactic(auto)]

#[cfg(test)]
mod closed;
#[cfg(test)]
mod fails;
#[cfg(test)]
mod images;
#[cfg(test)]
mod messages;
#[cfg(test)]
mod own_dies;
#[cfg(test)]
mod rows;
#[cfg(test)]
mod stops;
