//! Hashes of several messages at a time, and of one whose blocks are taken in four at a time, against
//! expected digests and against the kit's SHA-256.
#![tactic(auto)]

#[cfg(test)]
mod cases;
#[cfg(test)]
mod one_message;
#[cfg(test)]
mod side_by_side;
