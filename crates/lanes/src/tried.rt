//! What a single attempt gives.

/// The answer, or nothing if another caller had the core.
#[derive(Drop)]
pub enum Tried<T> {
    Busy,
    Did(T),
}
