//! What all threads share beside the device.
use crate::drawn::Drawn;
use std::alloc::{AllocError, Global};
use std::sync::Mutex;
use std::sync::atomic::{AtomicBool, AtomicU64};

/// What all threads share beside the device.
#[derive(Drop)]
pub(crate) struct Common {
    /// What was drawn from the device. Who draws a reply has this lock until the reply is where its host
    /// looks: so replies with the same tag stay in their order.
    pub drawn: Mutex<Drawn>,
    /// Set at the end: each thread ends then.
    pub stop: AtomicBool,
    /// How many writes are done, well or not.
    pub done: AtomicU64,
}

impl Common {
    pub fn new(alloc: Global) -> Result<Common, AllocError> {
        Ok(Common {
            drawn: Mutex::new(Drawn::new(alloc)?),
            stop: AtomicBool::new(false),
            done: AtomicU64::new(0),
        })
    }
}
