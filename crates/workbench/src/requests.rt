//! Requests to the replay protected memory block, one at a time.
use crate::Workbench;
use row_messages::frames::{
    FrameBytes, answer_command, frames_command, frames_good, frames_in, frames_out, frames_ready,
};

impl Workbench {
    /// A request of these frames, up to its data: whether the device takes it.
    pub fn begins_request(&mut self, tag: u8, frames: &[FrameBytes]) -> bool {
        let count = frames.len();
        self.send(&frames_command(tag, count)).is_ok()
            && self.hears(&frames_ready(tag, count))
            && self.send(frames_out(tag, frames).as_slice()).is_ok()
    }

    /// A request of these frames: whether it is answered GOOD after as much work of the four dies as it needs.
    pub fn requests(&mut self, tag: u8, frames: &[FrameBytes]) -> bool {
        self.begins_request(tag, frames)
            && self.hear_after_work(0)
            && self.reply.as_slice() == frames_good(tag).as_slice()
    }

    /// The response that waits is fetched: whether it is these frames.
    pub fn fetches(&mut self, tag: u8, frames: &[FrameBytes]) -> bool {
        self.send(&answer_command(tag, frames.len())).is_ok()
            && self.hears(frames_in(tag, frames).as_slice())
            && self.hears(&frames_good(tag))
    }
}
