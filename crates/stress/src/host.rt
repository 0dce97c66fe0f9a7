//! A host: it writes blocks of its own, and reads each of them back. Now and then it aborts a task.
use crate::aborted::{Aborted, aborted_beside};
use crate::drawn::Drawn;
use crate::messages::{
    abort, abort_tag, aborted, asked, bring, good, is_ready, read_one, shown, write_one,
};
use crate::replies::{code_of, tag_of};
use crate::shared::Common;
use lanes::{Patience, Port, Tried};
use nand_model::MemDie;
use std::alloc::{AllocError, Global};
use std::mem;
use std::sync::atomic::Ordering;
use std::sync::{Arc, Wait};
use std::time::Clock;
use ufs_spec::Upiu;
use ufs_spec::codes::DATA_IN;

/// A host with its port, what it sends next, what it has to hear then, and what it heard last.
#[derive(Drop)]
pub(crate) struct Host {
    port: Port<MemDie>,
    number: u8,
    common: Arc<Common, Global>,
    message: Upiu,
    expected: Upiu,
    heard: Upiu,
    /// Whether its task was aborted that had its tag last.
    is_aborted: bool,
}

/// One look for a reply with this tag: first among those that others put by, then at the port. True if
/// it is in `heard`; a reply with another tag is put by, and one of an aborted task is counted.
fn draw(
    port: &mut Port<MemDie>,
    tag: u8,
    drawn: &mut Drawn,
    heard: &mut Upiu,
) -> Result<bool, AllocError> {
    if let Some(reply) = drawn.replies.take(tag) {
        *heard = reply;
        return Ok(true);
    }
    match port.try_reply(heard) {
        Tried::Did(true) => {}
        _ => return Ok(false),
    }
    if drawn.aborts.is_late(tag_of(heard.as_slice())) {
        return Ok(false);
    }
    if tag_of(heard.as_slice()) == tag {
        return Ok(true);
    }
    drawn.replies.put(mem::replace(heard, Upiu::new()))?;
    Ok(false)
}

impl Host {
    /// The host with this number, at this port.
    pub fn new(port: Port<MemDie>, number: u8, common: Arc<Common, Global>) -> Host {
        Host {
            port,
            number,
            common,
            message: Upiu::new(),
            expected: Upiu::new(),
            heard: Upiu::new(),
            is_aborted: false,
        }
    }

    /// Waits until the unit is ready, and does all writes: how many of them were bad. After the end was
    /// called each write that is left is bad.
    pub fn run<R: Wait + Clock>(&mut self, rt: &R) -> Result<u64, AllocError> {
        self.wait_until_ready(rt)?;
        let mut bad = 0u64;
        for write in 0..=u8::MAX {
            if !self.write_and_read(rt, write, aborted_beside(write))? {
                bad = bad.saturating_add(1);
            }
            self.common.done.fetch_add(1, Ordering::SeqCst);
        }
        Ok(bad)
    }

    /// Asks until the unit is ready: over new dies the device first writes a page of its own.
    fn wait_until_ready<R: Wait + Clock>(&mut self, rt: &R) -> Result<(), AllocError> {
        is_ready(self.number, &mut self.message);
        good(self.number, &mut self.expected);
        let mut patience = Patience::new();
        for _ in rt.forever() {
            let is_good = self.send(rt) && self.hear(rt, self.number)?;
            if is_good || self.common.stop.load(Ordering::SeqCst) {
                return Ok(());
            }
            patience.did_nothing(rt);
        }
        unreachable!()
    }

    /// Whether a block was written and read back as it should, and what was aborted beside this was
    /// answered so.
    fn write_and_read<R: Wait + Clock>(
        &mut self,
        rt: &R,
        write: u8,
        aborted: Aborted,
    ) -> Result<bool, AllocError> {
        Ok(
            self.abort_write(rt, write, aborted)?
                && self.write(rt, write)?
                && self.abort_read(rt, write, aborted)?
                && self.read(rt, write)?,
        )
    }

    /// Begins the WRITE with another block and aborts it, where this is to be: whether all went well.
    fn abort_write<R: Wait + Clock>(
        &mut self,
        rt: &R,
        write: u8,
        aborted: Aborted,
    ) -> Result<bool, AllocError> {
        match aborted {
            Aborted::WriteAtOnce => Ok(self.begin_write(rt, write) && self.abort(rt)?),
            Aborted::WriteBehindData => Ok(
                self.begin_write(rt, write) && self.bring(rt, u8::MAX - write)? && self.abort(rt)?,
            ),
            _ => Ok(true),
        }
    }

    /// Begins the READ and aborts it, where this is to be: whether all went well.
    fn abort_read<R: Wait + Clock>(
        &mut self,
        rt: &R,
        write: u8,
        aborted: Aborted,
    ) -> Result<bool, AllocError> {
        match aborted {
            Aborted::ReadAtOnce => Ok(self.begin_read(rt, write) && self.abort(rt)?),
            Aborted::ReadBehindData => Ok(
                self.begin_read(rt, write) && self.is_shown(rt, write)? && self.abort(rt)?,
            ),
            _ => Ok(true),
        }
    }

    /// Whether a block was written.
    fn write<R: Wait + Clock>(&mut self, rt: &R, write: u8) -> Result<bool, AllocError> {
        if !self.begin_write(rt, write) || !self.bring(rt, write)? {
            return Ok(false);
        }
        good(self.number, &mut self.expected);
        self.hear(rt, self.number)
    }

    /// Whether the block is read as it was written.
    fn read<R: Wait + Clock>(&mut self, rt: &R, write: u8) -> Result<bool, AllocError> {
        if !self.begin_read(rt, write) {
            return Ok(false);
        }
        let is_shown = self.is_shown(rt, write)?;
        // A RESPONSE that comes at once has ended the task.
        if code_of(self.heard.as_slice()) != DATA_IN {
            return Ok(false);
        }
        good(self.number, &mut self.expected);
        let is_good = self.hear(rt, self.number)?;
        Ok(is_shown && is_good)
    }

    /// Sends the WRITE: whether the device takes it.
    fn begin_write<R: Wait + Clock>(&mut self, rt: &R, write: u8) -> bool {
        write_one(self.number, write, &mut self.message);
        self.begin(rt)
    }

    /// Sends the block with this content once the device asks for it: whether it asks, and takes the
    /// block.
    fn bring<R: Wait + Clock>(&mut self, rt: &R, content: u8) -> Result<bool, AllocError> {
        asked(self.number, &mut self.expected);
        if !self.hear(rt, self.number)? {
            return Ok(false);
        }
        bring(self.number, content, &mut self.message);
        Ok(self.send(rt))
    }

    /// Sends the READ: whether the device takes it.
    fn begin_read<R: Wait + Clock>(&mut self, rt: &R, write: u8) -> bool {
        read_one(self.number, write, &mut self.message);
        self.begin(rt)
    }

    /// Whether the block comes as it was written.
    fn is_shown<R: Wait + Clock>(&mut self, rt: &R, write: u8) -> Result<bool, AllocError> {
        shown(self.number, write, &mut self.expected);
        self.hear(rt, self.number)
    }

    /// Aborts the task: whether the device answers that this is done.
    fn abort<R: Wait + Clock>(&mut self, rt: &R) -> Result<bool, AllocError> {
        abort(self.number, &mut self.message);
        aborted(self.number, &mut self.expected);
        Ok(self.end(rt) && self.hear(rt, abort_tag(self.number))?)
    }

    /// Sends the request to abort with the lock of what is drawn: so a reply of the task was drawn
    /// before, and is dropped, or comes after it, and is late.
    fn end<R: Wait + Clock>(&mut self, rt: &R) -> bool {
        let mut drawn = self.common.drawn.lock(rt);
        let answer = self
            .port
            .send(rt, self.message.as_slice(), &self.common.stop);
        let is_taken = matches!(answer, Some(Ok(())));
        if is_taken {
            drawn.abort(self.number);
            self.is_aborted = true;
        }
        is_taken
    }

    /// Sends a COMMAND: whether the device takes it. Behind an abort this needs the lock of what is
    /// drawn: so a reply with the tag that is drawn later is one of the new task.
    fn begin<R: Wait + Clock>(&mut self, rt: &R) -> bool {
        if !self.is_aborted {
            return self.send(rt);
        }
        let mut drawn = self.common.drawn.lock(rt);
        let answer = self
            .port
            .send(rt, self.message.as_slice(), &self.common.stop);
        let is_taken = matches!(answer, Some(Ok(())));
        if is_taken {
            drawn.aborts.end(self.number);
            self.is_aborted = false;
        }
        is_taken
    }

    /// Sends the message: whether the device takes it.
    fn send<R: Wait + Clock>(&mut self, rt: &R) -> bool {
        let answer = self
            .port
            .send(rt, self.message.as_slice(), &self.common.stop);
        matches!(answer, Some(Ok(())))
    }

    /// Waits for a reply with this tag: whether it is the expected one. None comes after the end was
    /// called.
    fn hear<R: Wait + Clock>(&mut self, rt: &R, tag: u8) -> Result<bool, AllocError> {
        self.heard.clear();
        let mut patience = Patience::new();
        for _ in rt.forever() {
            if self.common.stop.load(Ordering::SeqCst) {
                return Ok(false);
            }
            if self.look(rt, tag)? {
                return Ok(self.heard.as_slice() == self.expected.as_slice());
            }
            patience.did_nothing(rt);
        }
        unreachable!()
    }

    /// One look for a reply with this tag, with the lock of what is drawn.
    fn look<R: Wait + Clock>(&mut self, rt: &R, tag: u8) -> Result<bool, AllocError> {
        let mut drawn = self.common.drawn.lock(rt);
        draw(&mut self.port, tag, &mut drawn, &mut self.heard)
    }
}
