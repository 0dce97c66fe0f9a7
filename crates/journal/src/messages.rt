//! The commands that a device accepted in a life, and up to which of them they were acknowledged as durable,
//! as far as the messages of its host and its replies tell.
ghost use Rattle.std.specs.Prelude.{◌≡◌, ◌++◌, ◌∷◌, [], ◌+◌, ◌<◌, ◌≤◌, IfOk, OnOk, length, map, true};
ghost use Rattle.std.specs.Prelude.{slice_index_or, slice_set};
ghost use Rattle.ufs_spec.specs.Commands.{command_of};
ghost use Rattle.journal.specs.Entries.{Accepted, Doubted, Refused, noted_of};
ghost use Rattle.journal.specs.Heard.{accepted_of, answered, asked, awaited_by, begun, block_of, brought, command_in, doubted};
ghost use Rattle.journal.specs.Heard.{gathered, heard, name_in, promised_by, query_answered, ruled, settled};
ghost use Rattle.journal.specs.Heard.{life_begun, received, taken, told, unmapped, with_open, written};
ghost use Rattle.journal.specs.Requests.{accepted_by, state_at};
ghost use Rattle.journal.specs.Unmaps.{zeros_accepted};
ghost use Rattle.rpmb.specs.Requests.{frames_of};

use crate::entries::{Entry, SUCCESS, Setting, settle};
use crate::queries::setting_asked;
use crate::requests::{accepted_by, command_of, raise};
use crate::tasks::{Awaited, OpenTask, TaskName, abort, close};
use crate::unmaps::zeros_asked;
use crate::writes::{OpenWrite, begun_write};
use rpmb::{RegionState, whole_frames};
use scsi_cdb::{brought, row_of, spelled};
use std::alloc::Global;
use std::marker::Model;
use ufs_spec::codes::{
    COMMAND, DATA_OUT, LINK_EVENT, QUERY_REQUEST, QUERY_RESPONSE, RESPONSE, TASK_REQUEST,
};
use ufs_spec::{Block, Cdb, Cmd, NoMemory, Numbers, read_u32};

/// What the host of one life wrote.
#[derive(Drop)]
pub struct Journal {
    /// The numbers of the device.
    numbers: Numbers,
    entries: Vec<Entry>,
    held: usize,
    /// The commands and settings that have no answer yet, no two with one tag.
    tasks: Vec<OpenTask>,
    /// Whether the device is locked, so that it accepts nothing more.
    is_locked: bool,
    /// What the commands made of the key and the counter of each region of the replay protected memory
    /// block.
    regions: [RegionState; 4],
}

impl Model for Journal {
    ghost use Rattle.std.specs.Prelude.{map};
    ghost use Rattle.journal.specs.Entries.{noted_of};
    ghost use Rattle.journal.specs.Heard.{Heard};

    ghost Value = { Heard };

    ghost view = { λ j. record {
      numbers = j.numbers;
      entries = map noted_of j.entries.items;
      held = j.held;
      tasks = j.tasks.items;
      locked = j.is_locked;
      regions = j.regions;
    } };
}

/// How long a message is before its data.
const HEADER: usize = 32;

impl Journal {
    /// A life of a device with these numbers begins, with these keys and counters of the regions of the replay
    /// protected memory block.
    pub fn new(alloc: Global, numbers: &Numbers, regions: [RegionState; 4]) -> Journal
        ensures { result ≡ life_begun numbers.now regions }
    {
        Journal {
            numbers: numbers.copied(),
            entries: Vec::new(alloc),
            held: 0,
            tasks: Vec::new(alloc),
            is_locked: false,
            regions,
        }
    }

    /// What was noted of the commands of the life, in order.
    pub fn entries(&self) -> &[Entry]
        ensures { map noted_of result.now ≡ self.now.entries }
    {
        self.entries.as_slice()
    }

    /// How many of the entries, from the first one on, a stop has to keep: those up to the last that was
    /// acknowledged as durable.
    pub fn held(&self) -> usize
        ensures { result ≡ self.now.held }
    {
        self.held
    }

    /// What all commands made of the key and the counter of a region of the replay protected memory block. A
    /// number that no region has is told as that of a region without blocks.
    pub fn region(&self, number: u8) -> RegionState
        ensures { result ≡ state_at self.now.regions number }
    {
        match self.regions.get(number as usize) {
            Some(region) => *region,
            None => RegionState {
                key: None,
                counter: 0,
                blocks: 0,
            },
        }
    }

    /// The device took a message of the host.
    ///
    /// # Errors
    ///
    /// `NoMemory` where there was none to note it.
    pub fn hear(&mut self, alloc: Global, message: &[u8]) -> Result<(), NoMemory>
        ensures { OnOk result (self.new ≡ heard self.old message.now) }
    {
        if message.len() < HEADER {
            return Ok(());
        }
        match message[0] {
            COMMAND => self.begin(alloc, name_in(message), command_in(message)),
            DATA_OUT => self.receive(alloc, message[3], message),
            TASK_REQUEST => {
                abort(&mut self.tasks, message[5], message[2], message[19]);
                Ok(())
            }
            QUERY_REQUEST => self.ask(name_in(message), setting_asked(message)),
            LINK_EVENT => {
                self.tasks.clear();
                Ok(())
            }
            _ => Ok(()),
        }
    }

    // A command is open from now on. Its tag was free.
    fn begin(&mut self, alloc: Global, name: TaskName, command: Option<Cdb>) -> Result<(), NoMemory>
        ensures { OnOk result (self.new ≡ begun self.old name command) }
    {
        close(&mut self.tasks, name.tag);
        let promised = promised_by(self.entries.len(), command);
        let awaited = awaited_by(alloc, name.lun, command);
        self.open_task(OpenTask {
            name,
            awaited,
            promised,
        })
    }

    // A query of this name asks for this setting, if for one. A locked device accepts none.
    fn ask(&mut self, name: TaskName, setting: Option<Setting>) -> Result<(), NoMemory>
        ensures { OnOk result (self.new ≡ asked self.old name setting) }
    {
        match setting {
            Some(setting) if !self.is_locked => self.doubt(name, setting),
            _ => Ok(()),
        }
    }

    // This setting was accepted or refused, which its answer will tell. Its tag was free.
    fn doubt(&mut self, name: TaskName, setting: Setting) -> Result<(), NoMemory>
        ensures { OnOk result (self.new ≡ doubted self.old name setting) }
    {
        let _ = close(&mut self.tasks, name.tag);
        let place = self.entries.len();
        add_entry(&mut self.entries, Entry::Doubted(setting))?;
        self.open_task(OpenTask {
            name,
            awaited: Awaited::Verdict(place),
            promised: 0,
        })
    }

    // One command or setting more is open.
    fn open_task(&mut self, task: OpenTask) -> Result<(), NoMemory>
        ensures { OnOk result (self.new ≡ with_open self.old task) }
    {
        match self.tasks.push(task) {
            Ok(()) => Ok(()),
            Err(_) => Err(NoMemory),
        }
    }

    // The data of this message came for the open command with this tag.
    fn receive(&mut self, alloc: Global, tag: u8, message: &[u8]) -> Result<(), NoMemory>
        requires { 32 ≤ length message.now }
        ensures { OnOk result (self.new ≡ received self.old tag message.now) }
    {
        match close(&mut self.tasks, tag) {
            Some(task) => self.take_data(alloc, task, message),
            None => Ok(()),
        }
    }

    // The data of this message came for this command, which is open again afterwards.
    fn take_data(&mut self, alloc: Global, task: OpenTask, message: &[u8]) -> Result<(), NoMemory>
        requires { 32 ≤ length message.now }
        ensures { OnOk result (self.new ≡ taken self.old task task.awaited message.now) }
    {
        let OpenTask {
            name,
            awaited,
            promised,
        } = task;
        match awaited {
            Awaited::Blocks(write) => self.take_block(name, promised, write, block_in(message)),
            Awaited::UnmapList => self.take_list(name, promised, &message[HEADER..]),
            Awaited::Frames(region) => {
                self.take_frames(alloc, name, promised, region, &message[HEADER..])
            }
            Awaited::Nothing | Awaited::Verdict(_) => self.open_task(OpenTask {
                name,
                awaited,
                promised,
            }),
        }
    }

    // A block came for this write of the command of this name, or less than a block, which changes nothing.
    fn take_block(
        &mut self,
        name: TaskName,
        promised: usize,
        write: OpenWrite,
        block: Option<Block>,
    ) -> Result<(), NoMemory>
        ensures { OnOk result (self.new ≡ gathered self.old name promised write block) }
    {
        let mut write = write;
        let Some(block) = block else {
            return self.open_task(OpenTask {
                name,
                awaited: Awaited::Blocks(write),
                promised,
            });
        };
        write.add(block)?;
        if !write.is_whole() {
            return self.open_task(OpenTask {
                name,
                awaited: Awaited::Blocks(write),
                promised,
            });
        }
        self.take_write(name, promised, write)
    }

    // All blocks of this write came: it is accepted, if the device is not locked.
    fn take_write(
        &mut self,
        name: TaskName,
        promised: usize,
        write: OpenWrite,
    ) -> Result<(), NoMemory>
        ensures { OnOk result (self.new ≡ written self.old name promised write) }
    {
        if self.is_locked {
            return self.open_task(OpenTask {
                name,
                awaited: Awaited::Nothing,
                promised,
            });
        }
        let is_forced = write.is_forced();
        let accepted = self.accept(write.into_command())?;
        self.open_task(OpenTask {
            name,
            awaited: Awaited::Nothing,
            promised: if is_forced { accepted } else { promised },
        })
    }

    // The list of an UNMAP came: it is accepted, if it names blocks and the device is not locked.
    fn take_list(&mut self, name: TaskName, promised: usize, list: &[u8]) -> Result<(), NoMemory>
        ensures { OnOk result (self.new
            ≡ unmapped self.old name promised (zeros_accepted self.old.numbers self.old.locked name.lun list.now)) }
    {
        if !self.is_locked {
            if let Some(command) = zeros_asked(&self.numbers, name.lun, list) {
                self.accept(command)?;
            }
        }
        self.open_task(OpenTask {
            name,
            awaited: Awaited::Nothing,
            promised,
        })
    }

    // The frames of a request to a region came. What it changes is accepted, and its GOOD acknowledges that and
    // all before it.
    fn take_frames(
        &mut self,
        alloc: Global,
        name: TaskName,
        promised: usize,
        region: u8,
        bytes: &[u8],
    ) -> Result<(), NoMemory>
        ensures { OnOk result (self.new
            ≡ brought self.old name promised region (accepted_of self.old region bytes.now)) }
    {
        let frames = whole_frames(bytes);
        let accepted = accepted_by(&self.region(region), frames, self.is_locked);
        let promised = match command_of(alloc, region, frames, &accepted)? {
            Some(command) => self.accept(command)?,
            None => promised,
        };
        raise(&mut self.regions, region, &accepted);
        self.open_task(OpenTask {
            name,
            awaited: Awaited::Nothing,
            promised,
        })
    }

    // One command more was accepted. How many entries there are now.
    fn accept(&mut self, command: Cmd) -> Result<usize, NoMemory>
        ensures accepted { OnOk result (self.new ≡
            record self.old { entries = self.old.entries ++ Accepted (command_of command) ∷ [] }) }
        ensures count { IfOk result (λ n. n ≡ length self.old.entries + 1) }
    {
        add_entry(&mut self.entries, Entry::Accepted(command))
    }

    /// The device handed out a reply.
    pub fn tell(&mut self, message: &[u8])
        ensures { self.new ≡ told self.old message.now }
    {
        if message.len() < HEADER {
            return;
        }
        match message[0] {
            RESPONSE => self.answer(message[3], message[6] == 0 && message[7] == 0),
            QUERY_RESPONSE => self.answer_query(message[3], message[6]),
            _ => {}
        }
    }

    // The open command with this tag has its RESPONSE.
    fn answer(&mut self, tag: u8, is_good: bool)
        ensures { self.new ≡ answered self.old tag is_good }
    {
        if let Some(task) = close(&mut self.tasks, tag) {
            if is_good {
                self.held = self.held.max(task.promised);
            }
        }
    }

    // The query with this tag is answered with this response code.
    fn answer_query(&mut self, tag: u8, code: u8)
        ensures { self.new ≡ query_answered self.old tag code }
    {
        if let Some(task) = close(&mut self.tasks, tag) {
            if let Awaited::Verdict(place) = task.awaited {
                self.rule(place, code);
            }
        }
    }

    // The setting that is the entry at this place is answered with this response code.
    fn rule(&mut self, place: usize, code: u8)
        ensures { self.new ≡ ruled self.old place code }
    {
        if place < self.entries.len() {
            settle_at(&mut self.entries, place, self.is_locked, code);
            if code == SUCCESS {
                self.held = self.held.max(place + 1);
            }
        }
    }

    /// The device is locked from now on: more blocks are bad than it has spare ones.
    pub fn lock(&mut self)
        ensures { self.new ≡ record self.old { locked = true } }
    {
        self.is_locked = true;
    }
}

// One entry more. How many there are now.
fn add_entry(entries: &mut Vec<Entry>, entry: Entry) -> Result<usize, NoMemory>
    ensures added { OnOk result (map noted_of entries.new.items
        ≡ map noted_of entries.old.items ++ noted_of entry ∷ []) }
    ensures count { IfOk result (λ n. n ≡ length (map noted_of entries.old.items) + 1) }
{
    match entries.push(entry) {
        Ok(()) => Ok(entries.len()),
        Err(_) => Err(NoMemory),
    }
}

// The entry at this place is settled by this response code.
fn settle_at(entries: &mut Vec<Entry>, place: usize, is_locked: bool, code: u8)
    requires { place < length entries.old.items }
    ensures { let old = map noted_of entries.old.items in map noted_of entries.new.items
        ≡ slice_set old place (settled is_locked code (slice_index_or old place Refused)) }
{
    settle(&mut entries[place], is_locked, code);
}

// The LUN and the tag of a message.
fn name_in(message: &[u8]) -> TaskName
    requires { 32 ≤ length message.now }
    ensures { result ≡ name_in message.now }
{
    TaskName {
        lun: message[2],
        tag: message[3],
    }
}

/// The block of a message with data.
pub fn block_in(message: &[u8]) -> Option<Block>
    ensures { result ≡ block_of message.now }
{
    if message.len() < HEADER + 4096 {
        return None;
    }
    let mut block = [0; 4096];
    block.copy_from_slice(&message[HEADER..HEADER + 4096]);
    Some(block)
}

// What a COMMAND asks for, if its CDB spells a command: of a WRITE the blocks that its host brings.
fn command_in(message: &[u8]) -> Option<Cdb>
    requires { 32 ≤ length message.now }
    ensures { result ≡ command_in message.now }
{
    let mut cdb = [0; 16];
    cdb.copy_from_slice(&message[16..32]);
    let row = row_of(&cdb)?;
    let command = spelled(&row, &cdb)?;
    Some(brought(read_u32(message, 12), &command))
}

// The data that a command to this unit waits for.
fn awaited_by(alloc: Global, unit: u8, command: Option<Cdb>) -> Awaited
    ensures { result ≡ awaited_by unit command }
{
    match command {
        Some(
            Cdb::Write {
                address,
                blocks,
                forced,
            },
        ) => match begun_write(alloc, unit, address, blocks, forced) {
            Some(write) => Awaited::Blocks(write),
            None => Awaited::Nothing,
        },
        Some(Cdb::Unmap { .. }) => Awaited::UnmapList,
        Some(Cdb::SecurityOut { region, .. }) => Awaited::Frames(region),
        _ => Awaited::Nothing,
    }
}

// How many of the accepted commands, of which there are so many, the GOOD of this command acknowledges
// as it came: all, if it is a SYNCHRONIZE CACHE without IMMED.
fn promised_by(accepted: usize, command: Option<Cdb>) -> usize
    ensures { result ≡ promised_by accepted command }
{
    match command {
        Some(Cdb::Flush { immediate: false }) => accepted,
        _ => 0,
    }
}
