//! What a host knows of the blocks that it wrote.
use std::alloc::{AllocError, Global};

/// A WRITE that was begun and is not durable yet. Each has a stamp of its own, from 1 on.
#[derive(Clone, Copy)]
pub struct Begun {
    pub address: u32,
    pub blocks: u32,
    pub stamp: u32,
}

impl Begun {
    /// Whether it writes the address.
    fn writes(&self, address: u32) -> bool {
        self.address <= address && address - self.address < self.blocks
    }
}

/// The stamp of the last durable write of each address, 0 where there is none, and the WRITEs that were begun
/// behind them in their order. After a stop the first so many of these are there, and no other: how many
/// is between the least and the most that agree with what was read since.
#[derive(Drop)]
pub struct Kept {
    unit: u32,
    durable: Vec<u32>,
    begun: Vec<Begun>,
    last: u32,
    least: usize,
    most: usize,
}

impl Kept {
    /// No block is written.
    pub fn new(alloc: Global, unit: u32) -> Result<Kept, AllocError> {
        Ok(Kept {
            unit,
            durable: vec![in alloc; 0u32; unit as usize]?,
            begun: Vec::new(alloc),
            last: 0,
            least: 0,
            most: 0,
        })
    }

    /// How many addresses there are.
    pub fn unit(&self) -> u32 {
        self.unit
    }

    /// The stamp of the next WRITE.
    pub fn next_stamp(&self) -> u32 {
        self.last.saturating_add(1)
    }

    /// The address of so many blocks for the WRITE with this stamp: from one to the next far apart.
    pub fn address_of(&self, stamp: u32, blocks: u32) -> u32 {
        let count = self.unit().saturating_sub(blocks).saturating_add(1);
        (u64::from(stamp) * 7919 % u64::from(count.max(1))) as u32
    }

    /// The WRITE with the next stamp is begun: the stamp.
    pub fn begin(&mut self, address: u32, blocks: u32) -> Result<u32, AllocError> {
        let stamp = self.next_stamp();
        self.begun.push(Begun {
            address,
            blocks,
            stamp,
        })?;
        self.last = stamp;
        Ok(stamp)
    }

    /// How many WRITEs were begun.
    pub fn begun_count(&self) -> usize {
        self.begun.len()
    }

    /// The WRITE with this index among those that were begun, if there is one.
    pub fn begun_at(&self, index: usize) -> Option<Begun> {
        self.begun.get(index).copied()
    }

    /// What is durable at the address.
    fn durable_at(&self, address: u32) -> u32 {
        match self.durable.get(address as usize) {
            Some(stamp) => *stamp,
            None => 0,
        }
    }

    fn set(&mut self, address: u32, stamp: u32) {
        let index = address as usize;
        if index < self.durable.len() {
            self.durable[index] = stamp;
        }
    }

    /// The blocks of the WRITE are durable.
    fn set_all(&mut self, begun: Begun) {
        for block in 0..begun.blocks {
            self.set(begun.address.saturating_add(block), begun.stamp);
        }
    }

    /// The first so many WRITEs that were begun are durable, and there is no other.
    fn keep(&mut self, count: usize) {
        for index in 0..count {
            if let Some(begun) = self.begun_at(index) {
                self.set_all(begun);
            }
        }
        self.begun.clear();
        self.stop();
    }

    /// All WRITEs that were begun are durable.
    pub fn end_all(&mut self) {
        let count = self.begun_count();
        self.keep(count);
    }

    /// A stop came: some of the WRITEs that were begun are there.
    pub fn stop(&mut self) {
        self.least = 0;
        self.most = self.begun.len();
    }

    /// How many of the WRITEs that were begun are there at least, and at most, where this is read.
    fn bounds(&self, address: u32, stamp: u32) -> Option<(usize, usize)> {
        let mut least = if stamp == self.durable_at(address) {
            Some(0usize)
        } else {
            None
        };
        let mut most = self.begun.len();
        for (index, begun) in self.begun.iter().enumerate() {
            if begun.writes(address) && begun.stamp == stamp {
                least = Some(index + 1);
            } else if begun.writes(address) && least.is_some() {
                most = most.min(index);
            }
        }
        Some((least?, most))
    }

    /// This stamp was read after a stop: whether so many of the WRITEs that were begun are there as before, and
    /// no other.
    pub fn agrees(&mut self, address: u32, stamp: u32) -> bool {
        let Some((least, most)) = self.bounds(address, stamp) else {
            return false;
        };
        self.least = self.least.max(least);
        self.most = self.most.min(most);
        self.least <= self.most
    }

    /// Each block that was begun was read: those that are there are durable.
    pub fn settle(&mut self) {
        self.keep(self.least);
    }
}
