//! The worked row `write_read` by the device's five calls: a FUA write of one block and its read, over
//! new dies in memory. It prints each reply as a line of hexadecimal digits. The five calls take no
//! memory, so each allocation of the row comes before the first of them.
use anyhow::{Result, bail, ensure};
use std::alloc::Global;
use std::io::Write;
use workbench::messages::{FUA, READ, WRITE, block_out, command};
use workbench::{Workbench, new_dies, row_config};

/// A device over new dies.
pub fn open(alloc: Global) -> Result<Workbench> {
    let config = row_config()?;
    let dies = new_dies(alloc, 4, 16, 64)?;
    Ok(Workbench::new(alloc, config, dies)?)
}

/// Prints the reply that the device owes, after the work of the dies that it needs.
fn show<W: Write>(bench: &mut Workbench, out: &mut W) -> Result<()> {
    ensure!(bench.hear_after_work(0), "no reply came");
    let mut line = [b'\n'; 8257];
    let length = 2 * bench.reply.len();
    if length > 8256 || hex::encode_to_slice(bench.reply.as_slice(), &mut line[..length]).is_err() {
        bail!("the reply is longer than a message");
    }
    out.write_all(&line[..length + 1])?;
    Ok(())
}

/// A FUA write of a block at address 255, and its read. The write is not answered before its program ended.
/// What the device replies is printed.
pub fn play<W: Write>(bench: &mut Workbench, out: &mut W) -> Result<()> {
    bench.settle(4, 4);
    bench.send(&command(7, WRITE, FUA, 255, 1))?;
    show(bench, out)?;
    bench.send(&block_out(7, 0, 0xFF))?;
    ensure!(!bench.hear(), "the write was answered too early");
    show(bench, out)?;
    bench.send(&command(8, READ, 0, 255, 1))?;
    show(bench, out)?;
    show(bench, out)
}
