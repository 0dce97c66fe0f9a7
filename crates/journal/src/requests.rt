//! What requests to the replay protected memory block change (JESD220, 12.4).
ghost use Rattle.std.specs.Prelude.{◌≡◌, ◌++◌, ℕ, IfOk, List, OnOk, map, option_map, slice_set};
ghost use Rattle.journal.specs.Requests.{accepted_by, state_after, state_at};
ghost use Rattle.rpmb.specs.Outcomes as outcomes;
ghost use Rattle.rpmb.specs.Outcomes.{MayChange};
ghost use Rattle.rpmb.specs.Requests.{payload_in, payloads};
ghost use Rattle.ufs_spec.specs.Commands as commands;
ghost use Rattle.ufs_spec.specs.Frames as defined;
ghost use Rattle.ufs_spec.specs.Frames.{frame_in};

use rpmb::{Accepted, Outcome, RegionState, request_of};
use rpmb_frame::Frame;
use std::alloc::Global;
use ufs_spec::{Cmd, NoMemory, REGIONS};

/// What these frames change of a region with this key and this counter. A locked device accepts nothing.
pub(crate) fn accepted_by(region: &RegionState, frames: &[[u8; 512]], is_locked: bool) -> Accepted
    ensures command { (number : ℕ) → outcomes.command_of number (map frame_in frames.now) result
        ≡ accepted_by number region.now is_locked (map frame_in frames.now) }
    ensures may_change { MayChange result region.now }
{
    let Some(request) = request_of(frames) else {
        return Accepted::Nothing;
    };
    match region.outcome(&request, frames, is_locked) {
        Outcome::Refused(_) => Accepted::Nothing,
        Outcome::Results { accepted, .. } => accepted,
    }
}

/// The command of what these frames changed of the region of this number, if they changed anything.
///
/// # Errors
///
/// `NoMemory` where there was none for its data.
pub(crate) fn command_of(
    alloc: Global,
    region: u8,
    frames: &[[u8; 512]],
    accepted: &Accepted,
) -> Result<Option<Cmd>, NoMemory>
    ensures { IfOk result (λ c. option_map commands.command_of c
        ≡ outcomes.command_of region (map frame_in frames.now) accepted.now) }
{
    match accepted {
        Accepted::Nothing => Ok(None),
        Accepted::Key(key) => Ok(Some(Cmd::SetKey { region, key: *key })),
        Accepted::Write { address } => Ok(Some(Cmd::RpmbWrite {
            region,
            address: *address,
            bytes: data_in(alloc, frames)?,
        })),
    }
}

// The data of all frames, one block of 256 bytes after another.
fn data_in(alloc: Global, frames: &[[u8; 512]]) -> Result<Vec<u8>, NoMemory>
    ensures { IfOk result (λ v. v.items ≡ payloads (map frame_in frames.now)) }
{
    let mut data = Vec::new(alloc);
    for frame in frames {
        add_data(&mut data, frame)?;
    }
    Ok(data)
}

// The data of a frame come behind the others.
fn add_data(data: &mut Vec<u8>, frame: &[u8; 512]) -> Result<(), NoMemory>
    ensures { OnOk result («data».new.items ≡ «data».old.items ++ payload_in frame.now) }
{
    match data.extend_from_slice(&Frame::read(frame).data) {
        Ok(()) => Ok(()),
        Err(_) => Err(NoMemory),
    }
}

/// The key of the region of this number is set, or its counter rises.
pub(crate) fn raise(regions: &mut [RegionState; 4], number: u8, accepted: &Accepted)
    requires { MayChange accepted.now (state_at regions.old number) }
    ensures { (frames : List defined.Frame) → regions.new ≡ slice_set regions.old number
        (state_after (state_at regions.old number) (outcomes.command_of number frames accepted.now)) }
{
    if number < REGIONS {
        raise_one(&mut regions[number as usize], accepted);
    }
}

// Its key is set, or its counter rises.
fn raise_one(region: &mut RegionState, accepted: &Accepted)
    requires { MayChange accepted.now region.old }
    ensures { (number : ℕ) (frames : List defined.Frame) →
        region.new ≡ state_after region.old (outcomes.command_of number frames accepted.now) }
{
    match accepted {
        Accepted::Nothing => {}
        Accepted::Key(key) => region.key = Some(*key),
        Accepted::Write { .. } => region.counter += 1,
    }
}
