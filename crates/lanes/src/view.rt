//! What a seat knows. No value of these types is made: only contracts speak of them.
use atomic_table::{Join, Split, TableRule};
use device::Device;
use nand_model::Die;
use std::collections::LinkedList;
use std::marker::{Brand, PhantomData};
use std::snapshot::Snapshot;
use ufs_spec::{HostFault, Job, Outcome};

/// One of the five calls, with its answer.
pub enum Made {
    Host(LinkedList<u8>, Result<(), HostFault>),
    Reply(Option<LinkedList<u8>>),
    Take(u8, Option<Job>),
    Done(u8, Outcome, bool),
    Turn(bool),
}

/// A step: the seat that made it, the call and the answer.
pub struct Entry {
    pub by: u64,
    pub made: Made,
}

/// What the table was opened with: the device as its opening gave it, and its dies then.
#[derive(Drop)]
pub struct Opening<D> {
    pub device: Snapshot<Device>,
    pub dies: Snapshot<Vec<D>>,
}

/// What a lane knows of its die: which it is, what it holds, and its job in flight, which has done
/// nothing yet.
pub struct LaneView<D> {
    pub die: u8,
    pub content: D,
    pub job: Option<Job>,
}

/// What a seat knows: its number, if it may make steps, the beginning of the list that it has seen,
/// and, while it has the core, the core as it took it. The seat that deals the others knows how
/// many numbers are dealt, and how many dies are not. Who was told of another's list has two lists
/// to compare with its own: what it had seen before, and the other's.
pub struct View<D> {
    pub by: u64,
    pub steps: bool,
    pub opening: Option<Opening<D>>,
    pub seen: LinkedList<Entry>,
    pub held: Option<Device>,
    pub lane: Option<LaneView<D>>,
    pub numbers: u64,
    pub lanes: u64,
    pub looks: bool,
    pub before: LinkedList<Entry>,
    pub other: LinkedList<Entry>,
}

/// The rule of the table.
pub struct OneList<D> {
    die: PhantomData<D>,
}

impl<D: Die> TableRule<Device, View<D>, Opening<D>> for OneList<D> {
    ghost use Rattle.lanes.specs.Rule.{Kept, first_view};

    ghost holds = { Kept D.state };

    ghost first = { first_view };
}

/// The step that a core is put back after, and what a lane knows of its die then.
pub trait Said<D> {
    ghost use Rattle.std.specs.Prelude.{Option};
    ghost use Rattle.lanes.specs.declared.view.LaneView.{LaneView};
    ghost use Rattle.lanes.specs.declared.view.Made.{Made};

    ghost made: { Made };

    ghost lane: { Option (LaneView D) };
}

impl<D> Said<D> for Brand {
    ghost use Rattle.std.specs.Prelude.{None, false};
    ghost use Rattle.lanes.specs.declared.view.Made.TheVariants as made;

    ghost made = { made.Turn false };

    ghost lane = { None };
}
