//! A device that threads share.
ghost use Rattle.std.specs.Prelude.{◌≡◌, ◌<◌, ◌≤◌, None, [], ◌∷◌, IfErr, IfOk, OnOk, length};
ghost use Rattle.std.specs.Prelude.{vec_capacity, vec_len};
ghost use Rattle.std.specs.List.{All};
ghost use Rattle.std.specs.Arc.{arc_value};
ghost use Rattle.lanes.specs.Callers.{IsNewLane, IsNewPort, IsNextDie, IsOpenedWith, Undealt};
ghost use Rattle.lanes.specs.Rule.{IsDealer, IsOpeningOf};

use crate::deal::{deal_lane, deal_port};
use crate::keeper::Keeper;
use crate::lane::Lane;
use crate::place::{Board, Place};
use crate::port::Port;
use crate::view::Opening;
use atomic_table::Table;
use device::Device;
use nand_model::Die;
use std::alloc::{AllocError, Global};
use std::snapshot::Snapshot;
use std::sync::Arc;

/// A device that threads share: a port for each host, a lane for each die, and a keeper.
#[derive(Drop)]
pub struct Shared<D: Die> {
    pub ports: Vec<Port<D>>,
    pub lanes: Vec<Lane<D>>,
    pub keeper: Keeper<D>,
}

/// Memory was refused. The device is given up, and the dies come back.
#[derive(Drop)]
pub struct Refused<D> {
    pub dies: Vec<D>,
}

/// A port for each host.
fn deal_ports<D: Die>(
    alloc: Global,
    board: &Arc<Board<D>, Global>,
    dealer: &mut Place<D>,
    hosts: u8,
) -> Result<Vec<Port<D>>, AllocError>
    requires { IsDealer (arc_value board.now).shared.table_id dealer.old }
    ensures dealer { IsDealer (arc_value board.now).shared.table_id dealer.new }
    ensures view { (dealer.new.me.0.opening ≡ dealer.old.me.0.opening)
        × (dealer.new.me.0.lanes ≡ dealer.old.me.0.lanes) }
    ensures ports { IfOk result (λ ports. (length ports.items ≡ hosts)
        × All (IsNewPort dealer.old.me.0.opening (arc_value board.now).shared.table_id)
        ports.items) }
{
    let mut ports = Vec::with_capacity(alloc, hosts as usize)?;
    for _ in 0..hosts {
        let board = Arc::try_clone(board)?;
        let seat = deal_port(&board.shared, dealer);
        ports.push(Port { board, seat })?;
    }
    Ok(ports)
}

/// So many handles of the table.
fn more_boards<D: Die>(
    alloc: Global,
    board: &Arc<Board<D>, Global>,
    count: usize,
) -> Result<Vec<Arc<Board<D>, Global>>, AllocError>
    ensures { IfOk result (λ boards. (length boards.items ≡ count)
        × All (λ b. arc_value b ≡ arc_value board.now) boards.items) }
{
    let mut boards = Vec::with_capacity(alloc, count)?;
    for _ in 0..count {
        boards.push(Arc::try_clone(board)?)?;
    }
    Ok(boards)
}

/// A lane with the last die that was not dealt.
fn new_lane<D: Die>(
    board: Arc<Board<D>, Global>,
    dealer: &mut Place<D>,
    number: u8,
    die: D,
) -> Lane<D>
    requires dealer { IsDealer (arc_value board).shared.table_id dealer.old }
    requires next { IsNextDie dealer.old.me.0 number die }
    ensures dealer { IsDealer (arc_value board).shared.table_id dealer.new }
    ensures view { (dealer.new.me.0.opening ≡ dealer.old.me.0.opening)
        × (dealer.new.me.0.lanes ≡ number) }
    ensures lane { IsNewLane dealer.old.me.0.opening (arc_value board).shared.table_id result
        × (result.number ≡ number) × (result.die ≡ die) }
{
    let seat = deal_lane(&board.shared, dealer);
    Lane {
        board,
        seat,
        number,
        die,
        ended: None,
        tag: None,
    }
}

/// A lane for each die.
fn deal_lanes<D: Die>(
    board: &Arc<Board<D>, Global>,
    dealer: &mut Place<D>,
    mut dies: Vec<D>,
    mut boards: Vec<Arc<Board<D>, Global>>,
    mut lanes: Vec<Lane<D>>,
) -> Vec<Lane<D>>
    requires dealer { IsDealer (arc_value board.now).shared.table_id dealer.old
        × (dealer.old.me.0.lanes ≡ length dies.items) }
    requires dies { Undealt dealer.old.me.0.opening dies.items × (length dies.items ≤ 255) }
    requires boards { (length boards.items ≡ length dies.items)
        × All (λ b. arc_value b ≡ arc_value board.now) boards.items }
    requires room { (lanes.items ≡ []) × (length dies.items ≤ vec_capacity lanes) }
    ensures dealer { IsDealer (arc_value board.now).shared.table_id dealer.new
        × (dealer.new.me.0.opening ≡ dealer.old.me.0.opening) }
    ensures lanes { (length result.items ≡ length dies.items)
        × All (IsNewLane dealer.old.me.0.opening (arc_value board.now).shared.table_id)
        result.items }
{
    while let Some(die) = dies.pop() {
        let Some(board) = boards.pop() else {
            unreachable!()
        };
        let lane = new_lane(board, dealer, dies.len() as u8, die);
        lanes.push_reserved(lane);
    }
    dies.destroy_empty();
    lanes
}

// The parts that need memory, before the dies are given away.
struct Prepared<D: Die> {
    board: Arc<Board<D>, Global>,
    dealer: Place<D>,
    ports: Vec<Port<D>>,
    boards: Vec<Arc<Board<D>, Global>>,
    lanes: Vec<Lane<D>>,
}

/// The device, in a vector of its own.
fn one_slot(alloc: Global, device: Device) -> Result<Vec<Device>, AllocError>
    ensures { IfOk result (λ v. v.items ≡ device ∷ []) }
{
    let mut slots = Vec::with_capacity(alloc, 1)?;
    slots.push_reserved(device);
    Ok(slots)
}

/// The table with the device in its slot, and the seat that deals the others.
fn open_board<D: Die>(
    alloc: Global,
    device: Device,
    dies: &Vec<D>,
) -> Result<(Arc<Board<D>, Global>, Place<D>), AllocError>
    requires { IsOpeningOf D.state device dies.now.items }
    ensures dealer { IfOk result (λ made. IsDealer (arc_value made.0).shared.table_id made.1
        × (made.1.me.0.lanes ≡ length dies.now.items)) }
    ensures opening { IfOk result (λ made. IsOpenedWith made.1.me.0.opening device dies.now.items) }
{
    let opening = Opening {
        device: Snapshot::of(&device),
        dies: Snapshot::of(dies),
    };
    let slots = one_slot(alloc, device)?;
    let Ok((table, dealer)) = Table::new(alloc, &[0], slots, &opening) else {
        return Err(AllocError);
    };
    let board = Arc::new(alloc, table)?;
    Ok((board, dealer))
}

fn prepare<D: Die>(
    alloc: Global,
    device: Device,
    dies: &Vec<D>,
    hosts: u8,
) -> Result<Prepared<D>, AllocError>
    requires { IsOpeningOf D.state device dies.now.items }
    ensures dealer { IfOk result (λ p. IsDealer (arc_value p.board).shared.table_id p.dealer
        × (p.dealer.me.0.lanes ≡ length dies.now.items)) }
    ensures opening { IfOk result (λ p. IsOpenedWith p.dealer.me.0.opening device dies.now.items) }
    ensures ports { IfOk result (λ p. (length p.ports.items ≡ hosts)
        × All (IsNewPort p.dealer.me.0.opening (arc_value p.board).shared.table_id) p.ports.items) }
    ensures boards { IfOk result (λ p. (length p.boards.items ≡ length dies.now.items)
        × All (λ b. arc_value b ≡ arc_value p.board) p.boards.items) }
    ensures lanes { IfOk result (λ p. (p.lanes.items ≡ [])
        × (length dies.now.items ≤ vec_capacity p.lanes)) }
{
    let (board, mut dealer) = open_board(alloc, device, dies)?;
    let ports = deal_ports(alloc, &board, &mut dealer, hosts)?;
    let boards = more_boards(alloc, &board, dies.len())?;
    let lanes = Vec::with_capacity(alloc, dies.len())?;
    Ok(Prepared {
        board,
        dealer,
        ports,
        boards,
        lanes,
    })
}

impl<D: Die> Shared<D> {
    /// Shares a device over its dies, as its opening gave it, among so many hosts.
    ///
    /// # Errors
    ///
    /// `Refused` if memory was refused. The device is given up then.
    pub fn new(
        alloc: Global,
        device: Device,
        dies: Vec<D>,
        hosts: u8,
    ) -> Result<Shared<D>, Refused<D>>
        requires { IsOpeningOf D.state device dies.items }
        ensures opened { IfOk result (λ s. IsOpenedWith s.keeper.view.opening device dies.items
            × IsNewPort s.keeper.view.opening s.keeper.table s.keeper) }
        ensures ports { IfOk result (λ s. (length s.ports.items ≡ hosts)
            × All (IsNewPort s.keeper.view.opening s.keeper.table) s.ports.items) }
        ensures lanes { IfOk result (λ s. (length s.lanes.items ≡ length dies.items)
            × All (IsNewLane s.keeper.view.opening s.keeper.table) s.lanes.items) }
        ensures refused { IfErr result (λ r. r.dies.items ≡ dies.items) }
    {
        let Ok(prepared) = prepare(alloc, device, &dies, hosts) else {
            return Err(Refused { dies });
        };
        let Prepared {
            board,
            mut dealer,
            ports,
            boards,
            lanes,
        } = prepared;
        let lanes = deal_lanes(&board, &mut dealer, dies, boards, lanes);
        let seat = deal_port(&board.shared, &mut dealer);
        Ok(Shared {
            ports,
            lanes,
            keeper: Keeper { board, seat },
        })
    }
}
