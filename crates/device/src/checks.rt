//! The checks of a command, in the order in which the first that applies ends it.
ghost use Rattle.std.specs.Prelude.{◌≡◌, ◌≤◌, ◌<◌, ◌^◌, ℕ, ◌*◌, ◌==◌, ◌&&◌, false, not, option_map, IfErr, IfOk, IfSome, IsOk, None};
ghost use Rattle.std.specs.Prelude.{Some, ◌||◌};
ghost use Rattle.ufs_spec.specs.Configs.{command_blocks};
ghost use Rattle.ufs_spec.specs.Plain.{greatest_command};
ghost use Rattle.ufs_spec.specs.declared.scsi.Cdb.TheVariants.{Tell};
ghost use Rattle.ufs_spec.specs.Translation.{Translation};
ghost use Rattle.ufs_spec.specs.CdbFields.{spelled_in};
ghost use Rattle.ufs_spec.specs.Cdbs.{address_of, blocks_of, direction_of};
ghost use Rattle.ufs_spec.specs.Cdbs.{length_of as length_of_command};
ghost use Rattle.ufs_spec.specs.Refusals.{Request, State, first_line, flushes, has_other_response};
ghost use Rattle.ufs_spec.specs.Refusals.{has_wrong_list};
ghost use Rattle.ufs_spec.specs.Refusals.{is_crowded, is_frames, is_past, is_protected, is_refused_write};
ghost use Rattle.ufs_spec.specs.Refusals.{is_too_long, lacks_data, lacks_region, lacks_response, lines_for};
ghost use Rattle.ufs_spec.specs.Refusals.{is_ready_for, is_unready, tests_unit};
ghost use Rattle.ufs_spec.specs.Refusals.{fails_test, goes_beyond, is_guarded, lacks_operation, lacks_page};
ghost use Rattle.ufs_spec.specs.Refusals.{may_be_cut, needs_mended, numbers_of};
ghost use Rattle.ufs_spec.specs.Refusals.{slots_needed, told_count, unit_numbers_of, wants_saved, writes};
ghost use Rattle.ufs_spec.specs.Keys.{data_key};
ghost use Rattle.ufs_spec.specs.declared.configs.Numbers.{Numbers};
ghost use Rattle.ftl_core.specs.Public.{Describes as IsLayer};
ghost use Rattle.device.specs.Bare.{IsBare};
ghost use Rattle.device.specs.Plans.{IsPlanned, IsRequest, identity_of, lines_now};
ghost use Rattle.device.specs.Plans.{flush_plan, gather_plan, plan_of, read_plan, send_plan, verify_plan, write_plan};

use crate::device::Device;
use crate::plans::{Identity, Plan, Source};
use crate::targets::{Target, key_of};
use crate::unmap::{LIST_HEADER, LIST_OF_ONE, list_slots};
use geometry::command_blocks;
use lun_route::{has_page, is_reported, told_length};
use scsi_cdb::{
    address_of, blocks_brought, blocks_meant, blocks_of, brought, goes_beyond, length_of, row_of,
    spelled,
};
use task_set::{BLOCK_BYTES, Wanted};
use ufs_spec::{Cdb, Key, Numbers, Purpose, Row, Sense, Status, Told, UnitSpec};

/// The flags of a COMMAND without its priority and its task attribute; and what they are if its data go to
/// the device, and if its data come from it (JESD220, 10.7.1).
const DIRECTION: u8 = 0xF8;

const WRITES: u8 = 0x20;

const READS: u8 = 0x40;

/// How many bytes a frame of the RPMB has (JESD220, 12.4).
const FRAME_BYTES: u32 = 512;

/// How many frames a command has at most.
const MOST_FRAMES: u32 = 8;

/// The protection of a unit while fPowerOnWPEn is set, and of one while fPermanentWPEn is set (JESD220,
/// 14.1.4.5).
const POWER_ON: u8 = 1;

const PERMANENT: u8 = 2;

/// What is asked of mode pages stands above this place of a selection (SPC, PC); 3 asks for saved
/// values.
const PAGE_CONTROL: u32 = 0x4000;

const SAVED: u32 = 3;

/// How many addresses a key may have.
const ADDRESSES: u64 = 1 << 32;

/// How many slots a SECURITY PROTOCOL OUT claims: for two pages of the area and the settings.
const FRAME_SLOTS: u16 = 3;

/// How many bytes there are to tell to a command of this LUN; nothing is told to others than those that
/// ask for it.
fn told_count(numbers: &Numbers, lun: u8, cdb: &Cdb) -> u32
    ensures { result ≡ told_count numbers.now lun cdb.now }
{
    match cdb {
        Cdb::Tell { told, select, .. } => told_length(numbers, lun, *told, *select),
        _ => 0,
    }
}

/// Whether the host may send fewer bytes than the command has: a device of profile 1 takes the whole
/// blocks of a WRITE that come.
fn may_be_cut(numbers: &Numbers, cdb: &Cdb) -> bool
    ensures { result ≡ may_be_cut numbers.now cdb.now }
{
    match cdb {
        Cdb::Write { .. } => numbers.profile > 0,
        _ => false,
    }
}

/// Whether the flag of the direction of the command's data is not set, or the host has fewer bytes to
/// write than the command, and may not (`is_cut`). There are so many bytes to tell.
fn lacks_data(told: u32, cdb: &Cdb, flags: u8, expected: u32, is_cut: bool) -> bool
    requires { blocks_of cdb.now ≤ greatest_command }
    ensures { (r : Request) → r.flags ≡ flags → r.expected ≡ expected →
        result ≡ lacks_data r (direction_of cdb.now) is_cut (length_of_command told cdb.now) }
{
    let length = length_of(told, cdb);
    let direction = flags & DIRECTION;
    match cdb {
        Cdb::Nothing
        | Cdb::Flush { .. }
        | Cdb::Verify {
            compared: false,
            ..
        }
        | Cdb::Prefetch { .. }
        | Cdb::Diagnose { .. } => false,
        Cdb::Write { .. }
        | Cdb::Verify { compared: true, .. }
        | Cdb::Unmap { .. }
        | Cdb::SecurityOut { .. } => length > 0
            && (direction != WRITES || (!is_cut && expected < length)),
        _ => length > 0 && direction != READS,
    }
}

/// Whether the RPMB region of the command is not there: its area has no bytes.
fn lacks_region(numbers: &Numbers, cdb: &Cdb) -> bool
    ensures { result ≡ lacks_region numbers.now cdb.now }
{
    match cdb {
        Cdb::SecurityIn { region, .. } | Cdb::SecurityOut { region, .. } => match numbers
            .rpmb
            .get(*region as usize)
        {
            Some(steps) => *steps == 0,
            None => true,
        },
        _ => false,
    }
}

/// Whether there is no unit with this LUN byte that has the page of vital product data that the command
/// asks for.
fn lacks_page(numbers: &Numbers, lun: u8, cdb: &Cdb) -> bool
    ensures { result ≡ lacks_page numbers.now lun cdb.now }
{
    match cdb {
        Cdb::Tell { told, select, .. } => lacks_told(numbers, lun, *told, *select),
        _ => false,
    }
}

/// The same of a command that tells this of what is selected.
fn lacks_told(numbers: &Numbers, lun: u8, told: Told, select: u32) -> bool
    ensures { (allocation : ℕ) → result ≡ lacks_page numbers.now lun (Tell told select allocation) }
{
    match told {
        Told::Page => !has_page(numbers, lun, select),
        _ => false,
    }
}

/// Whether commands are asked for that are not reported so.
fn lacks_operation(cdb: &Cdb) -> bool
    ensures { result ≡ lacks_operation cdb.now }
{
    match cdb {
        Cdb::Tell {
            told: Told::Operations,
            select,
            ..
        } => !is_reported(*select),
        _ => false,
    }
}

/// Whether what the command names is not there: an RPMB region, a page of this LUN, or a command to report
/// on.
fn lacks_named(numbers: &Numbers, lun: u8, cdb: &Cdb) -> bool
    ensures { result ≡ (lacks_region numbers.now cdb.now
        || (lacks_page numbers.now lun cdb.now || lacks_operation cdb.now)) }
{
    lacks_region(numbers, cdb) || lacks_page(numbers, lun, cdb) || lacks_operation(cdb)
}

/// Whether saved values of mode pages are asked for, which this device has not.
fn wants_saved(cdb: &Cdb) -> bool
    ensures { result ≡ wants_saved cdb.now }
{
    match cdb {
        Cdb::Tell {
            told: Told::Modes | Told::ShortModes,
            select,
            ..
        } => *select / PAGE_CONTROL == SAVED,
        _ => false,
    }
}

/// Whether the command has more blocks than a command may have, `most`, or a length that is not that of one to
/// eight frames.
fn is_too_long(most: u16, cdb: &Cdb) -> bool
    ensures what { (n : Numbers) → most ≡ command_blocks n → result ≡ is_too_long n cdb.now }
    ensures few { most ≤ greatest_command → result ≡ false → blocks_of cdb.now ≤ greatest_command }
{
    match cdb {
        Cdb::SecurityIn { length, .. } | Cdb::SecurityOut { length, .. } => !are_frames(*length),
        _ => blocks_of(cdb) > u32::from(most),
    }
}

/// Whether it is an UNMAP whose list is not empty, nor a header alone, nor a header with one descriptor.
fn has_wrong_list(cdb: &Cdb) -> bool
    ensures { result ≡ has_wrong_list cdb.now }
{
    match cdb {
        Cdb::Unmap { list } => *list != 0 && *list != LIST_HEADER && *list != LIST_OF_ONE,
        _ => false,
    }
}

/// Whether so many bytes are one to eight frames.
fn are_frames(length: u32) -> bool
    ensures { result ≡ is_frames length }
{
    (FRAME_BYTES..=MOST_FRAMES * FRAME_BYTES).contains(&length) && length % FRAME_BYTES == 0
}

/// Whether a block of the command lies past the unit.
fn is_out_of_range(cdb: &Cdb, unit: Option<UnitSpec>) -> bool
    ensures past { result ≡ is_past cdb.now unit }
    ensures within { result ≡ false → IfSome unit (λ spec. address_of cdb.now < 2 ^ 32) }
{
    match unit {
        Some(unit) => {
            let (blocks, count) = (u64::from(unit.blocks), u64::from(blocks_meant(cdb)));
            count > blocks || address_of(cdb) > blocks - count
        }
        None => false,
    }
}

/// Whether the command is taken only once the device is ready for it: all but those that tell of the
/// device.
fn needs_mended(cdb: &Cdb) -> bool
    ensures { result ≡ needs_mended cdb.now }
{
    !matches!(cdb, Cdb::Tell { .. })
}

/// Whether the command asks if the device is ready.
fn tests_unit(cdb: &Cdb) -> bool
    ensures { result ≡ tests_unit cdb.now }
{
    matches!(cdb, Cdb::Nothing)
}

/// Whether the command changes blocks: a WRITE of some, or an UNMAP whose list has a descriptor.
fn writes(cdb: &Cdb) -> bool
    ensures { result ≡ writes cdb.now }
{
    match cdb {
        Cdb::Write { blocks, .. } => *blocks > 0,
        Cdb::Unmap { list } => *list == LIST_OF_ONE,
        _ => false,
    }
}

/// Whether the command makes all that was accepted durable.
fn flushes(cdb: &Cdb) -> bool
    ensures { result ≡ flushes cdb.now }
{
    matches!(cdb, Cdb::Flush { .. })
}

/// How many slots the command needs: one a block that it writes, as many as a command may have blocks
/// for a descriptor of an UNMAP, and three for the pages of an RPMB write.
fn slots_needed(most: u16, cdb: &Cdb) -> u32
    ensures { (n : Numbers) → most ≡ command_blocks n → result ≡ slots_needed n cdb.now }
{
    match cdb {
        Cdb::Write { blocks, .. } => *blocks,
        Cdb::Unmap { list } => u32::from(list_slots(most, *list)),
        Cdb::SecurityOut { .. } => u32::from(FRAME_SLOTS),
        _ => 0,
    }
}

/// What a command about this target does that passed the checks. Its address fits a key, since its blocks
/// lie in a unit.
fn plan_of(numbers: &Numbers, cdb: &Cdb, target: Target, expected: u32) -> Plan
    requires { blocks_of cdb.now ≤ greatest_command }
    ensures { address_of cdb.now < 2 ^ 32 → result ≡ plan_of numbers.now target expected cdb.now }
{
    let key = key_of(
        target.unit_of_blocks(),
        (address_of(cdb) % ADDRESSES) as u32,
    );
    let length = length_of(told_count(numbers, target.lun, cdb), cdb);
    match cdb {
        Cdb::Nothing | Cdb::Prefetch { .. } | Cdb::Diagnose { .. } => Plan::Nothing { length },
        Cdb::Tell { told, select, .. } => {
            let told = identity_of(target, *told, *select);
            send_plan(Source::Identity { told }, length, expected)
        }
        Cdb::Read { .. } => read_plan(key, length, expected),
        Cdb::Flush { immediate } => flush_plan(*immediate),
        Cdb::Verify {
            blocks,
            compared,
            ..
        } => verify_plan(key, *blocks as u16, *compared),
        Cdb::Write { blocks, forced, .. } => {
            write_plan(
                key,
                blocks_brought(expected, *blocks) as u16,
                *forced,
                length,
            )
        }
        Cdb::Unmap { list } => {
            let slots = list_slots(command_blocks(numbers), *list);
            gather_plan(Purpose::ForUnmap { unit: key.unit }, *list, slots)
        }
        Cdb::SecurityOut { region, length } => {
            gather_plan(Purpose::ForFrames { region: *region }, *length, FRAME_SLOTS)
        }
        Cdb::SecurityIn { region, length } => {
            send_plan(Source::Response { region: *region }, *length, expected)
        }
    }
}

/// What a command about this target tells.
fn identity_of(target: Target, told: Told, select: u32) -> Identity
    ensures { result ≡ identity_of target told select }
{
    match told {
        Told::Sense => Identity::Sense {
            sense: target.sense,
        },
        Told::Identity => Identity::Unit {
            device_type: target.device_type,
        },
        Told::Capacity => Identity::Capacity {
            blocks: target.blocks(),
        },
        Told::Units => Identity::Luns { select },
        Told::LongCapacity => Identity::LongCapacity {
            blocks: target.blocks(),
        },
        Told::Page => Identity::Page {
            lun: target.lun,
            page: select,
        },
        Told::Modes => Identity::Modes {
            select,
            is_guarded: target.is_guarded,
        },
        Told::ShortModes => Identity::ShortModes {
            select,
            is_guarded: target.is_guarded,
        },
        Told::Operations => Identity::Operations { select },
    }
}

/// What a command does that sends so many bytes from there.
fn send_plan(from: Source, length: u32, expected: u32) -> Plan
    ensures { result ≡ send_plan expected from length }
{
    Plan::Send {
        from,
        length,
        taken: expected.min(length),
    }
}

/// What a flush does: with IMMED it is answered at once.
fn flush_plan(immediate: bool) -> Plan
    ensures { result ≡ flush_plan immediate }
{
    if immediate {
        Plan::Nothing { length: 0 }
    } else {
        Plan::Flush
    }
}

/// What a READ of so many bytes does: it reads nothing for a host that expects nothing.
fn read_plan(key: Key, length: u32, expected: u32) -> Plan
    requires { length ≤ 4096 * greatest_command }
    ensures { (blocks : ℕ) → length ≡ blocks * 4096 → key ≡ data_key key.unit key.address →
        result ≡ read_plan key.unit expected key.address blocks }
{
    if length == 0 || expected == 0 {
        Plan::Nothing { length }
    } else {
        Plan::Read {
            key,
            blocks: expected.min(length).div_ceil(BLOCK_BYTES) as u16,
            length,
        }
    }
}

/// What a VERIFY of so many blocks from this key's address on does, which compares them or does not:
/// without a block there is nothing to do.
fn verify_plan(key: Key, blocks: u16, compared: bool) -> Plan
    ensures { key ≡ data_key key.unit key.address →
        result ≡ verify_plan key.unit key.address blocks compared }
{
    if blocks == 0 {
        Plan::Nothing { length: 0 }
    } else if compared {
        Plan::Compare { key, blocks }
    } else {
        Plan::Verify { key, blocks }
    }
}

/// What a WRITE of so many bytes does whose host brings so many blocks from this key's address on: without
/// a block there is nothing to do.
fn write_plan(key: Key, blocks: u16, forced: bool, length: u32) -> Plan
    ensures { result ≡ write_plan key.unit key.address blocks forced length }
{
    if blocks == 0 {
        Plan::Drop { length }
    } else {
        let purpose = Purpose::ForWrite {
            unit: key.unit,
            address: key.address,
            blocks,
            forced,
        };
        let wanted = Wanted {
            purpose,
            length,
            came: 0,
        };
        Plan::Gather {
            wanted,
            slots: blocks,
        }
    }
}

/// What a command does that brings so many bytes for this purpose, for which it needs so many slots:
/// without a byte there is nothing to do.
fn gather_plan(purpose: Purpose, length: u32, slots: u16) -> Plan
    ensures { result ≡ gather_plan purpose length slots }
{
    if length == 0 {
        Plan::Nothing { length: 0 }
    } else {
        let wanted = Wanted {
            purpose,
            length,
            came: 0,
        };
        Plan::Gather { wanted, slots }
    }
}

/// The command that a CDB with this row spells, if it has one.
fn spelled_in(row: Option<Row>, cdb: &[u8; 16]) -> Option<Cdb>
    ensures { result ≡ spelled_in cdb.now row }
{
    match row {
        Some(row) => spelled(&row, cdb),
        None => None,
    }
}

impl Device {
    /// What the command does, or the status that ends it: the first check that fails decides.
    pub(crate) fn plan(
        &self,
        lun: u8,
        flags: u8,
        expected: u32,
        cdb: &[u8; 16],
    ) -> Result<Plan, Status>
        ensures { (s : State) (r : Request) → IsLayer self.now.ftl s.translation → IsBare s self.now →
            IsRequest r flags lun expected cdb.now → IsPlanned s r result }
    {
        let row = row_of(cdb);
        let target = match self.target(lun, flags, row) {
            Ok(target) => target,
            Err(sense) => return Err(Status::CheckCondition(sense)),
        };
        if self.is_beyond(row, cdb) {
            return Err(Status::CheckCondition(Sense::INVALID_FIELD));
        }
        match spelled_in(row, cdb) {
            Some(cdb) => self.plan_taken(flags, expected, target, &cdb),
            None => Err(Status::CheckCondition(Sense::INVALID_FIELD)),
        }
    }

    /// Whether the CDB has a bit set that the device's profile does not take.
    fn is_beyond(&self, row: Option<Row>, cdb: &[u8; 16]) -> bool
        ensures { (t : Translation) → IsLayer self.now.ftl t →
            result ≡ ((t.numbers.profile == 0) && goes_beyond cdb.now row) }
    {
        self.ftl.numbers().profile == 0 && goes_beyond(row, cdb)
    }

    /// What a command does.
    fn plan_taken(
        &self,
        flags: u8,
        expected: u32,
        target: Target,
        cdb: &Cdb,
    ) -> Result<Plan, Status>
        ensures planned { IfOk result (λ todo. (s : State) → IsLayer self.now.ftl s.translation →
            address_of cdb.now < 2 ^ 32 → todo ≡ plan_of (numbers_of s) target expected cdb.now) }
        // The blocks of a command that passed lie in its unit.
        ensures within { IsOk result → IfSome target.spec (λ unit. address_of cdb.now < 2 ^ 32) }
        ensures passed { IsOk result → (s : State) (r : Request) → IsLayer self.now.ftl s.translation →
            IsBare s self.now → unit_numbers_of s r ≡ target.spec → r.lun ≡ target.lun → r.flags ≡ flags →
            r.expected ≡ expected →
            first_line (lines_for s r cdb.now) ≡ None }
        ensures refused { IfErr result (λ told. (s : State) (r : Request) → IsLayer self.now.ftl s.translation →
            IsBare s self.now → unit_numbers_of s r ≡ target.spec → r.lun ≡ target.lun → r.flags ≡ flags →
            r.expected ≡ expected →
            first_line (lines_for s r cdb.now) ≡ Some told) }
    {
        match self.refusal(target, flags, expected, cdb) {
            Some(refused) => Err(refused),
            None => Ok(plan_of(self.ftl.numbers(), cdb, target, expected)),
        }
    }

    /// Why a command is refused, if it is.
    fn refusal(&self, target: Target, flags: u8, expected: u32, cdb: &Cdb) -> Option<Status>
        ensures what { (s : State) (r : Request) → IsLayer self.now.ftl s.translation →
            IsBare s self.now → unit_numbers_of s r ≡ target.spec → r.lun ≡ target.lun → r.flags ≡ flags →
            r.expected ≡ expected →
            first_line (lines_for s r cdb.now) ≡ result }
        ensures few { result ≡ None → blocks_of cdb.now ≤ greatest_command }
        ensures within { result ≡ None → IfSome target.spec (λ spec. address_of cdb.now < 2 ^ 32) }
    {
        let numbers = self.ftl.numbers();
        if lacks_named(numbers, target.lun, cdb) {
            return Some(Status::CheckCondition(Sense::INVALID_FIELD));
        }
        if wants_saved(cdb) {
            return Some(Status::CheckCondition(Sense::SAVING_UNSUPPORTED));
        }
        if is_too_long(self.command_blocks(), cdb) {
            return Some(Status::CheckCondition(Sense::INVALID_FIELD));
        }
        if has_wrong_list(cdb) {
            return Some(Status::CheckCondition(Sense::LIST_LENGTH));
        }
        let told = told_count(numbers, target.lun, cdb);
        if lacks_data(told, cdb, flags, expected, may_be_cut(numbers, cdb)) {
            return Some(Status::CheckCondition(Sense::INVALID_FIELD));
        }
        if is_out_of_range(cdb, target.spec) {
            return Some(Status::CheckCondition(Sense::OUT_OF_RANGE));
        }
        self.refusal_now(target.spec, expected, cdb)
    }

    /// How many blocks a command may have.
    pub(crate) fn command_blocks(&self) -> u16
        ensures is { (t : Translation) → IsLayer self.now.ftl t → result ≡ command_blocks t.numbers }
        ensures few { result ≤ greatest_command }
    {
        command_blocks(self.ftl.numbers())
    }

    /// The same by what the device is now.
    fn refusal_now(&self, unit: Option<UnitSpec>, expected: u32, cdb: &Cdb) -> Option<Status>
        ensures { (s : State) → IsLayer self.now.ftl s.translation → IsBare s self.now →
            first_line (lines_now s unit expected cdb.now) ≡ result }
    {
        if self.is_too_early(cdb) {
            return Some(Status::CheckCondition(Sense::NOT_READY));
        }
        if self.is_refused_write(unit, cdb) {
            return Some(Status::CheckCondition(Sense::WRITE_PROTECTED));
        }
        if self.fails_test(cdb) {
            return Some(Status::CheckCondition(Sense::SELF_TEST_FAILED));
        }
        if self.lacks_response(cdb) {
            return Some(Status::CheckCondition(Sense::COMMAND_SEQUENCE));
        }
        if self.has_other_response(cdb) {
            return Some(Status::CheckCondition(Sense::INVALID_FIELD));
        }
        if self.is_crowded(&brought(expected, cdb)) {
            return Some(Status::Busy);
        }
        None
    }

    /// Whether the command is taken only once the device is ready for it, and it is not.
    fn is_too_early(&self, cdb: &Cdb) -> bool
        ensures { (s : State) → IsLayer self.now.ftl s.translation →
            result ≡ is_unready s cdb.now }
    {
        needs_mended(cdb) && !self.is_ready_for(cdb)
    }

    /// Whether the device is ready for the command: once it is mended, and, but for TEST UNIT READY, also
    /// if it is locked.
    fn is_ready_for(&self, cdb: &Cdb) -> bool
        ensures { (s : State) → IsLayer self.now.ftl s.translation →
            result ≡ is_ready_for s cdb.now }
    {
        self.ftl.is_mended() || (!tests_unit(cdb) && self.ftl.is_locked())
    }

    /// Whether it asks for a self-test of a locked device.
    fn fails_test(&self, cdb: &Cdb) -> bool
        ensures { (s : State) → IsLayer self.now.ftl s.translation → result ≡ fails_test s cdb.now }
    {
        match cdb {
            Cdb::Diagnose { tests } => *tests && self.ftl.is_locked(),
            _ => false,
        }
    }

    /// Whether it asks for the response to a request, and none waits.
    fn lacks_response(&self, cdb: &Cdb) -> bool
        ensures { (s : State) → IsBare s self.now → result ≡ lacks_response s cdb.now }
    {
        match cdb {
            Cdb::SecurityIn { region, .. } => self.rpmb.waiting(*region) == 0,
            _ => false,
        }
    }

    /// Whether it asks for a response of another length than the one that waits.
    fn has_other_response(&self, cdb: &Cdb) -> bool
        ensures { (s : State) → IsBare s self.now → result ≡ has_other_response s cdb.now }
    {
        match cdb {
            Cdb::SecurityIn { region, length } => self.rpmb.waiting(*region) != *length as usize,
            _ => false,
        }
    }

    /// Whether it brings frames while another command that does is open, or needs more slots than are
    /// free.
    fn is_crowded(&self, cdb: &Cdb) -> bool
        ensures { (s : State) → IsLayer self.now.ftl s.translation → IsBare s self.now →
            result ≡ is_crowded s cdb.now }
    {
        let brings = matches!(cdb, Cdb::SecurityOut { .. });
        (brings && self.set.has_sender())
            || self.ftl.free_slots() < slots_needed(self.command_blocks(), cdb) as usize
    }

    /// Whether the command writes to a protected unit or a locked device, or flushes a locked device
    /// with something pending.
    fn is_refused_write(&self, unit: Option<UnitSpec>, cdb: &Cdb) -> bool
        ensures { (s : State) → IsLayer self.now.ftl s.translation → IsBare s self.now →
            result ≡ is_refused_write s unit cdb.now }
    {
        (writes(cdb) && self.is_guarded(unit))
            || (flushes(cdb) && self.ftl.is_locked() && self.ftl.has_pending())
    }

    /// Whether a unit takes no writes now: it is protected, or the device is locked.
    pub(crate) fn is_guarded(&self, unit: Option<UnitSpec>) -> bool
        ensures { (s : State) → IsLayer self.now.ftl s.translation → IsBare s self.now →
            result ≡ is_guarded s unit }
    {
        self.is_protected(unit) || self.ftl.is_locked()
    }

    /// Whether it is a unit that is protected: until the next power cycle, or for ever (JESD220,
    /// 14.1.4.5).
    fn is_protected(&self, unit: Option<UnitSpec>) -> bool
        ensures { (s : State) → IsBare s self.now → result ≡ is_protected s unit }
    {
        match unit {
            Some(unit) => {
                (unit.protect == POWER_ON && self.volatile.power_on)
                    || (unit.protect == PERMANENT && self.is_permanent)
            }
            None => false,
        }
    }
}
