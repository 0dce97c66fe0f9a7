//! What the body of a mark says: the numbers of the configuration and perhaps a fence.
ghost use Rattle.std.specs.Prelude.{◌≡◌, ◌≤◌, ◌+◌, ◌↔◌, None, Option, Some, All, IfSome, IsTrue, length, slice_index};
ghost use Rattle.ufs_bytes.specs.Fields.{field_at};
ghost use Rattle.ufs_spec.specs.Cells.{IsFence, IsMarkBody, NumbersFit, UnitFits};
ghost use Rattle.ufs_spec.specs.declared.configs.Numbers.{Numbers};
ghost use Rattle.ufs_spec.specs.declared.flash.Fence.{Fence};

use crate::contents::Mark;
use crate::mark::{ENTRIES, ENTRY, mark_body};
use arrayvec::ArrayVec;
use ufs_bytes::{Block, read_u16, read_u32, read_u64};
use ufs_spec::{Fence, Numbers, Opened, UnitSpec};

// How many units a device has at most.
const MOST_UNITS: u8 = 8;

/// The mark that a page with a mark's tag is. Its body is read, written again and compared; `None`
/// is for a body that is not that of a mark.
pub fn mark_in(opened: &Opened) -> Option<Mark>
    ensures mark { let o = opened.now in IfSome result (λ m.
        (m.number ≡ o.tag.number) × (m.records ≡ o.tag.frontier) × IsMarkBody m.fence m.numbers o.body) }
    ensures none { result ≡ None → (fence : Option Fence) (n : Numbers) →
        IsMarkBody fence n opened.now.body → ⊥ }
{
    let fence = fence_in(&opened.body);
    let numbers = numbers_in(&opened.body)?;
    if !is_fence(fence) || mark_body(&numbers, fence) != opened.body {
        return None;
    }
    Some(Mark {
        number: opened.tag.number,
        records: opened.tag.frontier,
        fence,
        numbers,
    })
}

// The fence of a mark with this body. There is none if the last number is 0.
fn fence_in(body: &Block) -> Option<Fence>
    ensures { (fence : Option Fence) (n : Numbers) → IsMarkBody fence n body.now → result ≡ fence }
{
    let first = read_u64(body, 0);
    let last = read_u64(body, 8);
    if last == 0 {
        return None;
    }
    Some(Fence { first, last })
}

// Whether there is no fence, or one with a number in it.
fn is_fence(fence: Option<Fence>) -> bool
    ensures { IsTrue result ↔ ((f : Fence) → fence ≡ Some f → IsFence f) }
{
    match fence {
        Some(fence) => fence.first <= fence.last && 0 < fence.last,
        None => true,
    }
}

// The numbers of a mark with this body. There are none if it says more units than a device has. No
// byte of it says the profile or the serial number: each mark reads as that of profile 0 and number 1.
fn numbers_in(body: &Block) -> Option<Numbers>
    ensures fit { IfSome result NumbersFit }
    ensures read { (fence : Option Fence) (n : Numbers) → IsMarkBody fence n body.now →
        result ≡ Some n }
{
    let count = body[17];
    if count > MOST_UNITS {
        return None;
    }
    Some(Numbers {
        dies: body[16],
        blocks: read_u16(body, 18),
        pages: read_u16(body, 20),
        units: units_in(body, count),
        rpmb: [body[22], body[28], body[29], body[30]],
        slots: read_u16(body, 24),
        spare: read_u16(body, 26),
        profile: 0,
        serial: 1,
    })
}

// The units in the first entries.
fn units_in(body: &Block, count: u8) -> ArrayVec<UnitSpec, 8>
    requires { count ≤ 8 }
    ensures fit { (length result.items ≤ 8) × All UnitFits result.items }
    ensures read { (fence : Option Fence) (n : Numbers) → IsMarkBody fence n body.now →
        count ≡ length n.units.items → result ≡ n.units }
{
    let mut units = ArrayVec::new();
    for index in 0..usize::from(count) {
        units.push(unit_at(body, ENTRIES + ENTRY * index));
    }
    units
}

// The unit in the entry that begins there.
fn unit_at(body: &[u8], start: usize) -> UnitSpec
    requires { start + 8 ≤ length body.now }
    ensures { let b = body.now in result ≡ record {
      blocks = field_at 4 start b;
      boot = slice_index b (start + 4);
      protect = slice_index b (start + 5);
    } }
{
    UnitSpec {
        blocks: read_u32(body, start),
        boot: body[start + 4],
        protect: body[start + 5],
    }
}
