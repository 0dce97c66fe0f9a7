//! Which blocks are bad.
ghost use Rattle.std.specs.Prelude.{◌≡◌, ◌++◌, IfOk, OnOk, length, map};
ghost use Rattle.std.specs.List.{flat_map};
ghost use Rattle.ufs_spec.specs.Lives.{bad_of};
ghost use Rattle.ufs_spec.specs.Translation.{spots};
ghost use Rattle.recovery.specs.Found.{bad_in};

use nand_model::Die;
use std::alloc::{AllocError, Global};
use ufs_spec::Numbers;

/// For each block of each die, in order, whether it is bad. The dies are as many as the numbers say.
#[tactic(auto, using(crate::proofs::bad_listed::BadListed::bad_in_order))]
pub fn bad_blocks<D: Die>(
    alloc: Global,
    dies: &[D],
    numbers: &Numbers,
) -> Result<Vec<bool>, AllocError>
    ensures by_die { IfOk result (λ v. v.items ≡ flat_map (bad_in D.state numbers.now.blocks) dies.now) }
    ensures in_order { IfOk result (λ v. length dies.now ≡ numbers.now.dies →
        v.items ≡ map (bad_of (map D.state dies.now)) (spots numbers.now)) }
{
    bad_rows(alloc, dies, numbers.blocks)
}

/// Die by die, for each of so many blocks whether it is bad.
fn bad_rows<D: Die>(alloc: Global, dies: &[D], blocks: u16) -> Result<Vec<bool>, AllocError>
    ensures { IfOk result (λ v. v.items ≡ flat_map (bad_in D.state blocks) dies.now) }
{
    let mut all = Vec::new(alloc);
    for die in dies {
        append_bad(&mut all, die, blocks)?;
    }
    Ok(all)
}

/// Behind the others, for each block of the die whether it is bad.
fn append_bad<D: Die>(all: &mut Vec<bool>, die: &D, blocks: u16) -> Result<(), AllocError>
    ensures { OnOk result (all.new.items ≡ all.old.items ++ bad_in D.state blocks die.now) }
{
    for block in 0..blocks {
        all.push(die.is_bad(block))?;
    }
    Ok(())
}
