//! Whether dies have the sizes of a configuration.
ghost use Rattle.std.specs.Prelude.{◌≡◌, ◌<◌, true, false, map};
ghost use Rattle.std.specs.List.{All};
ghost use Rattle.ufs_spec.specs.Dies.{IsOfSize};
ghost use Rattle.ufs_spec.specs.Lives.{Fit};

use geometry::Config;
use nand_model::Die;

/// Whether the dies are as many and as large as the configuration says.
pub fn fit<D: Die>(config: &Config, dies: &[D]) -> bool
    ensures fit { result ≡ true → Fit config.now (map D.state dies.now) }
    ensures unfit { result ≡ false → Fit config.now (map D.state dies.now) → ⊥ }
{
    let numbers = config.numbers();
    dies.len() == numbers.dies as usize && are_of_size(dies, numbers.blocks, numbers.pages)
}

/// Whether each of the dies has this size.
fn are_of_size<D: Die>(dies: &[D], blocks: u16, pages: u16) -> bool
    ensures sized { result ≡ true → All (IsOfSize blocks pages) (map D.state dies.now) }
    ensures not_sized { 0 < blocks → result ≡ false → All (IsOfSize blocks pages) (map D.state dies.now) → ⊥ }
{
    for die in dies {
        if !is_of_size(die, blocks, pages) {
            return false;
        }
    }
    true
}

/// Whether the die has so many blocks, each of so many pages.
fn is_of_size<D: Die>(die: &D, blocks: u16, pages: u16) -> bool
    ensures sized { result ≡ true → IsOfSize blocks pages (D.state die.now) }
    ensures not_sized { 0 < blocks → result ≡ false → IsOfSize blocks pages (D.state die.now) → ⊥ }
{
    die.blocks() == blocks && die.pages() == pages
}
