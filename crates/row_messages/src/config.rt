//! The configuration of the worked rows, and two small ones.
ghost use Rattle.std.specs.Prelude.{◌≡◌, IfErr, IfOk};
ghost use Rattle.row_messages.specs.RowShape.{HasNumbers, IsRefused, row_numbers, row_shape, small_numbers};
ghost use Rattle.ufs_spec.specs.Plain.{shape_of_numbers};

use geometry::Config;
use ufs_spec::{ConfigFault, UnitSpec};

/// 4 dies of 16 blocks of 64 pages, units of 256, 64 and 64 blocks, the last two of them boot units, one
/// step of RPMB region 0 and no other region, 64 slots, 4 spare blocks.
#[tactic(auto, unfolding(crate::specs::RowShape::HasNumbers, crate::specs::RowShape::IsRefused))]
pub fn row_config() -> Result<Config, ConfigFault>
    ensures numbers { IfOk result (HasNumbers row_numbers) }
    ensures fault { IfErr result (IsRefused row_numbers) }
    ensures shape { IfOk result (λ c. shape_of_numbers c ≡ row_shape) }
{
    let units = [
        UnitSpec {
            blocks: 256,
            boot: 0,
            protect: 0,
        },
        UnitSpec {
            blocks: 64,
            boot: 1,
            protect: 0,
        },
        UnitSpec {
            blocks: 64,
            boot: 2,
            protect: 0,
        },
    ];
    Config::new(4, 16, 64, &units, [1, 0, 0, 0], 64, 4)
}

/// Two dies of 20 blocks of 16 pages, a unit of 64 blocks, and no spare block.
#[tactic(auto, unfolding(crate::specs::RowShape::HasNumbers, crate::specs::RowShape::IsRefused))]
pub fn small_config() -> Result<Config, ConfigFault>
    ensures numbers { IfOk result (HasNumbers (small_numbers 2 0)) }
    ensures fault { IfErr result (IsRefused (small_numbers 2 0)) }
    ensures dies { IfOk result (λ c. (c.dies ≡ 2) × (c.blocks ≡ 20) × (c.pages ≡ 16)) }
{
    spared_config(2, 0)
}

/// So many dies of 20 blocks of 16 pages, of which so many are spare, and a unit of 64 blocks.
///
/// # Errors
///
/// Those of `Config::new`.
#[tactic(auto, unfolding(crate::specs::RowShape::HasNumbers, crate::specs::RowShape::IsRefused))]
pub fn spared_config(dies: u8, spare: u16) -> Result<Config, ConfigFault>
    ensures numbers { IfOk result (HasNumbers (small_numbers dies spare)) }
    ensures fault { IfErr result (IsRefused (small_numbers dies spare)) }
    ensures dies { IfOk result (λ c. (c.dies ≡ dies) × (c.blocks ≡ 20) × (c.pages ≡ 16)) }
{
    let units = [UnitSpec {
        blocks: 64,
        boot: 0,
        protect: 0,
    }];
    Config::new(dies, 20, 16, &units, [1, 0, 0, 0], 64, spare)
}
