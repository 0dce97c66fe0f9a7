//! A device that several threads open.
ghost use Rattle.std.specs.Prelude.{◌≡◌, IfErr, IfOk, map};
ghost use Rattle.ufs_spec.specs.Cells.{Cells, Shows};
ghost use Rattle.ufs_spec.specs.Lives.{Fit, IsOpened, array_of, bad_of};
ghost use Rattle.ufs_spec.specs.Refusals.{State};
ghost use Rattle.ufs_spec.specs.Sound.{Sound, Suits};
ghost use Rattle.device.specs.Describes.{Describes};
ghost use Rattle.device.specs.Opened.{HasScanned};
ghost use Rattle.recovery.specs.Found.{IsScanFault};

use device::Device;
use geometry::Config;
use nand_model::Die;
use recovery::scan_parallel;
use std::alloc::Global;
use std::thread::Threads;
use ufs_spec::OpenFault;

/// What `Device::open` opens, over dies that so many workers read, each in a thread of its own: 0
/// count as 1, and more workers than dies as the number of dies. The dies of a worker that cannot
/// be started are read by the caller. It reads each page once and writes nothing, and after an
/// error the dies are as before too. The dies are as many and as large as the configuration says.
///
/// # Errors
///
/// Those of `Device::open`: `NoMemory` if memory was refused, `ReadFault` if the read of that place
/// failed, else `OtherConfig` if the dies hold another configuration. Of several reads that failed
/// in this call, any may be the one told.
pub fn open_parallel<R: Threads + Sync, D: Die + Send>(
    rt: &R,
    alloc: Global,
    config: Config,
    dies: &mut [D],
    workers: usize,
) -> Result<Device, OpenFault>
    requires fit { Fit config (map D.state dies.old) }
    ensures same { map D.state dies.new ≡ map D.state dies.old }
    // Over dies whose pages are sound it is the device that the definitions open over them.
    ensures described { IfOk result (λ d. (s : State) → Sound (array_of (map D.state dies.old)) →
        IsOpened config (array_of (map D.state dies.old)) (bad_of (map D.state dies.old)) s →
        Describes d s) }
    // Over any dies, sound or not, it has what a scan of them finds, and they suit the configuration.
    ensures found { IfOk result (HasScanned config (map D.state dies.old)) }
    ensures suits { IfOk result (λ d. Suits config (array_of (map D.state dies.old))) }
    ensures fault { IfErr result (λ e. (c : Cells) → Shows (array_of (map D.state dies.old)) c →
        IsScanFault config c (map D.failed dies.old) (map D.failed dies.new) e) }
{
    let found = scan_parallel(rt, alloc, dies, &config, workers)?;
    Device::from_found(alloc, config, found)
}
