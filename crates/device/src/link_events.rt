//! LINK EVENT: a reset of the link ends all that is open between the host and the device (this profile).
ghost use Rattle.std.specs.Prelude.{◌≡◌, OnErr, OnOk};
ghost use Rattle.ufs_spec.specs.LinkEvents.{link_reset, volatile_reset};
ghost use Rattle.ufs_spec.specs.Machine.{event_fault, result_of};
ghost use Rattle.ufs_spec.specs.Refusals.{State};
ghost use Rattle.ufs_spec.specs.Translation.{Translation};
ghost use Rattle.ftl_core.specs.Public.{Describes as IsLayer};
ghost use Rattle.device.specs.Describes.{Describes, IsBehind};
ghost use Rattle.device.specs.LinkEvents.{reset_core};

use crate::device::Device;
use task_set::Meant;
use ufs_spec::codes::HARDWARE_RESET;
use ufs_spec::{HostFault, Volatile};

/// What is volatile after a LINK EVENT of this kind: what a life begins with, but that the clock stays as it
/// is, and the units which are protected until the next power cycle stay so, unless it was a hardware
/// reset.
fn volatile_reset(kind: u8, volatile: Volatile) -> Volatile
    ensures { result ≡ volatile_reset kind volatile }
{
    let mut after = Volatile::NEW;
    after.power_on = volatile.power_on && kind != HARDWARE_RESET;
    after.clock = volatile.clock;
    after
}

impl Device {
    /// Takes a LINK EVENT of this kind. All tasks end as aborted ones, and all short exchanges without their
    /// replies.
    ///
    /// # Errors
    ///
    /// `Code` on a device of profile 0, which knows no such message. Nothing changes then.
    pub(crate) fn link_event(&mut self, kind: u8) -> Result<(), HostFault>
        ensures refused { OnErr result (self.new ≡ self.old) }
        ensures answer { (t : Translation) → IsLayer self.old.ftl t → result ≡ result_of (event_fault t.numbers) }
        ensures taken { (s : State) → Describes self.old s → OnOk result (IsBehind self.new (link_reset s kind)) }
    {
        if self.is_of_profile_0() {
            return Err(HostFault::Code);
        }
        self.abort_all(Meant {
            lun: None,
            tag: None,
        });
        self.forget_open(kind);
        Ok(())
    }

    /// No short exchange is open any more, all registers of the RPMB are empty, and what is volatile is as
    /// after a LINK EVENT of this kind.
    fn forget_open(&mut self, kind: u8)
        ensures { self.new ≡ reset_core self.old kind }
    {
        self.set.end_shorts();
        self.rpmb.forget_all();
        self.volatile = volatile_reset(kind, self.volatile);
    }
}
