//! What a host's driver calls: a message is sent, and a reply is waited for.
ghost use Rattle.std.specs.Prelude.{◌≡◌, IfSome, None, false, true};
ghost use Rattle.lanes.specs.Rule.{Did};
ghost use Rattle.lanes.specs.Waiting.{AskedInVain, HeardAfter};
ghost use Rattle.lanes.specs.declared.view.Made.TheVariants as made;

use crate::patience::Patience;
use crate::port::Port;
use crate::tried::Tried;
use nand_model::Die;
use std::sync::Wait;
use std::sync::atomic::{AtomicBool, Ordering};
use std::time::Clock;
use ufs_spec::{HostFault, Upiu};

impl<D: Die> Port<D> {
    /// Hands the device a message, and tries again while another caller has the core, until the flag
    /// is set: `None`, and the device has not heard the message, if it was set before. Else the
    /// device's answer: the fault of a message changes nothing.
    pub fn send<R: Wait + Clock>(
        &mut self,
        rt: &R,
        bytes: &[u8],
        stop: &AtomicBool,
    ) -> Option<Result<(), HostFault>>
        ensures table { self.new.table ≡ self.old.table }
        ensures did { IfSome result (λ answer.
            Did D.state self.old.view (made.Host bytes.now answer) None self.new.view) }
        ensures stopped { result ≡ None → self.new ≡ self.old }
    {
        let mut patience = Patience::new();
        for _ in rt.forever() {
            if stop.load(Ordering::SeqCst) {
                return None;
            }
            match self.try_host(bytes) {
                Tried::Did(answer) => return Some(answer),
                Tried::Busy => patience.did_nothing(rt),
            }
        }
        unreachable!()
    }

    /// Waits for a reply until the flag is set: false, and nothing is written, if none came before.
    pub fn receive<R: Wait + Clock>(&mut self, rt: &R, into: &mut Upiu, stop: &AtomicBool) -> bool
        ensures table { self.new.table ≡ self.old.table }
        ensures heard { result ≡ true →
            HeardAfter D.state self.old.view into.new.items self.new.view }
        ensures stopped { result ≡ false →
            AskedInVain D.state self.old.view self.new.view × (into.new ≡ into.old) }
    {
        let mut patience = Patience::new();
        for _ in rt.forever() {
            if stop.load(Ordering::SeqCst) {
                return false;
            }
            match self.try_reply(into) {
                Tried::Did(true) => return true,
                Tried::Did(false) => patience.did_nothing(rt),
                Tried::Busy => patience.did_nothing(rt),
            }
        }
        unreachable!()
    }
}
