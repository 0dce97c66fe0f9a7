//! The handle that a C program keeps.
ghost use Rattle.std.specs.Prelude.{◌≡◌, None, Some, IfSome, IfNone, false, is_some};
ghost use Rattle.ufs_handle.specs.Calls.{IsOff};

use crate::bare::Bare;
use crate::held::Held;
use crate::loose::Loose;
use std::alloc::Global;
use std::marker::Model;
use std::mem::replace;

/// A handle: it holds a device on the heap, or none. In C it is a pointer and a byte, and a handle
/// whose bytes are zeros holds none.
#[repr(C)]
#[derive(Drop)]
pub struct Handle {
    bare: Bare,
    is_open: bool,
}

impl Model for Handle {
    ghost use Rattle.std.specs.Prelude.{◌≡◌, is_some};
    ghost use Rattle.std.proofs.Common.{sym};
    ghost use Rattle.ufs_handle.specs.declared.bare.Bare.{Bare};

    ghost Value = { Bare };

    ghost view = { λ h. h.bare };

    ghost invariant = { λ h. h.is_open ≡ is_some h.bare.value };

    ghost inverse = { λ b. record { bare = b; is_open = is_some b.value } };

    ghost inverse_ok = { λ h open_is. λ i. record { bare = h.bare; is_open = sym open_is i } };
}

impl Handle {
    /// A handle that holds no device.
    pub fn closed(alloc: Global) -> Handle
        ensures { result.value ≡ None }
    {
        Handle {
            bare: Bare::none(alloc),
            is_open: false,
        }
    }

    /// Whether it holds a device.
    pub fn is_open(&self) -> bool
        ensures { result ≡ is_some self.now.value }
    {
        self.is_open
    }

    /// The device that it holds; it holds none from now on.
    pub fn take(&mut self, alloc: Global) -> Option<Box<Held>>
        ensures some { IfSome result (λ held. self.old.value ≡ Some held.value) }
        ensures none { IfNone result (self.old.value ≡ None) }
        ensures after { self.new.value ≡ None }
    {
        if !self.is_open {
            return None;
        }
        self.is_open = false;
        let bare = replace(&mut self.bare, Bare::none(alloc));
        Some(bare.into_loose().into_box())
    }

    /// The device that it holds, if its power is on; it holds none from now on.
    pub fn take_on(&mut self, alloc: Global) -> Option<Box<Held>>
        ensures some { IfSome result (λ held. (self.old.value ≡ Some held.value) × (held.value.is_off ≡ false)
            × (self.new.value ≡ None)) }
        ensures none { IfNone result (IsOff self.old.value × (self.new.value ≡ self.old.value)) }
    {
        let held = self.take(alloc)?;
        if held.is_off() {
            self.put(held);
            return None;
        }
        Some(held)
    }

    /// It holds this device from now on, where it held none.
    pub fn put(&mut self, held: Box<Held>)
        requires { self.old.value ≡ None }
        ensures { self.new.value ≡ Some held.value }
    {
        self.bare = Bare::of(Loose::of(held));
        self.is_open = true;
    }
}
