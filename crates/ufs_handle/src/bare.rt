//! The pointer that C keeps.
ghost use Rattle.std.specs.Prelude.{◌≡◌, None, Some, Option, IfNone};
ghost use Rattle.ufs_handle.specs.declared.held.Held.{Held};

use crate::held::Held;
use crate::loose::Loose;
use std::alloc::Global;
use std::marker::Model;

/// A pointer to a device on the heap, which it owns, or to nothing. Its type says nothing of what
/// it leads to, so that a struct which C keeps may have one.
#[repr(C)]
#[derive(Drop)]
pub struct Bare {
    at: *mut u8,
    alloc: Global,
    pub ghost value: { Option Held },
}

impl Model for Bare {
    ghost use Rattle.ufs_handle.specs.Holding.{holds};
    ghost use Rattle.ufs_handle.specs.contracts.held.Held.{the_row};

    ghost also_owns = { λ b. holds the_row b.alloc b.at b.value };
}

impl Bare {
    /// The pointer to what is in the box.
    pub(crate) fn of(loose: Loose<Held, Global>) -> Bare
        ensures { result.value ≡ Some loose.value }
    {
        let Loose { at, alloc } = loose;
        Bare {
            at: at as *mut u8,
            alloc,
        }
    }

    /// The box, where the pointer leads to one.
    pub(crate) fn into_loose(self) -> Loose<Held, Global>
        requires { IfNone self.value ⊥ }
        ensures { self.value ≡ Some result.value }
    {
        let Bare { at, alloc } = self;
        Loose {
            at: at as *mut Held,
            alloc,
        }
    }

    /// A pointer to nothing.
    pub(crate) fn none(alloc: Global) -> Bare
        ensures { result.value ≡ None }
    {
        Bare {
            at: std::ptr::null_mut(),
            alloc,
        }
    }
}
