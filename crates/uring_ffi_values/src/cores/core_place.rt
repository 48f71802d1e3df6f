//! A C program's handle of a core.
ghost use Rattle.std.specs.Prelude.{◌≡◌, None, Some, IsSome, is_some};
ghost use Rattle.uring_ffi_values.specs.Boxes.Slots.{core_of};

use crate::boxes::parts::Parts;
use crate::boxes::slot::Slot;
use std::alloc::Global;
use std::mem;
use uring_machine::Core;

/// Nothing, or a core. `struct wulgach_core` of the header: a struct of zeros is an empty place.
#[repr(C)]
pub struct CorePlace {
    pub slot: Slot,
    pub is_full: bool,
    ghost agrees: { is_some (core_of slot.held) ≡ is_full },
}

impl CorePlace {
    ghost use Rattle.uring_ffi_values.specs.Boxes.Places.{core_in};

    /// A place with nothing in it.
    #[inline(always)]
    pub fn empty(alloc: Global) -> CorePlace
        ensures { core_in result ≡ None }
    {
        CorePlace {
            slot: Slot::none(alloc),
            is_full: false,
        }
    }

    /// The core of a full place, which is empty from then on.
    #[inline(always)]
    pub fn take_full(&mut self, alloc: Global) -> Box<Core, Global>
        requires { IsSome (core_in self.old) }
        ensures taken { core_in self.old ≡ Some result.value }
        ensures empty { core_in self.new ≡ None }
    {
        let slot = mem::replace(&mut self.slot, Slot::none(alloc));
        self.is_full = false;
        slot.into_core().into_box()
    }

    /// Puts a core into a place. What was there is freed.
    #[inline(always)]
    pub fn put(&mut self, core: Box<Core, Global>)
        ensures { core_in self.new ≡ Some core.value }
    {
        *self = CorePlace {
            slot: Slot::of_core(Parts::of(core)),
            is_full: true,
        };
    }
}

impl Drop for CorePlace {
    fn drop(self) {
        let CorePlace { slot, is_full } = self;
        if is_full {
            drop(slot.into_core().into_box());
        }
    }
}
