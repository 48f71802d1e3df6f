//! A C program's handle of a machine whose power may fail.
ghost use Rattle.std.specs.Prelude.{◌≡◌, None, Some, IsSome, is_some};
ghost use Rattle.uring_ffi_values.specs.Boxes.Slots.{crash_machine_of};

use crate::boxes::parts::Parts;
use crate::boxes::slot::Slot;
use std::alloc::Global;
use std::mem;
use uring_crash_machine::CrashMachine;

/// Nothing, or a machine whose power may fail. `struct wulgach_crash_machine` of the header: a struct of zeros is an empty place.
#[repr(C)]
pub struct CrashMachinePlace {
    pub slot: Slot,
    pub is_full: bool,
    ghost agrees: { is_some (crash_machine_of slot.held) ≡ is_full },
}

impl CrashMachinePlace {
    ghost use Rattle.uring_ffi_values.specs.Boxes.Places.{crash_machine_in};

    /// A place with nothing in it.
    pub fn empty(alloc: Global) -> CrashMachinePlace
        ensures { crash_machine_in result ≡ None }
    {
        CrashMachinePlace {
            slot: Slot::none(alloc),
            is_full: false,
        }
    }

    /// The machine of a full place, which is empty from then on.
    pub fn take_full(&mut self, alloc: Global) -> Box<CrashMachine, Global>
        requires { IsSome (crash_machine_in self.old) }
        ensures taken { crash_machine_in self.old ≡ Some result.value }
        ensures empty { crash_machine_in self.new ≡ None }
    {
        let slot = mem::replace(&mut self.slot, Slot::none(alloc));
        self.is_full = false;
        slot.into_crash_machine().into_box()
    }

    /// Puts a machine into a place. What was there is freed.
    pub fn put(&mut self, machine: Box<CrashMachine, Global>)
        ensures { crash_machine_in self.new ≡ Some machine.value }
    {
        *self = CrashMachinePlace {
            slot: Slot::of_crash_machine(Parts::of(machine)),
            is_full: true,
        };
    }
}

impl Drop for CrashMachinePlace {
    fn drop(self) {
        let CrashMachinePlace { slot, is_full } = self;
        if is_full {
            drop(slot.into_crash_machine().into_box());
        }
    }
}
