//! A C program's handle of a machine.
ghost use Rattle.std.specs.Prelude.{◌≡◌, None, Some, IsSome, is_some};
ghost use Rattle.uring_ffi_values.specs.Boxes.Slots.{machine_of};

use crate::boxes::parts::Parts;
use crate::boxes::slot::Slot;
use std::alloc::Global;
use std::mem;
use uring_machine::Machine;

/// Nothing, or a machine. `struct wulgach_machine` of the header: a struct of zeros is an empty place.
#[repr(C)]
pub struct MachinePlace {
    pub slot: Slot,
    pub is_full: bool,
    ghost agrees: { is_some (machine_of slot.held) ≡ is_full },
}

impl MachinePlace {
    ghost use Rattle.uring_ffi_values.specs.Boxes.Places.{machine_in};

    /// A place with nothing in it.
    pub fn empty(alloc: Global) -> MachinePlace
        ensures { machine_in result ≡ None }
    {
        MachinePlace {
            slot: Slot::none(alloc),
            is_full: false,
        }
    }

    /// The machine of a full place, which is empty from then on.
    pub fn take_full(&mut self, alloc: Global) -> Box<Machine, Global>
        requires { IsSome (machine_in self.old) }
        ensures taken { machine_in self.old ≡ Some result.value }
        ensures empty { machine_in self.new ≡ None }
    {
        let slot = mem::replace(&mut self.slot, Slot::none(alloc));
        self.is_full = false;
        slot.into_machine().into_box()
    }

    /// Puts a machine into a place. What was there is freed.
    pub fn put(&mut self, machine: Box<Machine, Global>)
        ensures { machine_in self.new ≡ Some machine.value }
    {
        *self = MachinePlace {
            slot: Slot::of_machine(Parts::of(machine)),
            is_full: true,
        };
    }
}

impl Drop for MachinePlace {
    fn drop(self) {
        let MachinePlace { slot, is_full } = self;
        if is_full {
            drop(slot.into_machine().into_box());
        }
    }
}
