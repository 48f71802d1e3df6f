//! What a C program's handle stands for.
ghost use Rattle.std.specs.Prelude.{◌≡◌, Option, Some, None, IsSome};
ghost use Rattle.uring_ffi_values.specs.Boxes.Slots.{Held, slot_owns, held_coded, a_core, a_machine, a_volume, a_crash_machine, some_outcomes, core_of, machine_of, volume_of, crash_machine_of, outcomes_of};

use crate::boxes::parts::Parts;
use crate::outcomes::outcome_list::OutcomeList;
use std::alloc::Global;
use std::marker::Model;
use uring_crash_machine::CrashMachine;
use uring_machine::{Core, Machine};
use uring_volume::Volume;

/// Nothing, or a pointer to a core, a machine, a volume, a machine whose power may fail or a list of outcomes, in a block of its own.
#[repr(C)]
#[derive(Drop)]
pub struct Slot {
    at: *mut u8,
    alloc: Global,
    pub ghost held: { Option Held } by { held_coded },
}

impl Model for Slot {
    ghost also_owns = { λ s. slot_owns s.alloc s.at s.held };
}

impl Slot {
    /// A slot with nothing in it.
    pub fn none(alloc: Global) -> Slot
        ensures { result.held ≡ None }
    {
        Slot {
            at: std::ptr::null_mut(),
            alloc,
        }
    }

    /// The slot of the parts of a core's box.
    pub fn of_core(parts: Parts<Core, Global>) -> Slot
        ensures { result.held ≡ Some (a_core parts.value) }
    {
        let Parts { ptr, alloc } = parts;
        Slot {
            at: ptr as *mut u8,
            alloc,
        }
    }

    /// The slot of the parts of a machine's box.
    pub fn of_machine(parts: Parts<Machine, Global>) -> Slot
        ensures { result.held ≡ Some (a_machine parts.value) }
    {
        let Parts { ptr, alloc } = parts;
        Slot {
            at: ptr as *mut u8,
            alloc,
        }
    }

    /// The slot of the parts of a volume's box.
    pub fn of_volume(parts: Parts<Volume, Global>) -> Slot
        ensures { result.held ≡ Some (a_volume parts.value) }
    {
        let Parts { ptr, alloc } = parts;
        Slot {
            at: ptr as *mut u8,
            alloc,
        }
    }

    /// The slot of the parts of a crash machine's box.
    pub fn of_crash_machine(parts: Parts<CrashMachine, Global>) -> Slot
        ensures { result.held ≡ Some (a_crash_machine parts.value) }
    {
        let Parts { ptr, alloc } = parts;
        Slot {
            at: ptr as *mut u8,
            alloc,
        }
    }

    /// The slot of the parts of the box of a list of outcomes.
    pub fn of_outcomes(parts: Parts<OutcomeList, Global>) -> Slot
        ensures { result.held ≡ Some (some_outcomes parts.value) }
    {
        let Parts { ptr, alloc } = parts;
        Slot {
            at: ptr as *mut u8,
            alloc,
        }
    }

    /// The parts of the box of the core in a slot. Condition: there is one.
    pub fn into_core(self) -> Parts<Core, Global>
        requires { IsSome (core_of self.held) }
        ensures { Some result.value ≡ core_of self.held }
    {
        let Slot { at, alloc } = self;
        Parts {
            ptr: at as *mut Core,
            alloc,
        }
    }

    /// The parts of the box of the machine in a slot. Condition: there is one.
    pub fn into_machine(self) -> Parts<Machine, Global>
        requires { IsSome (machine_of self.held) }
        ensures { Some result.value ≡ machine_of self.held }
    {
        let Slot { at, alloc } = self;
        Parts {
            ptr: at as *mut Machine,
            alloc,
        }
    }

    /// The parts of the box of the volume in a slot. Condition: there is one.
    pub fn into_volume(self) -> Parts<Volume, Global>
        requires { IsSome (volume_of self.held) }
        ensures { Some result.value ≡ volume_of self.held }
    {
        let Slot { at, alloc } = self;
        Parts {
            ptr: at as *mut Volume,
            alloc,
        }
    }

    /// The parts of the box of the crash machine in a slot. Condition: there is one.
    pub fn into_crash_machine(self) -> Parts<CrashMachine, Global>
        requires { IsSome (crash_machine_of self.held) }
        ensures { Some result.value ≡ crash_machine_of self.held }
    {
        let Slot { at, alloc } = self;
        Parts {
            ptr: at as *mut CrashMachine,
            alloc,
        }
    }

    /// The parts of the box of the outcomes in a slot. Condition: there are some.
    pub fn into_outcomes(self) -> Parts<OutcomeList, Global>
        requires { IsSome (outcomes_of self.held) }
        ensures { Some result.value ≡ outcomes_of self.held }
    {
        let Slot { at, alloc } = self;
        Parts {
            ptr: at as *mut OutcomeList,
            alloc,
        }
    }
}
