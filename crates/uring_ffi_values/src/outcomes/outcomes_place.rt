//! A C program's handle of a list of outcomes.
ghost use Rattle.std.specs.Prelude.{◌≡◌, None, Some, IsSome, is_some};
ghost use Rattle.uring_ffi_values.specs.Boxes.Slots.{outcomes_of};

use crate::boxes::parts::Parts;
use crate::boxes::slot::Slot;
use crate::outcomes::outcome_list::OutcomeList;
use std::alloc::Global;
use std::mem;

/// Nothing, or a list of outcomes. `struct wulgach_outcomes` of the header: a struct of zeros is an empty place.
#[repr(C)]
pub struct OutcomesPlace {
    pub slot: Slot,
    pub is_full: bool,
    ghost agrees: { is_some (outcomes_of slot.held) ≡ is_full },
}

impl OutcomesPlace {
    ghost use Rattle.uring_ffi_values.specs.Boxes.Places.{outcomes_in};

    /// A place with nothing in it.
    pub fn empty(alloc: Global) -> OutcomesPlace
        ensures { outcomes_in result ≡ None }
    {
        OutcomesPlace {
            slot: Slot::none(alloc),
            is_full: false,
        }
    }

    /// The outcomes of a full place, which is empty from then on.
    pub fn take_full(&mut self, alloc: Global) -> Box<OutcomeList, Global>
        requires { IsSome (outcomes_in self.old) }
        ensures taken { outcomes_in self.old ≡ Some result.value }
        ensures empty { outcomes_in self.new ≡ None }
    {
        let slot = mem::replace(&mut self.slot, Slot::none(alloc));
        self.is_full = false;
        slot.into_outcomes().into_box()
    }

    /// Puts outcomes into a place. What was there is freed.
    pub fn put(&mut self, outcomes: Box<OutcomeList, Global>)
        ensures { outcomes_in self.new ≡ Some outcomes.value }
    {
        *self = OutcomesPlace {
            slot: Slot::of_outcomes(Parts::of(outcomes)),
            is_full: true,
        };
    }
}

impl Drop for OutcomesPlace {
    fn drop(self) {
        let OutcomesPlace { slot, is_full } = self;
        if is_full {
            drop(slot.into_outcomes().into_box());
        }
    }
}
