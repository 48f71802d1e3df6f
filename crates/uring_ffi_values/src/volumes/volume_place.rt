//! A C program's handle of a volume.
ghost use Rattle.std.specs.Prelude.{◌≡◌, None, Some, IsSome, is_some};
ghost use Rattle.uring_ffi_values.specs.Boxes.Slots.{volume_of};

use crate::boxes::parts::Parts;
use crate::boxes::slot::Slot;
use std::alloc::Global;
use std::mem;
use uring_volume::Volume;

/// Nothing, or a volume. `struct wulgach_volume` of the header: a struct of zeros is an empty place.
#[repr(C)]
pub struct VolumePlace {
    pub slot: Slot,
    pub is_full: bool,
    ghost agrees: { is_some (volume_of slot.held) ≡ is_full },
}

impl VolumePlace {
    ghost use Rattle.uring_ffi_values.specs.Boxes.Places.{volume_in};

    /// A place with nothing in it.
    pub fn empty(alloc: Global) -> VolumePlace
        ensures { volume_in result ≡ None }
    {
        VolumePlace {
            slot: Slot::none(alloc),
            is_full: false,
        }
    }

    /// The volume of a full place, which is empty from then on.
    pub fn take_full(&mut self, alloc: Global) -> Box<Volume, Global>
        requires { IsSome (volume_in self.old) }
        ensures taken { volume_in self.old ≡ Some result.value }
        ensures empty { volume_in self.new ≡ None }
    {
        let slot = mem::replace(&mut self.slot, Slot::none(alloc));
        self.is_full = false;
        slot.into_volume().into_box()
    }

    /// Puts a volume into a place. What was there is freed.
    pub fn put(&mut self, volume: Box<Volume, Global>)
        ensures { volume_in self.new ≡ Some volume.value }
    {
        *self = VolumePlace {
            slot: Slot::of_volume(Parts::of(volume)),
            is_full: true,
        };
    }
}

impl Drop for VolumePlace {
    fn drop(self) {
        let VolumePlace { slot, is_full } = self;
        if is_full {
            drop(slot.into_volume().into_box());
        }
    }
}
