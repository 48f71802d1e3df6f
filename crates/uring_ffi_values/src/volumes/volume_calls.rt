//! The calls of a volume, made on the volume in a place. Each takes the volume out, and puts it back; its box doesn't move.
ghost use Rattle.std.specs.Prelude.{◌≡◌, Some, IsSome, IsSomeAnd, if◌then◌else◌};
ghost use Rattle.uring_volume.specs.Choices.{issued, named, has_safe};
ghost use Rattle.uring_volume.specs.Volume.{with_event, is_one_of, running_writes, running_syncs};
ghost use Rattle.uring_volume.specs.declared.event.Event.TheVariants.{WriteEnded, WriteFailed, SyncEnded, SyncFailed};
ghost use Rattle.uring_ffi_values.specs.Boxes.Places.{volume_in};

use crate::volumes::volume_place::VolumePlace;
use std::alloc::Global;

impl VolumePlace {
    /// Ends a running write with success. It returns whether a write of this number ran.
    pub fn end_write(&mut self, alloc: Global, n: u64) -> bool
        requires { IsSome (volume_in self.old) }
        ensures { IsSomeAnd (volume_in self.old)
            (λ v. (result ≡ is_one_of n (running_writes v.history))
            × (volume_in self.new ≡ Some (if result then with_event (WriteEnded n) v else v))) }
    {
        let mut volume = self.take_full(alloc);
        let ran = volume.end_write(n);
        self.put(volume);
        ran
    }

    /// Ends a running write with a failure. It returns whether a write of this number ran.
    pub fn fail_write(&mut self, alloc: Global, n: u64) -> bool
        requires { IsSome (volume_in self.old) }
        ensures { IsSomeAnd (volume_in self.old)
            (λ v. (result ≡ is_one_of n (running_writes v.history))
            × (volume_in self.new ≡ Some (if result then with_event (WriteFailed n) v else v))) }
    {
        let mut volume = self.take_full(alloc);
        let ran = volume.fail_write(n);
        self.put(volume);
        ran
    }

    /// Ends a running sync with success. It returns whether a sync of this number ran.
    pub fn end_sync(&mut self, alloc: Global, s: u64) -> bool
        requires { IsSome (volume_in self.old) }
        ensures { IsSomeAnd (volume_in self.old)
            (λ v. (result ≡ is_one_of s (running_syncs v.history))
            × (volume_in self.new ≡ Some (if result then with_event (SyncEnded s) v else v))) }
    {
        let mut volume = self.take_full(alloc);
        let ran = volume.end_sync(s);
        self.put(volume);
        ran
    }

    /// Ends a running sync with an error. It returns whether a sync of this number ran.
    pub fn fail_sync(&mut self, alloc: Global, s: u64) -> bool
        requires { IsSome (volume_in self.old) }
        ensures { IsSomeAnd (volume_in self.old)
            (λ v. (result ≡ is_one_of s (running_syncs v.history))
            × (volume_in self.new ≡ Some (if result then with_event (SyncFailed s) v else v))) }
    {
        let mut volume = self.take_full(alloc);
        let ran = volume.fail_sync(s);
        self.put(volume);
        ran
    }

    /// Whether a write is safe.
    pub fn is_safe(&mut self, alloc: Global, n: u64) -> bool
        requires { IsSome (volume_in self.old) }
        ensures kept { volume_in self.new ≡ volume_in self.old }
        ensures safe { IsSomeAnd (volume_in self.old)
            (λ v. result ≡ has_safe v.history (named n (issued v.history))) }
    {
        let volume = self.take_full(alloc);
        let is_safe = volume.is_safe(n);
        self.put(volume);
        is_safe
    }
}
