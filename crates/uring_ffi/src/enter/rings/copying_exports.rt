//! By which ways memory of the application's is copied, for C: a function of `c/include/wulgach_waits.h`.
ghost use Rattle.std.specs.Prelude.{◌≡◌};
ghost use Rattle.uring_enter.specs.Rings.Copying as spec;
ghost use Rattle.uring_ffi.specs.Enter.Rings.CopyingForm.{way_of, word_of_copy};

use uring_enter::{CopyOnto, Way, next_way};

/// Returns how a copy of so many bytes goes on after this, which copied so many, or came to this error.
#[unsafe(no_mangle)]
pub extern "C" fn wulgach_copying_next(last: u32, copied: i64, size: u64) -> u32
    ensures { result ≡ word_of_copy (spec.next_way (way_of last) copied size) }
{
    let way = match last {
        0 => Some(Way::Process),
        1 => Some(Way::Pipe),
        2 => Some(Way::Plain),
        _ => None,
    };
    match next_way(way, copied, size) {
        CopyOnto::Goes(way) => way as u32,
        CopyOnto::IsCopied => 3,
        CopyOnto::Fails => 4,
    }
}
