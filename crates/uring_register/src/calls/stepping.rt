//! In which steps what is to be registered is read, looked at and made. Each set is done by rising bits, until a step fails, with whose fault it ends. io_uring_register(2), ERRORS.

ghost use Rattle.std.specs.Prelude.{◌≡◌, if◌then◌else◌};
ghost use Rattle.uring_register.specs.Calls.Stepping as spec;

/// How a row of lists of files or buffers is read, where there is a list of tags, and of descriptors or vectors: its tag (1), then the other (2), which an update or a placing reads also where there is no list.
pub fn reading_steps(has_tags: bool, has_list: bool, is_update: bool) -> u32
    ensures { result ≡ spec.reading_steps has_tags has_list is_update }
{
    bit(1, has_tags) | bit(2, has_list || is_update)
}

/// How the file of a descriptor is made, which is to be registered, with this tag, 0 being none, or is held for a request: one that is to be registered is open (1), there is memory for its tag (2); it is no ring's (4), and it is copied (8).
pub fn making_steps(is_registered: bool, tag: u64) -> u32
    ensures { result ≡ spec.making_steps is_registered tag }
{
    bit(1, is_registered) | bit(2, is_registered && has_tag(tag)) | bit(4, true) | bit(8, true)
}

/// How a ring of provided buffers is registered: its form is looked at (1), then its pages (2), and there is memory for its group (4).
pub fn ring_steps() -> u32
    ensures { result ≡ spec.ring_steps }
{
    bit(1, true) | bit(2, true) | bit(4, true)
}

/// How the buffer of a row is made that names one, with this tag, 0 being none: its pages are looked at (1), and there is memory for its tag (2) and for it (4).
pub fn buffer_steps(tag: u64) -> u32
    ensures { result ≡ spec.buffer_steps tag }
{
    bit(1, true) | bit(2, has_tag(tag)) | bit(4, true)
}

fn has_tag(tag: u64) -> bool
    ensures { result ≡ spec.has_tag tag }
{
    tag != 0
}

/// How a list of so many restrictions is registered: the ring and the length of the list are looked at (1), the list is read, if it has rows (2), and its rows are taken, one after the other (4).
pub fn restricting_steps(count: u32) -> u32
    ensures { result ≡ spec.restricting_steps count }
{
    bit(1, true) | bit(2, count > 0) | bit(4, true)
}

/// How a row of rings that lose their numbers is carried out: it is read (1), judged (2), and its ring loses its number (4).
pub fn dismissing_steps() -> u32
    ensures { result ≡ spec.dismissing_steps }
{
    let judged = bit(1, true) | bit(2, true);
    judged | bit(4, true)
}

/// What a request does that closes a descriptor with this fault, or 0: those before it keep their files (1), and it is closed (2).
pub fn closing_steps(fault: i32) -> u32
    ensures { result ≡ spec.closing_steps fault }
{
    bit(1, fault >= 0) | bit(2, fault >= 0)
}

fn bit(weight: u32, is_done: bool) -> u32
    ensures { result ≡ (if is_done then weight else 0) }
{
    if is_done { weight } else { 0 }
}
