//! What is logged of mapped memory: which maps are looked at, which pages of their files are read, and of which bytes an msync is a sync. mmap(2), msync(2), lseek(2).

ghost use Rattle.std.specs.Prelude.{◌≡◌};
ghost use Rattle.uring_operations.specs.Files.Mapped as spec;
ghost use Rattle.uring_operations.specs.Files.Mapped.{IsChange, IsChangeEnd, IsFirstChange};

/// The bytes of a page.
const PAGE: u64 = 4096;

/// A part of the process's memory that is mapped, and what it is of. proc_pid_maps(5).
#[repr(C)]
#[derive(Clone, Copy, Drop)]
pub struct MappedMemory {
    /// Others see what is written there.
    pub is_shared: bool,

    /// It is of a file on the run's disk.
    pub is_on_disk: bool,

    /// The file's inode, or 0.
    pub file: u64,

    /// The first address,
    pub begin: u64,

    /// and that after the last.
    pub end: u64,

    /// Where in the file it begins.
    pub offset: u64,
}

/// A part of a file.
#[repr(C)]
#[derive(Clone, Copy, Drop)]
pub struct FilePart {
    pub offset: u64,

    pub length: u64,
}

/// Whether a map is looked at, which is protected so, has these flags and came to this: it writes to a file.
pub fn looks_at_map(protection: u32, flags: u32, res: i64) -> bool
    ensures { result ≡ spec.looks_at_map protection flags res }
{
    ((res >= 0) | (res < -4095)) & (protection & 2 != 0) & (flags & 32 == 0)
}

/// How many bytes the whole pages have that so many bytes lie in. `None`: more than there are addresses.
pub fn whole_pages(length: u64) -> Option<u64>
    ensures { result ≡ spec.whole_pages length }
{
    let more = length.checked_add(PAGE - 1)?;
    Some(more / PAGE * PAGE)
}

/// The page of a file that is read next, from this place on, where the next bytes that it has were found here, or came to this error. No page before `room` is: there are none.
pub fn next_mapped_page(found: i64, at: u64, room: u64) -> u64
    ensures { result ≡ spec.next_mapped_page found at room }
{
    if found >= 0 {
        found as u64 / PAGE * PAGE
    } else if found == -22 {
        at
    } else {
        room
    }
}

/// The part of a page that has changed, which had these bytes before: from the first byte that differs to the last. `None`: nothing has.
pub fn changed_part(before: &[u8], now: &[u8]) -> Option<FilePart>
    ensures { IsChange before.now now.now result }
{
    let first = first_change(before, now);
    let end = change_end(before, now);
    if first < end {
        Some(FilePart {
            offset: first as u64,
            length: (end - first) as u64,
        })
    } else {
        None
    }
}

/// Where two pages differ first.
fn first_change(before: &[u8], now: &[u8]) -> usize
    ensures { IsFirstChange before.now now.now result }
{
    for (i, byte) in now.iter().enumerate() {
        if i < before.len() && before[i] != *byte {
            return i;
        }
    }
    now.len()
}

/// Where they are the same from here on.
fn change_end(before: &[u8], now: &[u8]) -> usize
    ensures { IsChangeEnd before.now now.now result }
{
    let mut end = 0;
    for (i, byte) in now.iter().enumerate() {
        if i < before.len() && before[i] != *byte {
            end = i + 1;
        }
    }
    end
}

/// Whether an msync that came to this has synced its pages.
pub fn has_synced_memory(res: i64) -> bool
    ensures { result ≡ spec.has_synced_memory res }
{
    res == 0 || res == -12
}

/// The part of a file that a sync is of, from this address on and for so many bytes, by what is mapped there. `None`: it is none of a file on the run's disk.
pub fn synced_part(mapping: &MappedMemory, begin: u64, length: u64) -> Option<FilePart>
    ensures { result ≡ spec.synced_part mapping.now begin length }
{
    let end = begin.saturating_add(whole_pages(length)?);
    let first = mapping.begin.max(begin);
    let last = mapping.end.min(end);
    if mapping.is_shared && mapping.is_on_disk && mapping.file != 0 && first < last {
        Some(FilePart {
            offset: mapping.offset.saturating_add(first - mapping.begin),
            length: last - first,
        })
    } else {
        None
    }
}
