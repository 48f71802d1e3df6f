//! Where the lists of a call of io_uring_register(2) stand, of how many rows they are, and of which slot each row is. io_uring_register(2), IORING_REGISTER_FILES2 and IORING_REGISTER_FILES_UPDATE2.

ghost use Rattle.std.specs.Prelude.{◌≡◌};
ghost use Rattle.uring_register.specs.Tables.Lists.{EachRowHasItsSlot};
ghost use Rattle.uring_register.specs.Tables.Lists as spec;

use crate::calls::structures::{FilesForm, TableForm, UpdateForm};

/// The lists of a call. One that isn't there stands at 0.
#[repr(C)]
#[derive(Clone, Copy, Drop)]
pub struct Lists {
    /// Where the descriptors or vectors stand.
    pub rows: u64,

    /// And where the tags.
    pub tags: u64,

    /// How many rows each has.
    pub count: u32,

    /// The slot of the first.
    pub from: u32,
}

/// A row of lists.
#[repr(C)]
#[derive(Clone, Copy, Drop)]
pub struct ListRow {
    /// Where its descriptor or vector stands.
    pub at: u64,

    /// And where its tag.
    pub tag_at: u64,

    /// Its slot.
    pub slot: u32,
}

/// The lists of a call that is given one as its argument, and the count of its rows: one that registers files or buffers, has rings enrolled or dismissed, or puts files where there is room.
pub fn lists_of_call(at: u64, count: u32) -> Lists
    ensures { result ≡ spec.lists_of_call at count }
{
    Lists {
        rows: at,
        tags: 0,
        count,
        from: 0,
    }
}

/// Those of a table that is registered by a structure.
pub fn lists_of_table(form: &TableForm) -> Lists
    ensures { result ≡ spec.lists_of_table form.now }
{
    Lists {
        rows: form.data,
        tags: form.tags,
        count: form.nr,
        from: 0,
    }
}

/// Those of an update of one.
pub fn lists_of_update(form: &UpdateForm) -> Lists
    ensures { result ≡ spec.lists_of_update form.now }
{
    Lists {
        rows: form.data,
        tags: form.tags,
        count: form.nr,
        from: form.offset,
    }
}

/// Those of an update of files alone, of so many.
pub fn lists_of_files(form: &FilesForm, count: u32) -> Lists
    ensures { result ≡ spec.lists_of_files form.now count }
{
    Lists {
        rows: form.fds,
        tags: 0,
        count,
        from: form.offset,
    }
}

/// The row after so many others, of descriptors or of what takes 16 bytes: vectors, or rows of rings.
pub fn row_of(lists: &Lists, index: u32, is_of_descriptors: bool) -> ListRow
    ensures { result ≡ spec.row_of lists.now index is_of_descriptors }
{
    let size: u64 = if is_of_descriptors { 4 } else { 16 };
    ListRow {
        at: lists.rows.wrapping_add(index as u64 * size),
        tag_at: lists.tags.wrapping_add(index as u64 * 8),
        slot: lists.from.wrapping_add(index),
    }
}

/// The rows of lists are of slots one after the other, from the first on.
pub fn each_row_has_its_slot()
    ensures { EachRowHasItsSlot }
{}
