//! Where the lists of a call of io_uring_register(2) stand, and of which slot each row is, for C: functions of `c/include/wulgach_register.h`.
ghost use Rattle.std.specs.Prelude.{◌≡◌};
ghost use Rattle.uring_register.specs.Tables.Lists as spec;

use uring_register::{
    FilesForm, ListRow, Lists, TableForm, UpdateForm, lists_of_call, lists_of_files,
    lists_of_table, lists_of_update, row_of,
};

/// Writes the lists of a call that is given one as its argument, and the count of its rows.
#[unsafe(no_mangle)]
pub extern "C" fn wulgach_lists_of_call(at: u64, count: u32, lists: &mut Lists)
    ensures { lists.new ≡ spec.lists_of_call at count }
{
    *lists = lists_of_call(at, count);
}

/// Writes those of a table that is registered by a structure.
#[unsafe(no_mangle)]
pub extern "C" fn wulgach_lists_of_table(form: &TableForm, lists: &mut Lists)
    ensures { lists.new ≡ spec.lists_of_table form.now }
{
    *lists = lists_of_table(form);
}

/// Writes those of an update of one.
#[unsafe(no_mangle)]
pub extern "C" fn wulgach_lists_of_update(form: &UpdateForm, lists: &mut Lists)
    ensures { lists.new ≡ spec.lists_of_update form.now }
{
    *lists = lists_of_update(form);
}

/// Writes those of an update of files alone, of so many.
#[unsafe(no_mangle)]
pub extern "C" fn wulgach_lists_of_files(form: &FilesForm, count: u32, lists: &mut Lists)
    ensures { lists.new ≡ spec.lists_of_files form.now count }
{
    *lists = lists_of_files(form, count);
}

/// Writes the row after so many others, of descriptors or of what takes 16 bytes.
#[unsafe(no_mangle)]
pub extern "C" fn wulgach_row_of(
    lists: &Lists,
    index: u32,
    is_of_descriptors: bool,
    row: &mut ListRow,
)
    ensures { row.new ≡ spec.row_of lists.now index is_of_descriptors }
{
    *row = row_of(lists, index, is_of_descriptors);
}
