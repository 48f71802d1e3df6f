//! What is logged of calls that change names: of which names, and what their ends say. open(2), link(2), symlink(7), path_resolution(7).

ghost use Rattle.std.specs.Prelude.{◌≡◌};
ghost use Rattle.uring_operations.specs.Files.LoggedNames as spec;
ghost use Rattle.uring_operations.specs.Files.LoggedNames.{IsBegin, IsEnd, IsLastPart};

use crate::files::logged_call::LoggedCall;

/// Where the last part of a path stands: in front of it is the path of its folder, if there is any.
#[repr(C)]
#[derive(Clone, Copy, Drop)]
pub struct LastPart {
    /// Where it begins,
    pub begin: u64,

    /// and where it ends.
    pub end: u64,
}

/// Where the last part of a path stands.
pub fn last_part(path: &[u8]) -> LastPart
    ensures { IsLastPart path.now result }
{
    let end = part_end(path);
    LastPart {
        begin: part_begin(path, end) as u64,
        end: end as u64,
    }
}

/// Where only slashes stand from here on.
fn part_end(path: &[u8]) -> usize
    ensures { IsEnd path.now result }
{
    let mut end = 0;
    for (i, byte) in path.iter().enumerate() {
        if *byte != b'/' {
            end = i + 1;
        }
    }
    end
}

/// After the last slash in front of that.
fn part_begin(path: &[u8], end: usize) -> usize
    ensures { IsBegin path.now end result }
{
    let mut begin = 0;
    for (i, byte) in path.iter().enumerate() {
        if *byte == b'/' && i < end {
            begin = i + 1;
        }
    }
    begin
}

/// Whether a call of this kind is logged, where its name is on the run's disk or isn't, and its second one.
pub fn logs_names(call: LoggedCall, is_on_disk: bool, is_second_on_disk: bool) -> bool
    ensures { result ≡ spec.logs_names call is_on_disk is_second_on_disk }
{
    is_on_disk || matches!(call, LoggedCall::Rename) && is_second_on_disk
}

/// Whether the last part of a path is a name in its folder.
pub fn is_entry_name(part: &[u8]) -> bool
    ensures { result ≡ spec.is_entry_name part.now }
{
    !part.is_empty() && part != b".".as_slice() && part != b"..".as_slice()
}

/// With which flags it is asked which file a call gives a name that has these. fstatat(2).
pub fn linked_flags(flags: u32) -> u32
    ensures { result ≡ spec.linked_flags flags }
{
    if flags & 4096 != 0 {
        4096
    } else if flags & 1024 != 0 {
        0
    } else {
        256
    }
}

/// Whether an open with these flags that is to make a file goes on from a symbolic link to what it holds, where it has followed so many.
pub fn follows_link(flags: u64, count: u32) -> bool
    ensures { result ≡ spec.follows_link flags count }
{
    count < 40 && flags & 0x2_0080 == 0
}

/// Whether an openat2 of so many bytes says how a file is opened.
pub fn says_how(size: u64) -> bool
    ensures { result ≡ spec.says_how size }
{
    size >= 24
}

/// The result that the end of a call says which came to this: of a descriptor none.
pub fn end_result(call: LoggedCall, res: i64) -> i64
    ensures { result ≡ spec.end_result call res }
{
    if matches!(call, LoggedCall::Open) && res > 0 {
        0
    } else {
        res
    }
}

/// Whether the end of a call that came to this says which file it has made.
pub fn tells_file(call: LoggedCall, res: i64) -> bool
    ensures { result ≡ spec.tells_file call res }
{
    match call {
        LoggedCall::Open => res >= 0,
        LoggedCall::MakeFolder | LoggedCall::MakeLink => res == 0,
        _ => false,
    }
}
