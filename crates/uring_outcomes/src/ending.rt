//! What calls came to.

ghost use Rattle.std.specs.Prelude.{◌≡◌, ◌↔◌, ◌<◌, ◌≤◌, ℕ, List, IsOk, IsTrue, OnOk, length};
ghost use Rattle.uring_entry.specs.Layout.{Sqe};
ghost use Rattle.uring_outcomes.specs.Moments.{Moment};
ghost use Rattle.uring_outcomes.specs.CallOutcomes.{IsOver};
ghost use Rattle.uring_files.specs.Operations.{file_of, byte_of};
ghost use Rattle.uring_outcomes.specs.Runs.{StandsAt, Stands};
ghost use Rattle.uring_outcomes.specs.Index.{IsIndexed};
ghost use Rattle.uring_outcomes.specs.Walks.{HasNoted};

use crate::endings::Endings;
use crate::run::Run;
use std::alloc::{AllocError, Global};
use std::marker::Model;
use std::mem;
use uring_entry::{Cqe, Setup};
use uring_files::Files;
use uring_memory::Memory;

/// What calls came to: the completions posted, in order, and the files that are left.
#[derive(Drop)]
pub struct Ending {
    posted: Vec<Cqe>,
    files: Files,
}

impl Model for Ending {
    ghost use Rattle.std.specs.Prelude.{◌≤◌, length};
    ghost use Rattle.uring_outcomes.specs.Outcomes.{Ending};

    ghost Value = { Ending };

    ghost view = { λ e. record { posted = e.posted.items; files = e.files } };

    ghost invariant = { λ e. length e.files ≤ 64 };
}

impl Ending {
    /// The completions posted, in order.
    pub fn posted(&self) -> &[Cqe]
        ensures { result.now ≡ self.now.posted }
    {
        self.posted.as_slice()
    }

    /// The files that are left.
    pub fn files(&self) -> &Files
        ensures files { result.now ≡ self.now.files }
        ensures few { length result.now ≤ 64 }
    {
        &self.files
    }
}

/// Notes what the calls came to, which is over, if it isn't there yet. The run is used up.
pub(crate) fn note<M: Memory>(
    memory: &M,
    alloc: Global,
    run: &mut Run,
    found: &mut Endings,
) -> Result<(), AllocError>
    requires stands { (calls : List (List Sqe)) × Stands calls run.old }
    requires indexed { IsIndexed found.old }
    ensures noted { (calls : List (List Sqe)) (m : Moment) → StandsAt calls run.old m → IsOver m
        → OnOk result (HasNoted m found.old.list.items found.new.list.items) }
    ensures indexed { OnOk result (IsIndexed found.new) }
    ensures granted { ((n : ℕ) → M.grants memory.now n) → IsOk result }
{
    let none = Files::new_in(memory, alloc, 0)?;
    let posted = mem::replace(&mut run.posted, Vec::new(alloc));
    let files = mem::replace(&mut run.files, none);
    found.add_once(memory, alloc, Ending { posted, files })
}

/// Whether two endings are the same.
pub(crate) fn is_same(one: &Ending, other: &Ending) -> bool
    ensures { IsTrue result ↔ (one.now ≡ other.now) }
{
    one.posted.as_slice() == other.posted.as_slice() && same_files(&one.files, &other.files)
}

/// Whether files are the same as others.
fn same_files(one: &Files, other: &Files) -> bool
    requires few { length one.now ≤ 64 }
    requires few_others { length other.now ≤ 64 }
    ensures { IsTrue result ↔ (one.now ≡ other.now) }
{
    for fd in 0..Setup::MAX_FILES {
        if !same_file(one, other, fd as i32) {
            return false;
        }
    }
    true
}

/// Whether the files of this descriptor are the same, or there is neither.
fn same_file(one: &Files, other: &Files, fd: i32) -> bool
    ensures { IsTrue result ↔ (file_of one.now fd ≡ file_of other.now fd) }
{
    let Some(state) = one.state(fd) else {
        return other.state(fd).is_none();
    };
    let Some(wanted) = other.state(fd) else {
        return false;
    };
    state == wanted && same_bytes(one, other, fd, state.len)
}

/// Whether the files of this descriptor have the same first bytes, so many.
fn same_bytes(one: &Files, other: &Files, fd: i32, len: u32) -> bool
    ensures { IsTrue result
        ↔ ((k : ℕ) → k < len → byte_of one.now fd k ≡ byte_of other.now fd k) }
{
    for at in 0..len {
        if one.byte(fd, u64::from(at)) != other.byte(fd, u64::from(at)) {
            return false;
        }
    }
    true
}
