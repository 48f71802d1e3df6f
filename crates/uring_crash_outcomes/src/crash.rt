//! What a power failure shows.

ghost use Rattle.std.specs.Prelude.{◌≡◌, ◌∷◌, ◌++◌, [], ℕ, map, length, IfOk, IfErr, IsOk, OnOk};
ghost use Rattle.uring_crash_machine.specs.Logs.{Log};
ghost use Rattle.uring_crash_outcomes.specs.Trials.{AreShown, IsCrowdedBy, IsTooMany, Widens, with_file, spread_over};
ghost use Rattle.uring_crash_outcomes.specs.declared.fault.CrashFault.TheVariants as fault;

use crate::fault::CrashFault;
use std::alloc::{AllocError, Global};
use std::marker::Model;
use std::mem;
use uring_crash_machine::FileLog;
use uring_entry::Cqe;
use uring_memory::{Memory, copied, push};

/// What a power failure shows of calls: the completions posted by then, in order, and the bytes that are left of each file.
#[derive(Drop)]
pub struct Crash {
    posted: Vec<Cqe>,
    left: Vec<Vec<u8>>,
}

impl Model for Crash {
    ghost use Rattle.std.specs.Prelude.{map};
    ghost use Rattle.uring_crash_outcomes.specs.Shown.{Crash};

    ghost Value = { Crash };

    ghost view = { λ c. record { posted = c.posted.items; left = map (λ b. b.items) c.left.items } };
}

impl Crash {
    /// The completions posted by then, in order.
    pub fn posted(&self) -> &[Cqe]
        ensures { result.now ≡ self.now.posted }
    {
        self.posted.as_slice()
    }

    /// The bytes that are left of each file, from descriptor 0 on.
    pub fn left(&self) -> &[Vec<u8>]
        ensures { map (λ b. b.items) result.now ≡ self.now.left }
    {
        self.left.as_slice()
    }

    /// This with one file more, of which these bytes are left.
    fn with_file<M: Memory>(
        &self,
        memory: &M,
        alloc: Global,
        bytes: &[u8],
    ) -> Result<Crash, AllocError>
        ensures wider { IfOk result (λ wider. wider ≡ with_file self.now bytes.now) }
        ensures granted { ((n : ℕ) → M.grants memory.now n) → IsOk result }
    {
        let posted = copied(memory, alloc, self.posted.as_slice())?;
        let left = one_more(memory, alloc, self.left.as_slice(), bytes)?;
        Ok(Crash { posted, left })
    }
}

/// A copy of these lists of bytes, with one more after them.
fn one_more<M: Memory>(
    memory: &M,
    alloc: Global,
    lists: &[Vec<u8>],
    bytes: &[u8],
) -> Result<Vec<Vec<u8>>, AllocError>
    ensures more { IfOk result (λ more. map (λ b. b.items) more.items ≡ map (λ b. b.items) lists.now ++ bytes.now ∷ []) }
    ensures granted { ((n : ℕ) → M.grants memory.now n) → IsOk result }
{
    let mut more = Vec::new(alloc);
    for list in lists {
        push_copy(memory, alloc, &mut more, list.as_slice())?;
    }
    push_copy(memory, alloc, &mut more, bytes)?;
    Ok(more)
}

/// Puts a copy of these bytes after these lists.
fn push_copy<M: Memory>(
    memory: &M,
    alloc: Global,
    lists: &mut Vec<Vec<u8>>,
    bytes: &[u8],
) -> Result<(), AllocError>
    ensures pushed { OnOk result (map (λ b. b.items) lists.new.items ≡ map (λ b. b.items) lists.old.items ++ bytes.now ∷ []) }
    ensures granted { ((n : ℕ) → M.grants memory.now n) → IsOk result }
{
    let copy = copied(memory, alloc, bytes)?;
    push(memory, lists, copy)
}

/// All that a power failure may show with these completions posted and these logs of files, if none of the files may be left in more than `most` ways.
pub(crate) fn crashes_of<M: Memory>(
    memory: &M,
    alloc: Global,
    posted: &[Cqe],
    logs: &[FileLog],
    most: u32,
) -> Result<Vec<Crash>, CrashFault>
    ensures shown { IfOk result (λ crashes. AreShown posted.now logs.now crashes.items) }
    ensures fault { IfErr result (IsCrowdedBy logs.now most) }
    ensures granted { ((n : ℕ) → M.grants memory.now n)
        → IfErr result (λ error. error ≡ fault.Images) }
{
    let mut crashes = without_files(memory, alloc, posted)?;
    for log in logs {
        widen(memory, alloc, &mut crashes, log, most)?;
    }
    Ok(crashes)
}

/// These completions, with no file.
fn without_files<M: Memory>(
    memory: &M,
    alloc: Global,
    posted: &[Cqe],
) -> Result<Vec<Crash>, AllocError>
    ensures crashes { IfOk result (λ crashes. crashes.items ≡ record { posted = posted.now; left = [] } ∷ []) }
    ensures granted { ((n : ℕ) → M.grants memory.now n) → IsOk result }
{
    let mut crashes = Vec::new(alloc);
    let posted = copied(memory, alloc, posted)?;
    let left = Vec::new(alloc);
    push(memory, &mut crashes, Crash { posted, left })?;
    Ok(crashes)
}

/// Puts in place of these each with each image of one file more.
fn widen<M: Memory>(
    memory: &M,
    alloc: Global,
    crashes: &mut Vec<Crash>,
    log: &FileLog,
    most: u32,
) -> Result<(), CrashFault>
    ensures wider { OnOk result (Widens log.now crashes.old.items crashes.new.items) }
    ensures fault { IfErr result (IsTooMany log.now most) }
    ensures granted { ((n : ℕ) → M.grants memory.now n)
        → IfErr result (λ error. error ≡ fault.Images) }
{
    let images = log.volume().images_in(memory, alloc, most)?;
    let wider = spread(memory, alloc, crashes.as_slice(), images.as_slice());
    drop(images);
    drop(mem::replace(crashes, wider?));
    Ok(())
}

/// These, each with each of these files more.
fn spread<M: Memory>(
    memory: &M,
    alloc: Global,
    crashes: &[Crash],
    images: &[Vec<u8>],
) -> Result<Vec<Crash>, AllocError>
    ensures wider { IfOk result (λ wider. wider.items ≡ spread_over crashes.now (map (λ b. b.items) images.now)) }
    ensures granted { ((n : ℕ) → M.grants memory.now n) → IsOk result }
{
    let mut wider = Vec::new(alloc);
    for crash in crashes {
        spread_one(memory, alloc, crash, images, &mut wider)?;
    }
    Ok(wider)
}

/// Adds this with each of these files more.
fn spread_one<M: Memory>(
    memory: &M,
    alloc: Global,
    crash: &Crash,
    images: &[Vec<u8>],
    wider: &mut Vec<Crash>,
) -> Result<(), AllocError>
    ensures wider { OnOk result
        (wider.new.items ≡ wider.old.items ++ map (with_file crash.now) (map (λ b. b.items) images.now)) }
    ensures granted { ((n : ℕ) → M.grants memory.now n) → IsOk result }
{
    for image in images {
        let more = crash.with_file(memory, alloc, image.as_slice())?;
        push(memory, wider, more)?;
    }
    Ok(())
}
