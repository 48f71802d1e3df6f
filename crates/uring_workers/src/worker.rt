//! A worker: it carries out jobs on files that it alone has.
ghost use Rattle.std.specs.Prelude.{◌≡◌, ℕ, ◌+◌, ◌%◌, ◌^◌, ◌≤◌, true, Some, None, [], ◌∷◌, ◌++◌, length};
ghost use Rattle.rtrb.specs.Ring.{sent, known_free, received, known_items};
ghost use Rattle.uring_files.specs.Operations.{state_of, byte_of, after, result_of, IsForFiles, IsOutcome};
ghost use Rattle.uring_workers.specs.Pairings.{producer_numbers, consumer_numbers, pairing_of};
ghost use Rattle.uring_workers.specs.Work.{jobs_of, results_of};
ghost use Rattle.uring_workers.specs.Worker.{EndsAsCalledFor, IsRight, Looks, Turns};
ghost use Rattle.uring_files.specs.Contents.{empty_files, max_len};

use crate::gate::{CountedGate, Gate};
use crate::job::{Job, JobResult};
use crate::work_lanes::WorkLanes;
use rtrb::{Consumer, Producer, Protocol};
use std::alloc::Global;
use std::marker::Model;
use uring_entry::Outcome;
use uring_files::{FileState, Files};
use uring_memory::Memory;

/// The jobs of a worker are operations that can be carried out on files.
#[derive(Clone, Copy)]
pub struct ForFiles;

impl Protocol<Job> for ForFiles {
    ghost use Rattle.uring_files.specs.Operations.{IsForFiles};

    ghost allows = { λ before job. IsForFiles job.op };
}

/// What a worker did in a turn.
#[derive(Clone, Copy, PartialEq, Eq)]
pub enum Worked {
    /// It carried out the job of the request of this number, and sent the result.
    Done(u64),

    /// It saw no job.
    Idle,

    /// It saw no room for a result, and took no job.
    Held,
}

/// The end of one worker. It may run in a thread of its own.
///
/// It takes its jobs in the order in which they were sent, passes its gate before each, carries it out on its own files and sends the result, before it takes the next. No other worker changes these files.
#[derive(Drop)]
pub struct Worker<G: Gate> {
    // The memory that its writes ask for.
    memory: Global,
    place: u32,
    gate: CountedGate<G>,
    files: Files,
    jobs: Consumer<Job, Global, ForFiles>,
    results: Producer<JobResult>,
}

impl<G: Gate> Model for Worker<G> {
    ghost use Rattle.uring_workers.specs.Worker.{Worker};

    ghost Value = { Worker };

    ghost use Rattle.std.specs.Prelude.{[], ◌∷◌};
    ghost use Rattle.rtrb.specs.Ring.{sent, known_free, received, known_items};
    ghost use Rattle.uring_workers.specs.Pairings.{producer_numbers, consumer_numbers};
    ghost use Rattle.uring_workers.specs.Worker.{done_of, IsWorking};

    ghost view = { λ w. record { place = w.place; pairing = consumer_numbers w.jobs ∷ producer_numbers w.results ∷ []; done = done_of (received w.jobs) (sent w.results); files = w.files; passed = w.gate.passed; last_passed = w.gate.last_passed; seen = known_items w.jobs; room = known_free w.results } };

    ghost invariant = { λ w. IsWorking (received w.jobs) (sent w.results) w.files };
}

impl<G: Gate> Worker<G> {
    /// A worker with so many files, over the ends of its lanes, through which nothing went yet.
    pub(crate) fn new(
        memory: Global,
        place: u32,
        gate: G,
        files: Files,
        jobs: Consumer<Job, Global, ForFiles>,
        results: Producer<JobResult>,
    ) -> Worker<G>
        requires files { files ≡ empty_files (length files) }
        requires jobs { received jobs ≡ [] }
        requires results { sent results ≡ [] }
        ensures place { result.place ≡ place }
        ensures pairing { result.pairing ≡ consumer_numbers jobs ∷ producer_numbers results ∷ [] }
        ensures done { result.done ≡ [] }
        ensures files { result.files ≡ files }
        ensures passed { (result.passed ≡ 0) × (result.last_passed ≡ None) }
    {
        Worker {
            memory,
            place,
            gate: CountedGate::new(gate),
            files,
            jobs,
            results,
        }
    }

    /// Takes one job, if it sees one and sees room for its result: passes the gate once, with the job's number, carries the job out and sends the result. Only a write that lengthens its file takes memory.
    ///
    /// Use: `match worker.turn() { Worked::Done(_) => {} Worked::Idle | Worked::Held => thread::yield_now(), }`
    pub fn turn(&mut self) -> Worked
        ensures turns { Turns self.old self.new result }
        // Of the same lanes it stays, with as many files.
        ensures pairing { self.new.pairing ≡ self.old.pairing }
        ensures files { length self.new.files ≡ length self.old.files }
        ensures place { self.new.place ≡ self.old.place }
    {
        let memory = self.memory;
        self.turn_in(&memory)
    }

    /// As `turn`, by this memory. If it grants 65,536 elements, the job ends as its operation calls for on the worker's files, and so no write ends with -12 (ENOMEM).
    pub fn turn_in<M: Memory>(&mut self, memory: &M) -> Worked
        ensures turns { Turns self.old self.new result }
        ensures pairing { self.new.pairing ≡ self.old.pairing }
        ensures files { length self.new.files ≡ length self.old.files }
        ensures place { self.new.place ≡ self.old.place }
        ensures granted { (n : ℕ) → M.grants memory.now n → max_len ≤ n
            → EndsAsCalledFor self.old self.new }
    {
        if self.results.is_full() {
            return Worked::Held;
        }
        let Ok(job) = self.jobs.pop() else {
            return Worked::Idle;
        };
        let outcome = carry_out(memory, &mut self.gate, &mut self.files, &job);
        self.results.push_reserved(JobResult {
            number: job.number,
            outcome,
        });
        Worked::Done(job.number)
    }

    /// Sees all jobs that were sent to this worker and that it hasn't taken, and shows the dispatcher's end all results that were sent. Condition: these are the dispatcher's ends of this worker's lanes.
    pub fn see_all(&mut self, lanes: &mut WorkLanes)
        requires { self.old.pairing ≡ pairing_of lanes.old.jobs lanes.old.results }
        ensures worker { Looks self.old self.new }
        ensures jobs { jobs_of self.new.done ++ self.new.seen ≡ sent lanes.new.jobs }
        ensures results { received lanes.new.results ++ known_items lanes.new.results
            ≡ results_of self.new.done }
        ensures dispatcher { (sent lanes.new.jobs ≡ sent lanes.old.jobs)
            × (received lanes.new.results ≡ received lanes.old.results) }
        ensures pairing { pairing_of lanes.new.jobs lanes.new.results
            ≡ pairing_of lanes.old.jobs lanes.old.results }
    {
        self.jobs.slots_beside(&mut lanes.jobs);
        lanes.results.slots_beside(&mut self.results);
    }

    /// How this worker's file of a descriptor stands: `None` if there is none.
    pub fn state(&self, fd: i32) -> Option<FileState>
        ensures { result ≡ state_of self.now.files fd }
    {
        self.files.state(fd)
    }

    /// The byte at offset `at` of this worker's file of a descriptor: `None` if there is no such file, or the offset isn't below its length.
    pub fn byte(&self, fd: i32, at: u64) -> Option<u8>
        ensures { result ≡ byte_of self.now.files fd at }
    {
        self.files.byte(fd, at)
    }

    /// A law, and no code: each operation that this worker carried out ended as its own files call for, which were empty at first, and its files are those that they left.
    pub fn is_right(&self)
        ensures { IsRight self.now }
    {
        // A body knows the invariant once it reads a field.
        let _files = &self.files;
    }

    /// Which of the workers this is, from 0.
    pub fn place(&self) -> u32
        ensures { result ≡ self.now.place }
    {
        self.place
    }
}

/// Passes the gate once, with the job's number, and then carries the job out on these files.
fn carry_out<M: Memory, G: Gate>(
    memory: &M,
    gate: &mut CountedGate<G>,
    files: &mut Files,
    job: &Job,
) -> Outcome
    requires { IsForFiles job.now.op }
    // The gate let it pass with the files as they were before.
    ensures passed { G.passes gate.old.gate job.now.number files.old ≡ true }
    ensures once { (gate.new.passed ≡ (gate.old.passed + 1) % 2 ^ 64)
        × (gate.new.last_passed ≡ Some job.now.number) }
    ensures outcome { IsOutcome files.old job.now.op result }
    ensures files { files.new ≡ after files.old job.now.op result.res }
    ensures granted { (n : ℕ) → M.grants memory.now n → max_len ≤ n
        → result ≡ result_of files.old job.now.op }
{
    gate.pass(job.number, files);
    files.apply_in(memory, &job.op)
}
