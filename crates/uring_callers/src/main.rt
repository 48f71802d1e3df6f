//! Four callers of the machine, each with a contract of its own: one step, a list of steps, a simulator with storage of its own, and settling. And one of a volume: a store with a log. The program prints what they do.
//!
//! And plays of all ends by one thread, of what no contract says and neither `uring` nor the library for C shows: the program prints which of them go otherwise than they should.
#![tactic(auto)]

mod disk;
mod first_call;
mod lists;
mod one_step;
mod plays;
mod recorded;
mod settling;
mod simulator;
mod store;
mod submissions;

use crate::disk::{BLOCKS, Disk};
use crate::first_call::one_no_op;
use crate::lists::run_twice;
use crate::one_step::starts;
use crate::plays::{show_gates, show_growth, show_plays};
use crate::recorded::are_told;
use crate::settling::settled_rest;
use crate::simulator::{break_chain, simulate};
use crate::submissions::{submit, submit_to_machine};
use bitflags::Flags;
use std::alloc::{AllocError, Global};
use std::io::Read;
use std::process::ExitCode;
use uring_machine::{Answer, Core, Cqe, Machine, Setup, Sqe, SqeFlags, Step};

fn main(rt: HostRuntime) -> ExitCode {
    // With a byte on the standard input the program goes through the play to which `growth/check` refuses memory, and nothing else: to look for a byte takes none.
    let mut byte = [0];
    let has_input = matches!(rt.stdin().read(&mut byte), Ok(1));
    let is_shown = if has_input {
        show_growth(&rt)
    } else {
        show_uses(&rt)
    };
    if is_shown {
        ExitCode::SUCCESS
    } else {
        ExitCode::FAILURE
    }
}

/// What each caller does, and each play. As in all that follow, whether it was printed: else the system is out of memory, or the output fails.
fn show_uses(rt: &HostRuntime) -> bool {
    match Setup::new(8, None, 1, 0) {
        Ok(setup) => {
            show_first_call(rt)
                && show_step(rt, &setup)
                && show_list(rt, &setup)
                && show_simulation(rt, &setup)
                && show_broken_chain(rt, &setup)
                && show_settling(rt, &setup)
                && show_recorded(rt, &setup)
                && show_gates(rt, &setup)
                && show_plays(rt)
        }
        Err(_) => false,
    }
}

/// A no-op alone.
fn show_first_call(rt: &HostRuntime) -> bool {
    match one_no_op(rt.alloc()) {
        Some(completion) => {
            println!(rt; "one no-op").is_ok() && print_completion(rt, &completion)
        }
        None => false,
    }
}

/// Two linked no-ops: the second doesn't start before the first has ended.
fn show_step(rt: &HostRuntime, setup: &Setup) -> bool {
    match Machine::new(rt.alloc(), setup) {
        Ok(mut machine) => {
            let printed = print_starts(rt, &mut machine);
            drop(machine);
            printed
        }
        Err(_) => false,
    }
}

fn print_starts(rt: &HostRuntime, machine: &mut Machine) -> bool {
    let link = SqeFlags::IO_LINK.bits();
    submit_to_machine(machine, &[Sqe::nop(10, link), Sqe::nop(11, 0)]);
    let second = starts(machine, 1);
    let first = starts(machine, 0);
    machine.step(Step::Finish { number: 0 });
    let after = starts(machine, 1);
    println!(rt;
        "one step\n  request 1 starts: {second}\n  request 0 starts: {first}\n  request 0 ended, and request 1 starts: {after}"
    ).is_ok()
}

/// The same steps on two machines: how many answers they have, and whether the second machine gives the same ones.
fn show_list(rt: &HostRuntime, setup: &Setup) -> bool {
    match run_twice(rt.alloc(), setup, &write_and_sync()) {
        Ok((first, second)) => {
            let is_same = first.as_slice() == second.as_slice();
            let count = first.len();
            drop(first);
            drop(second);
            println!(rt; "a list of steps\n  {count} steps, the same answers: {is_same}").is_ok()
        }
        Err(_) => false,
    }
}

/// The steps of a submission of a write and a sync: each entry goes into a slot, slots are staged and published, and a call takes and accepts both.
fn write_and_sync() -> [Step; 10] {
    [
        Step::Fill {
            slot: 0,
            entry: Sqe::write(20, 0, 0, 0, b"abc"),
        },
        Step::Index { word: 0 },
        Step::Fill {
            slot: 1,
            entry: Sqe::fsync(21, 0, 0),
        },
        Step::Index { word: 1 },
        Step::StoreTail,
        Step::Begin { count: 2 },
        Step::Take,
        Step::Take,
        Step::End,
        Step::LoadHead,
    ]
}

/// Two chains on a disk whose block 4 is bad.
fn show_simulation(rt: &HostRuntime, setup: &Setup) -> bool {
    show_on_core(rt, rt.alloc(), setup).unwrap_or(false)
}

/// The same on a new core of this set-up. `AllocError`: memory was refused.
fn show_on_core(rt: &HostRuntime, alloc: Global, setup: &Setup) -> Result<bool, AllocError> {
    let mut core = Core::new(alloc, setup)?;
    let printed = show_simulation_of(rt, &mut core);
    drop(core);
    Ok(printed)
}

fn show_simulation_of(rt: &HostRuntime, core: &mut Core) -> bool {
    submit(core, &soft_chain());
    // Two writes joined by a hard link. The first begins at block 4.
    let hard = SqeFlags::IO_HARDLINK.bits();
    submit(
        core,
        &[
            Sqe::write(33, hard, 0, 4, &[4]),
            Sqe::write(34, 0, 0, 7, &[5]),
        ],
    );
    match Disk::new(rt.alloc(), Some(4)) {
        Ok(mut disk) => {
            simulate(core, &mut disk);
            let printed = println!(rt; "a simulator, block 4 is bad").is_ok()
                && print_posted(rt, core)
                && print_disk(rt, &disk);
            drop(disk);
            printed
        }
        Err(_) => false,
    }
}

/// Writes of 2, 2 and 1 blocks, joined by soft links. The second reaches block 4.
fn soft_chain() -> [Sqe; 3] {
    let soft = SqeFlags::IO_LINK.bits();
    [
        Sqe::write(30, soft, 0, 0, &[1, 1]),
        Sqe::write(31, soft, 0, 3, &[2, 2]),
        Sqe::write(32, 0, 0, 6, &[3]),
    ]
}

/// The completions posted so far.
fn print_posted(rt: &HostRuntime, core: &Core) -> bool {
    for place in 0..core.counts().posted {
        if let Some(completion) = core.rest(place) {
            if !print_completion(rt, &completion) {
                return false;
            }
        }
    }
    true
}

/// The first byte of each block.
fn print_disk(rt: &HostRuntime, disk: &Disk) -> bool {
    for block in 0..BLOCKS {
        if let Some(byte) = disk.first_byte(block) {
            if println!(rt; "  block {block} has {byte}").is_err() {
                return false;
            }
        }
    }
    true
}

/// A failure from outside, and the member after it.
fn show_broken_chain(rt: &HostRuntime, setup: &Setup) -> bool {
    match Core::new(rt.alloc(), setup) {
        Ok(mut core) => {
            submit(&mut core, &soft_chain());
            core.step(Step::Issue { number: 0 });
            let answer = break_chain(&mut core, 0);
            drop(core);
            match answer {
                Answer::Ended { res, .. } => {
                    println!(rt; "an injected EIO\n  request 1 ended with {res}").is_ok()
                }
                _ => false,
            }
        }
        Err(_) => false,
    }
}

/// What is left once nothing is outstanding.
fn show_settling(rt: &HostRuntime, setup: &Setup) -> bool {
    match Machine::new(rt.alloc(), setup) {
        Ok(mut machine) => {
            let printed = print_left(rt, &mut machine);
            drop(machine);
            printed
        }
        Err(_) => false,
    }
}

fn print_left(rt: &HostRuntime, machine: &mut Machine) -> bool {
    // A write, a no-op whose success is skipped, and a read.
    let skip = SqeFlags::CQE_SKIP_SUCCESS.bits();
    submit_to_machine(
        machine,
        &[
            Sqe::write(50, 0, 0, 0, b"abc"),
            Sqe::nop(51, skip),
            Sqe::read(52, 0, 0, 1, 4),
        ],
    );
    match settled_rest(rt.alloc(), machine) {
        Ok(rest) => {
            let printed = print_completions(rt, rest.as_slice());
            drop(rest);
            printed
        }
        Err(_) => false,
    }
}

fn print_completions(rt: &HostRuntime, completions: &[Cqe]) -> bool {
    if println!(rt; "settling").is_err() {
        return false;
    }
    for completion in completions {
        if !print_completion(rt, completion) {
            return false;
        }
    }
    true
}

/// Recorded answers, and the same with one that isn't called for, at place 2.
fn show_recorded(rt: &HostRuntime, setup: &Setup) -> bool {
    let right = are_told(rt.alloc(), setup, 1, None);
    let wrong = are_told(rt.alloc(), setup, 2, Some(2));
    println!(rt; "recorded answers\n  lawful: {right}\n  another tail is told: {wrong}").is_ok()
}

/// A completion's user data and result, on a line.
fn print_completion(rt: &HostRuntime, completion: &Cqe) -> bool {
    println!(rt; "  cqe {} {}", completion.user_data(), completion.res()).is_ok()
}
