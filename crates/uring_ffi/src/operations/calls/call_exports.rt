//! By what an operation is carried out, for C: functions of `c/include/wulgach_calls.h` and `c/include/wulgach_results.h`.
ghost use Rattle.std.specs.Prelude.{◌≡◌, true, false, MatchOption};
ghost use Rattle.uring_operations.specs.Calls.CallResults as results;
ghost use Rattle.uring_operations.specs.Calls.Means as spec;
ghost use Rattle.uring_operations.specs.Calls.Parts as parts;
ghost use Rattle.uring_operations.specs.Files.Asking as asking;
ghost use Rattle.uring_operations.specs.Requests.Readiness as ready;
ghost use Rattle.uring_operations.specs.Calls.TransferCalls.{call_of};
ghost use Rattle.uring_ffi.specs.Operations.Calls.MeansForm.{words, words_of_means, fault_of_word, can_have_one};
ghost use Rattle.uring_ffi_values.specs.LayerWords.WaitForm.{task_of};
ghost use Rattle.uring_ffi.specs.Operations.Calls.ShuttingForm.{word_of_shutting, end_of_shutting, shutting_of};

use crate::written::write_found;
use uring_ffi_values::wait_words::task;
use uring_operations::{
    Fault, Held, Listed, Means, Shutting, Submission, SystemCall, Transfer, Vectors, asks_anew,
    asks_end, breaking_call, can_have, control_of, done_result, has_begun, is_broken, is_shut,
    is_stream_type, means_of, moved_so_far, offset_after, placed_result, shutting_next,
    takes_for_nothing, tells_message, told_result, transfer_call,
};

/// By what an operation is carried out: `struct wulgach_means` of the header.
#[repr(C)]
#[derive(Clone, Copy, Drop)]
pub struct MeansWords {
    pub kind: u32,
    pub slot: u32,
    pub listed: Listed,
    pub call: SystemCall,
}

/// Writes by what the operation of an entry is carried out, for which this is held.
#[unsafe(no_mangle)]
pub extern "C" fn wulgach_means_of(entry: &Submission, held: &Held, means: &mut MeansWords)
    ensures { means.new ≡ words_of_means (spec.means_of entry.now held.now) }
{
    *means = match means_of(entry, held) {
        Means::Nothing => words(0, 0, NO_CALL),
        Means::Transfer => words(1, 0, NO_CALL),
        Means::Poll => words(2, 0, NO_CALL),
        Means::Call(call) => words(3, 0, call),
        Means::Opening(call, slot) => words(4, slot, call),
        Means::Sync(call) => words(5, 0, call),
        Means::Close(call) => words(6, 0, call),
        Means::Connect(call) => words(7, 0, call),
        Means::Splice(call) => words(8, 0, call),
        Means::Send(call) => words(9, 0, call),
        Means::Receive(call) => words(10, 0, call),
        Means::ReceiveMessage(call) => words(11, 0, call),
        Means::SlotRemoval(slot) => words(12, slot, NO_CALL),
        Means::FilesPlacing(listed) => MeansWords {
            kind: 13,
            slot: 0,
            listed,
            call: NO_CALL,
        },
        Means::FilesUpdate(slot, listed) => MeansWords {
            kind: 14,
            slot,
            listed,
            call: NO_CALL,
        },
        Means::Timeout => words(15, 0, NO_CALL),
        Means::LinkedTimeout => words(16, 0, NO_CALL),
        Means::Provision => words(17, 0, NO_CALL),
        Means::ProvisionRemoval => words(18, 0, NO_CALL),
        Means::Message => words(19, 0, NO_CALL),
        Means::Cancel => words(20, 0, NO_CALL),
        Means::PollRemoval => words(21, 0, NO_CALL),
        Means::TimeoutRemoval => words(22, 0, NO_CALL),
    };
}

const NO_CALL: SystemCall = SystemCall {
    number: 0,
    first: 0,
    second: 0,
    third: 0,
    fourth: 0,
    fifth: 0,
    sixth: 0,
};

const NO_LIST: Listed = Listed {
    address: 0,
    count: 0,
};

fn words(kind: u32, slot: u32, call: SystemCall) -> MeansWords
    ensures { result ≡ words kind slot call }
{
    MeansWords {
        kind,
        slot,
        listed: NO_LIST,
        call,
    }
}

/// Writes the call of a transfer's entry that is next, where this is what the library said is next of it.
#[unsafe(no_mangle)]
pub extern "C" fn wulgach_transfer_call(
    entry: &Submission,
    vectors: &Vectors,
    transfer: &Transfer,
    step: u32,
    call: &mut SystemCall,
)
    ensures { call.new ≡ call_of entry.now vectors.now transfer.now (task_of step) }
{
    *call = transfer_call(entry, vectors, transfer, task(step));
}

/// Whether the operation of this code can have a fault, which moves so many bytes, and may have to wait for its descriptor or never has to.
#[unsafe(no_mangle)]
pub extern "C" fn wulgach_can_have(code: u8, is_stream: bool, length: u64, fault: u32) -> bool
    ensures { result ≡ can_have_one code is_stream length (fault_of_word fault) }
{
    match fault_of(fault) {
        Some(given) => can_have(code, is_stream, length, given),
        None => false,
    }
}

/// The fault of a word. `None`: none is given.
pub fn fault_of(word: u32) -> Option<Fault>
    ensures { result ≡ fault_of_word word }
{
    match word {
        1 => Some(Fault::Disk),
        2 => Some(Fault::Room),
        3 => Some(Fault::Short),
        _ => None,
    }
}

/// Whether an end of a splice is asked so, which is a pipe or not, or a regular file.
#[unsafe(no_mangle)]
pub extern "C" fn wulgach_asks_end(is_pipe: bool, is_regular: bool) -> bool
    ensures { result ≡ asking.asks_end is_pipe is_regular }
{
    asks_end(is_pipe, is_regular)
}

/// Writes with which flags a descriptor of this access mode, a pipe's end or not, is opened once more for a call that has no flag by which it is asked not to wait. False, and nothing is written: it is asked itself.
#[unsafe(no_mangle)]
pub extern "C" fn wulgach_asks_anew(is_pipe: bool, access: u32, flags: &mut u32) -> bool
    ensures { MatchOption (asking.asks_anew is_pipe access) ((result ≡ false) × (flags.new ≡ flags.old))
        (λ anew. (result ≡ true) × (flags.new ≡ anew)) }
{
    write_found(asks_anew(is_pipe, access), flags)
}

/// Whether a connect that came to this goes on without its call.
#[unsafe(no_mangle)]
pub extern "C" fn wulgach_has_begun(came_to: i32) -> bool
    ensures { result ≡ results.has_begun came_to }
{
    has_begun(came_to)
}

/// What the operation of an entry ends with that has moved so many bytes, and has put so many into its buffer.
#[unsafe(no_mangle)]
pub extern "C" fn wulgach_done_result(entry: &Submission, done: u64, filled: u64) -> i32
    ensures { result ≡ results.done_result entry.now done filled }
{
    done_result(entry, done, filled)
}

/// How many bytes the operation of an entry has moved that would have to wait for more, and whose calls have come to so many.
#[unsafe(no_mangle)]
pub extern "C" fn wulgach_moved_so_far(entry: &Submission, done: u64) -> i32
    ensures { result ≡ parts.moved_so_far entry.now done }
{
    moved_so_far(entry, done)
}

/// How many bytes of control data the next call of a message sends, or has room for, whose entry's are `control`, and which has moved so many bytes.
#[unsafe(no_mangle)]
pub extern "C" fn wulgach_control_of(entry: &Submission, control: u64, done: u64) -> u64
    ensures { result ≡ parts.control_of entry.now control done }
{
    control_of(entry, control, done)
}

/// Whether what belongs to a message is told after a call of this entry that came to this.
#[unsafe(no_mangle)]
pub extern "C" fn wulgach_tells_message(entry: &Submission, came_to: i32) -> bool
    ensures { result ≡ results.tells_message entry.now came_to }
{
    tells_message(entry, came_to)
}

/// What a call ends with that came to this, and after which that could be told, or couldn't.
#[unsafe(no_mangle)]
pub extern "C" fn wulgach_told_result(came_to: i32, is_told: bool) -> i32
    ensures { result ≡ results.told_result came_to is_told }
{
    told_result(came_to, is_told)
}

/// Writes the call by which a socket is asked whether it was shut down for writing.
#[unsafe(no_mangle)]
pub extern "C" fn wulgach_breaking_call(fd: i32, call: &mut SystemCall)
    ensures { call.new ≡ ready.breaking_call fd }
{
    *call = breaking_call(fd);
}

/// Whether a socket was, of which that came to this.
#[unsafe(no_mangle)]
pub extern "C" fn wulgach_is_broken(sent: i32) -> bool
    ensures { result ≡ ready.is_broken sent }
{
    is_broken(sent)
}

/// Whether nothing more comes from a descriptor of which a look that doesn't wait came to this, and shows these events.
#[unsafe(no_mangle)]
pub extern "C" fn wulgach_is_shut(came: i32, events: u16) -> bool
    ensures { result ≡ ready.is_shut came events }
{
    is_shut(came, events)
}

/// Returns what is next after a call of this entry, where what was done last came to `res`, and writes what the call came to, if that is known.
#[unsafe(no_mangle)]
pub extern "C" fn wulgach_shutting_next(
    entry: &Submission,
    last: u32,
    res: i32,
    end: &mut i32,
) -> u32
    ensures next { result ≡ word_of_shutting (results.shutting_next entry.now (shutting_of last) res) }
    ensures end { end.new ≡ end_of_shutting (results.shutting_next entry.now (shutting_of last) res) end.old }
{
    let done = match last {
        1 => Some(Shutting::AsksShut),
        2 => Some(Shutting::CallsAgain),
        3 => Some(Shutting::AsksWill),
        4 => Some(Shutting::AsksLocal),
        _ => None,
    };
    match shutting_next(entry, done, res) {
        Shutting::Ends(res) => {
            *end = res;
            0
        }
        Shutting::AsksShut => 1,
        Shutting::CallsAgain => 2,
        Shutting::AsksWill => 3,
        Shutting::AsksLocal => 4,
    }
}

/// Whether an operation has taken its provided buffer though it came to this, and moved nothing.
#[unsafe(no_mangle)]
pub extern "C" fn wulgach_takes_for_nothing(
    code: u8,
    came_to: i32,
    is_of_ring: bool,
    can_be_polled: bool,
) -> bool
    ensures { result ≡ results.takes_for_nothing code came_to is_of_ring can_be_polled }
{
    takes_for_nothing(code, came_to, is_of_ring, can_be_polled)
}

/// The offset at which the read of an entry that goes on reads next, after a call that came to this.
#[unsafe(no_mangle)]
pub extern "C" fn wulgach_offset_after(entry: &Submission, came_to: i32) -> u64
    ensures { result ≡ results.offset_after entry.now came_to }
{
    offset_after(entry, came_to)
}

/// What a file ends with that was put into this slot, where its entry asked for that one or for any.
#[unsafe(no_mangle)]
pub extern "C" fn wulgach_placed_result(asked: u32, slot: u32) -> i32
    ensures { result ≡ results.placed_result asked slot }
{
    placed_result(asked, slot)
}

/// Whether a socket of this type is a stream.
#[unsafe(no_mangle)]
pub extern "C" fn wulgach_is_stream_type(kind: u32) -> bool
    ensures { result ≡ results.is_stream_type kind }
{
    is_stream_type(kind)
}
