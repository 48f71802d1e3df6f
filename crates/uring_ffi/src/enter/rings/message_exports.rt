//! What a message to another ring does, for C: functions of `c/include/wulgach_form.h`.
ghost use Rattle.std.specs.Prelude.{◌≡◌, is_some, unwrap_or};
ghost use Rattle.uring_enter.specs.Rings.Messages as spec;
ghost use Rattle.uring_ffi.specs.Enter.Rings.MessageForm.{word_of_message, fault_of_sending};

use crate::enter::going_on::duty_exports::bit;
use crate::written::write_found;
use uring_enter::{
    Message, Receiver, Sending, is_by_slot, may_be_ring, message_steps, sending_of, told_of,
};
use uring_operations::Submission;

/// Whether the entry of a message names its ring by a slot.
#[unsafe(no_mangle)]
pub extern "C" fn wulgach_message_is_by_slot(entry: &Submission) -> bool
    ensures { result ≡ spec.is_by_slot entry.now }
{
    is_by_slot(entry)
}

/// Whether the file that the entry of a message names may be a ring's.
#[unsafe(no_mangle)]
pub extern "C" fn wulgach_may_be_ring(entry: &Submission) -> bool
    ensures { result ≡ spec.may_be_ring entry.now }
{
    may_be_ring(entry)
}

/// Returns what is done for a message to this ring, as a set of steps, and writes its error, or 0.
#[unsafe(no_mangle)]
pub extern "C" fn wulgach_sending_of(entry: &Submission, to: &Receiver, fault: &mut i32) -> u32
    ensures steps { result ≡ word_of_message (spec.message_steps (spec.sending_of entry.now to.now)) }
    ensures fault { fault.new ≡ fault_of_sending (spec.sending_of entry.now to.now) }
{
    let sending = sending_of(entry, *to);
    *fault = match sending {
        Sending::Fails(fault) => fault,
        _ => 0,
    };
    let steps = message_steps(sending);
    bit(1, steps.has_memory)
        | bit(2, steps.finds_file)
        | bit(4, steps.passes_file)
        | bit(8, steps.tells)
}

/// Writes what the other ring is told, where a message does what it does with this result. False: nothing.
#[unsafe(no_mangle)]
pub extern "C" fn wulgach_told_of(entry: &Submission, res: i32, message: &mut Message) -> bool
    ensures is_told { result ≡ is_some (spec.told_of entry.now res) }
    ensures message { message.new ≡ unwrap_or (spec.told_of entry.now res) message.old }
{
    write_found(told_of(entry, res), message)
}
