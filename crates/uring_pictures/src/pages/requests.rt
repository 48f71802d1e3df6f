//! The requests of a run.

ghost use Rattle.std.specs.Prelude.{ℕ, IsOk};

use crate::form_text::{Value, push_form};
use std::alloc::AllocError;
use uring_entry::opcode;
use uring_machine::{Sqe, Why};
use uring_text::{TextMemory, push_text};

/// The beginning of a request, as an element of an array.
const REQUEST: &str = "@{\"request\":@,\"user_data\":\"@\",\"operation\":\"@\",\"flags\":\"@\"";

/// A request, as far as the lines so far tell of it.
#[derive(Clone, Copy)]
pub(crate) struct Request {
    pub(crate) entry: Sqe,

    /// Its call, numbered from 0 among those that were opened.
    pub(crate) call: u64,

    /// The first member of its chain.
    pub(crate) chain: u64,

    /// How it stood after the last line.
    pub(crate) why: Why,

    /// The line at which it was issued.
    pub(crate) issued: Option<u64>,

    /// The line at which it ended.
    pub(crate) ended: Option<u64>,
}

/// What stands before an element of an array, which has a line of its own.
pub(crate) fn separator(is_first: bool) -> &'static str {
    if is_first { "\n" } else { ",\n" }
}

/// Ends the lines, appends all requests, by their numbers, and ends all that was written.
pub(crate) fn push_requests<M: TextMemory>(
    memory: &M,
    text: &mut String,
    requests: &[Request],
) -> Result<(), AllocError>
    ensures { ((n : ℕ) → M.grants memory.now n) → IsOk result }
{
    push_text(memory, text, "\n],\"requests\":[")?;
    let mut number: u64 = 0;
    for request in requests {
        let entry = &request.entry;
        let values = [
            Value::Text(separator(number == 0)),
            Value::Number(number),
            Value::Number(entry.user_data()),
            Value::Operation(entry),
            Value::Flags(entry),
            Value::Number(request.call),
            Value::Number(request.chain),
        ];
        push_form(memory, text, REQUEST, &values)?;
        push_place(memory, text, entry)?;
        push_form(memory, text, ",\"call\":@,\"chain\":@}", &values[5..])?;
        number = number.saturating_add(1);
    }
    push_text(memory, text, "\n]}\n")
}

/// Appends what an entry works on, after another member: a file, a range of it, or the requests that a cancel looks for. Numbers of 64 bits are strings, since many readers of JSON keep 53.
fn push_place<M: TextMemory>(memory: &M, text: &mut String, entry: &Sqe) -> Result<(), AllocError>
    ensures { ((n : ℕ) → M.grants memory.now n) → IsOk result }
{
    let (form, first) = if entry.opcode() == opcode::ASYNC_CANCEL {
        (",\"target\":\"@\"", Value::Number(entry.addr()))
    } else if entry.is_transfer() {
        let form = ",\"file\":@,\"offset\":\"@\",\"length\":@";
        (form, Value::Signed(entry.fd()))
    } else if entry.is_on_file() {
        (",\"file\":@", Value::Signed(entry.fd()))
    } else {
        return Ok(());
    };
    let values = [
        first,
        Value::Number(entry.off()),
        Value::Number(u64::from(entry.len())),
    ];
    push_form(memory, text, form, &values)
}
