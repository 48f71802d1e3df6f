//! The text of a change.

ghost use Rattle.std.specs.Prelude.{ℕ, IsOk};

use crate::form_text::{Value, push_form};
use crate::pages::changes::Look;
use crate::pages::line_parts::result_of;
use std::alloc::AllocError;
use uring_machine::{Doom, Why};
use uring_text::TextMemory;

/// How a request has ended.
const ENDED: &str = "@{\"request\":@,\"is\":\"@\"@,\"result\":@}";

/// How a request stands that hasn't ended.
const STANDS: &str = "@{\"request\":@,\"is\":\"@\"@,\"why\":\"@\"}";

/// What stands before a change: a comma after another, and the beginning of the array before the first.
fn comma(text: &str) -> &'static str {
    if text.is_empty() {
        ",\"changes\":["
    } else {
        ","
    }
}

/// Appends a change that has no more members.
pub(crate) fn push_state<M: TextMemory>(
    memory: &M,
    text: &mut String,
    number: u64,
    state: &str,
) -> Result<(), AllocError>
    ensures { ((n : ℕ) → M.grants memory.now n) → IsOk result }
{
    let values = [
        Value::Text(comma(text)),
        Value::Number(number),
        Value::Text(state),
    ];
    push_form(memory, text, "@{\"request\":@,\"is\":\"@\"}", &values)
}

/// Appends how a request stands, with the request that holds it back or that dooms it, which at a cancel is the one that is carried out; or that the request of this line has ended.
pub(crate) fn push_standing<M: TextMemory>(
    memory: &M,
    text: &mut String,
    number: u64,
    why: Why,
    look: &Look<'_>,
) -> Result<(), AllocError>
    ensures { ((n : ℕ) → M.grants memory.now n) → IsOk result }
{
    let (state, other) = match why {
        Why::HasEnded => ("ended", look.found),
        Why::Runs => ("runs", None),
        Why::Waits { least, .. } => ("waits", Some(least)),
        Why::IsDoomed(Doom::FaultOf(other)) => ("doomed", Some(other)),
        Why::IsDoomed(Doom::FailureOf(other)) => ("doomed", Some(other)),
        Why::IsDoomed(Doom::Cancel) => ("doomed", look.moved),
        Why::IsDoomed(_) => ("doomed", None),
        _ => ("ready", None),
    };
    let (form, last) = match why {
        Why::HasEnded => (ENDED, Value::Signed(result_of(look.answer))),
        _ => (STANDS, Value::Reason(why)),
    };
    let values = [
        Value::Text(comma(text)),
        Value::Number(number),
        Value::Text(state),
        Value::Member(",\"of\":", other),
        last,
    ];
    push_form(memory, text, form, &values)
}
