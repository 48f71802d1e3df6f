//! The text of an answer, to be compared with the text that was recorded.

ghost use Rattle.std.specs.Prelude.{◌≡◌, ℕ, IfOk, IsOk};
ghost use Rattle.std.specs.Bool.{Decides};
ghost use Rattle.uring_trace.specs.Text.{text_of};

use std::alloc::{AllocError, Global};
use uring_machine::Answer;
use uring_text::TextMemory;
use uring_trace::push_answer_in;

/// The text that was asked for last, whose memory is used again.
#[derive(Drop)]
pub(crate) struct AnswerText {
    text: String,
}

impl AnswerText {
    /// No text yet.
    pub(crate) fn new(alloc: Global) -> AnswerText {
        AnswerText {
            text: String::new(alloc),
        }
    }

    /// Whether this is the answer's text. If the memory grants whatever is asked for, there is no error.
    pub(crate) fn is<M: TextMemory>(
        &mut self,
        memory: &M,
        answer: &Answer,
        text: &[u8],
    ) -> Result<bool, AllocError>
        ensures same { IfOk result (λ same. Decides same (text_of answer.now ≡ text.now)) }
        ensures granted { ((n : ℕ) → M.grants memory.now n) → IsOk result }
    {
        self.text.clear();
        push_answer_in(memory, &mut self.text, answer)?;
        Ok(self.text.as_bytes() == text)
    }
}
