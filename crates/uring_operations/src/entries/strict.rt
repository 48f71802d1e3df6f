//! What a ring that goes by a kernel refuses of an entry. io_uring_enter(2), IOSQE_CQE_SKIP_SUCCESS; io_uring_register(2), IORING_REGISTER_PROBE.

ghost use Rattle.std.specs.Prelude.{◌≡◌, List, [], ◌∷◌};
ghost use Rattle.uring_operations.specs.Entries.Strictness as spec;
ghost use Rattle.uring_operations.specs.Entries.Strictness.{Looked, Looks, KeepsStrict, looked_by, is_unserved, refusal_by, refusal_of, unserved_fault};

use crate::entries::form::first_fault;
use crate::entries::submission::Submission;

/// What a strict ring has seen of its entries.
#[repr(C)]
#[derive(Clone, Copy, Drop)]
pub struct Strict {
    /// One had IOSQE_CQE_SKIP_SUCCESS, and wasn't refused for that.
    pub has_skipped: bool,
}

impl Strict {
    /// None.
    pub fn begin() -> Strict
        ensures { KeepsStrict [] result }
    {
        Strict { has_skipped: false }
    }

    /// The error with which a ring refuses the next entry, or 0: a strict one goes by this machine's kernel, another by Linux's rules by one that serves all, and one by the manual pages' by none.
    pub fn refusal_by(
        &mut self,
        entry: &Submission,
        is_strict: bool,
        linux: bool,
        is_served: bool,
        knows_skip: bool,
    ) -> i32
        ensures refusal { (log : List Looked) → KeepsStrict log self.old
            → result ≡ refusal_by log entry.now is_strict linux is_served knows_skip }
        ensures after { (log : List Looked) → KeepsStrict log self.old
            → KeepsStrict (looked_by log entry.now is_strict linux is_served knows_skip) self.new }
    {
        if !is_strict && !linux {
            return 0;
        }
        self.refusal(entry, !is_strict || is_served, !is_strict || knows_skip)
    }

    /// The error with which one that goes by a kernel refuses the next entry, or 0. `is_served`: the kernel serves its operation; `knows_skip`: and IOSQE_CQE_SKIP_SUCCESS.
    fn refusal(&mut self, entry: &Submission, is_served: bool, knows_skip: bool) -> i32
        ensures refusal { (log : List Looked) → KeepsStrict log self.old
            → result ≡ refusal_of log entry.now is_served knows_skip }
        ensures after { (log : List Looked) → KeepsStrict log self.old
            → KeepsStrict (Looks entry.now is_served knows_skip ∷ log) self.new }
    {
        let fault = unserved_fault(entry, is_served, knows_skip);
        if fault < 0 {
            return fault;
        }
        self.has_skipped = self.has_skipped || entry.flags & 64 != 0;
        if self.has_skipped && entry.flags & 2 != 0 {
            -95
        } else {
            0
        }
    }
}

/// Whether a kernel that serves its operation or not, and knows IOSQE_CQE_SKIP_SUCCESS or not, lacks what an entry asks for.
fn is_unserved(entry: &Submission, is_served: bool, knows_skip: bool) -> bool
    ensures { result ≡ is_unserved entry.now is_served knows_skip }
{
    !is_served || entry.flags & 64 != 0 && !knows_skip
}

/// The fault of an entry's operation and flags in a kernel that serves the operation or not, and knows IOSQE_CQE_SKIP_SUCCESS or not.
fn unserved_fault(entry: &Submission, is_served: bool, knows_skip: bool) -> i32
    ensures { result ≡ unserved_fault entry.now is_served knows_skip }
{
    if is_unserved(entry, is_served, knows_skip) {
        -22
    } else {
        first_fault(entry)
    }
}

/// With which flags a strict ring's set-up, which has these, asks the kernel: but IORING_SETUP_ATTACH_WQ.
pub fn flags_asked(flags: u32) -> u32
    ensures { result ≡ spec.flags_asked flags }
{
    flags & 0xffff_ffdf
}
