//! What is shown of an outcome.

/// What is shown of an outcome, besides the completions.
#[derive(Clone, Copy)]
pub struct Form {
    /// Whether the completions are sorted by user data, result and data, as `uring play` writes them, in place of their order.
    pub is_sorted: bool,

    /// Whether the files follow.
    pub has_files: bool,
}
