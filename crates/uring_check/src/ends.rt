//! What is asked of the ends of running requests.

/// What is asked of the end of a running request.
#[derive(Clone, Copy)]
pub enum Ends {
    /// The result and the bytes that the files give.
    Given,

    /// Any result of 32 bits with a sign, and no bytes, as of a ring without files.
    Any,

    /// A result that its operation may give, whatever its file has (`uring_entry::may_end`), and no bytes.
    Allowed,
}
