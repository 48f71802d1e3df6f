//! What the end of a request makes of others, and in which order. A kernel does this in the moment; whoever keeps a ring without one does it as the core has ended a request.

ghost use Rattle.std.specs.Prelude.{◌≡◌};
ghost use Rattle.uring_enter.specs.GoingOn.Following as spec;

/// What is done after the end of a request, in the order in which it stands here.
#[derive(Clone, Copy, Drop)]
pub struct AfterEnd {
    /// Its completion is kept, if it has one, to be shown.
    pub keeps_completion: bool,

    /// It counts for the timeouts that wait for so many completions.
    pub counts: bool,

    /// The timeout stops that it was, or that limited it.
    pub stops_timeout: bool,

    /// It is looked which counts are reached.
    pub looks_at_counts: bool,

    /// The ring's own descriptor polls no more for its file, and for its epoll instance.
    pub unwatches: bool,

    /// Nothing tells of its descriptor any more.
    pub forgets_descriptor: bool,

    /// Those that run are looked at again, if it may let one be finished.
    pub looks_after: bool,

    /// Those are noted that it lets start.
    pub lets_start: bool,

    /// One that drains is outstanding no more.
    pub ends_drain: bool,

    /// It stands in no list any more, and lets its files go.
    pub leaves: bool,

    /// Something has ended that isn't shown.
    pub has_ends: bool,
}

/// After the end of a request, which keeps a file or none, has an epoll instance that tells of its events or none, may have had to wait for its descriptor, and drains or doesn't.
pub fn duties_after_end(
    has_file: bool,
    has_instance: bool,
    is_stream: bool,
    is_draining: bool,
) -> AfterEnd
    ensures { result ≡ spec.after_end has_file has_instance is_stream is_draining }
{
    AfterEnd {
        keeps_completion: true,
        counts: true,
        stops_timeout: true,
        looks_at_counts: true,
        unwatches: has_file || has_instance,
        forgets_descriptor: is_stream,
        looks_after: true,
        lets_start: true,
        ends_drain: is_draining,
        leaves: true,
        has_ends: true,
    }
}
