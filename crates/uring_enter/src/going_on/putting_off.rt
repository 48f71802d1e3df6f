//! What waits after a completion that was put off, since the core was refused memory for it. Our own rule.

ghost use Rattle.std.specs.Prelude.{◌≡◌};
ghost use Rattle.uring_enter.specs.GoingOn.PuttingOff as spec;
ghost use Rattle.uring_enter.specs.GoingOn.PuttingOff.{NothingOvertakes, EndsAfterATry};

/// What is to come in a ring.
#[derive(Clone, Copy, Drop)]
pub enum Coming {
    /// Entries are submitted.
    Submission,

    /// A completion is posted that belongs to no end of a request.
    Posting,

    /// A request ends that isn't carried out any more.
    End,
}

/// Whether it comes.
#[derive(Clone, Copy, Drop)]
pub enum Order {
    /// Now.
    Comes,

    /// The core is given before what was put off.
    PostsFirst,

    /// It waits, since memory is refused still.
    Waits,
}

/// Whether this comes now, where a completion was put off or none, and memory was refused for it again just before or wasn't.
pub fn order_after(what: Coming, is_put_off: bool, is_refused: bool) -> Order
    ensures { result ≡ spec.order_after what is_put_off is_refused }
{
    if !is_put_off {
        return Order::Comes;
    }
    if is_refused {
        after_refusal(what)
    } else {
        Order::PostsFirst
    }
}

fn after_refusal(what: Coming) -> Order
    ensures { result ≡ spec.after_refusal what }
{
    match what {
        Coming::Submission | Coming::Posting => Order::Waits,
        Coming::End => Order::Comes,
    }
}

/// What holds of every completion that was put off.
///
/// - `nothing_overtakes`: nothing is submitted or posted from when a completion was put off until it is posted.
/// - `ends_after_a_try`: a request ends meanwhile only if memory was refused once more just before.
pub fn putting_off_laws()
    ensures nothing_overtakes { NothingOvertakes }
    ensures ends_after_a_try { EndsAfterATry }
{}
