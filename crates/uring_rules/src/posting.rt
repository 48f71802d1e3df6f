//! Whether the end of a request posts a completion, by the manual pages' rules.

ghost use Rattle.std.specs.Prelude.{◌≡◌, IsTrue, false};
ghost use Rattle.uring_entry.specs.Requests.{Requests};
ghost use Rattle.uring_dispatch.specs.Dispatch.{ShowsRequests};
ghost use Rattle.uring_rules.specs.Posting as spec;

use uring_dispatch::Dispatch;
use uring_entry::{posts_completion, succeeded};

/// Whether the end of request `n`, any number, with this result would post a completion, by the manual pages' rules: `Some` exactly if it is outstanding.
pub(crate) fn would_post_manual(dispatch: &Dispatch, n: u64, res: i32) -> Option<bool>
    requires { IsTrue dispatch.now.is_between_calls }
    ensures { (r : Requests) → ShowsRequests dispatch.now r → result ≡ spec.would_post false r n res }
{
    let Some(entry) = dispatch.entry(n) else {
        return None;
    };
    let is_success = succeeded(&entry, res);
    Some(posts_completion(&entry, is_success))
}
