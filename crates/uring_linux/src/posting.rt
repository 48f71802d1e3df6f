//! Whether the end of a request posts a completion, by Linux's rules.

ghost use Rattle.std.specs.Prelude.{◌≡◌, IsTrue};
ghost use Rattle.uring_dispatch.specs.declared.answers.Posts.{Posts};
ghost use Rattle.uring_linux.specs.LinuxDispatch.{ShowsRequests};
ghost use Rattle.uring_linux.specs.LinuxRequests.{LinuxRequests};
ghost use Rattle.uring_linux.specs.Posting.{would_post};
ghost use Rattle.uring_linux.specs.Posting as spec;

use crate::dispatch::LinuxDispatch;
use uring_dispatch::Posts;

impl LinuxDispatch {
    /// Whether the end of request `n`, any number, with this result would post a completion: `Some` exactly if it is outstanding. After a member that failed and asks to skip nobody posts, and after another everybody. docs/PROTOCOL.md, By Linux's rules.
    pub fn would_post(&self, n: u64, res: i32) -> Option<bool>
        requires { IsTrue self.now.is_between_calls }
        ensures { (l : LinuxRequests) → ShowsRequests self.now l → result ≡ would_post l.requests n res }
    {
        let Some(request) = self.window.get(n) else {
            return None;
        };
        if request.has_ended {
            return None;
        }
        let group = self.window.group_of(request);
        let breaker = group.breaker(n);
        let posts = self.window.posts_after(breaker, request, res);
        Some(is_completion(posts))
    }
}

/// Whether it is a completion.
fn is_completion(posts: Posts) -> bool
    ensures { result ≡ spec.is_completion posts }
{
    match posts {
        Posts::Completion(_) => true,
        Posts::Nothing => false,
    }
}
