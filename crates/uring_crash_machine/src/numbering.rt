//! Which number on its volume each request of a file has.

ghost use Rattle.std.specs.Prelude.{◌≡◌, ◌==◌, ◌&&◌, ℕ, List, false, Some, map, vec_len, vec_capacity, ◌<◌, IfSome, IfNone};
ghost use Rattle.uring_volume.specs.Images.{IsIn};
ghost use Rattle.uring_crash_machine.specs.Logs as spec;
ghost use Rattle.uring_crash_machine.specs.Logs.{IsGivenBy, request_of, has_number, left_of, none_begun, numbered_as, one_begun, unless_last};

use std::marker::Model;
use std::snapshot::Snapshot;
use uring_volume::Volume;

/// Past so many numbers a fold keeps those of each request, so that memory runs out before numbers do.
const MOST_NUMBERS: u64 = 1 << 62;

/// The requests that began, as proofs alone see them. It has no bytes, and its calls do nothing at run time.
#[derive(Drop)]
pub struct Begun {
    before: Option<Snapshot<Snapshot<Begun>>>,
    request: u64,
}

impl Model for Begun {
    ghost use Rattle.uring_crash_machine.specs.Logs.{Begun};

    ghost Value = { Begun };

    ghost use Rattle.uring_crash_machine.specs.Logs.{begun_by};

    ghost view = { λ b. begun_by (λ s. s.value.value) b.before b.request };

    ghost size = { λ b. b.steps };

    ghost use Rattle.std.proofs.Common.{arith};

    ghost size_decreases = { λ a h. Prim.grind arith };
}

/// None has begun.
pub fn nothing() -> Snapshot<Begun>
    ensures { result.value ≡ none_begun }
{
    let begun = Begun {
        before: None,
        request: 0,
    };
    Snapshot::of(&begun)
}

/// A request has begun.
pub fn tell(begun: &mut Snapshot<Begun>, n: u64)
    ensures { begun.new.value ≡ one_begun n begun.old.value }
{
    let more = Begun {
        before: Some(Snapshot::of(begun)),
        request: n,
    };
    *begun = Snapshot::of(&more);
}

/// The number of a request on the volume.
#[derive(Drop)]
pub struct Numbered {
    pub request: u64,
    pub number: u64,

    /// Whether no later one is of the same request.
    pub is_last: bool,
}

impl Numbered {
    /// Whether it is the last of this request.
    fn is_last_of(&self, n: u64) -> bool
        ensures { result ≡ (self.now.is_last && self.now.request == n) }
    {
        self.is_last && self.request == n
    }

    /// A request begins again, of which it isn't the last any more.
    fn give_way(&mut self, n: u64)
        ensures { self.new ≡ unless_last n self.old }
    {
        if self.request == n {
            self.is_last = false;
        }
    }
}

/// A request begins again, of which none of these is the last any more.
fn give_way_all(numbers: &mut [Numbered], n: u64)
    ensures { numbers.new ≡ map (unless_last n) numbers.old }
{
    for i in 0..numbers.len() {
        numbers[i].give_way(n);
    }
}

/// The last number of a request, if it is among these.
pub fn number_of(numbers: &[Numbered], n: u64) -> Option<u64>
    ensures found { (requests : List ℕ) → ((p : Numbered) → IsIn p numbers.now → IsGivenBy requests p)
        → IfSome result (λ k. spec.number_of n requests ≡ k) }
    ensures none { (requests : List ℕ) → ((p : Numbered) → IsIn p numbers.now → IsGivenBy requests p)
        → IfNone result (has_number (spec.number_of n requests) numbers.now ≡ false) }
{
    for p in numbers {
        if p.is_last_of(n) {
            return Some(p.number);
        }
    }
    None
}

/// The request of a number, if it is among these.
pub fn request_at(numbers: &[Numbered], number: u64) -> Option<u64>
    ensures found { (requests : List ℕ) → ((p : Numbered) → IsIn p numbers.now → IsGivenBy requests p)
        → IfSome result (λ n. request_of number requests ≡ Some n) }
    ensures none { IfNone result (has_number number numbers.now ≡ false) }
{
    for p in numbers {
        if p.number == number {
            return Some(p.request);
        }
    }
    None
}

/// Puts the number of a request after these, which may be of the same one. Condition: there is room.
pub fn put_number(numbers: &mut Vec<Numbered>, n: u64, number: u64)
    requires { vec_len numbers.old < vec_capacity numbers.old }
    ensures { numbers.new.items ≡ numbered_as n number numbers.old.items }
{
    give_way_all(numbers, n);
    numbers.push_reserved(Numbered {
        request: n,
        number,
        is_last: true,
    });
}

/// Leaves those of the writes that are there and the syncs that run, unless so many were given that each is to take memory.
pub fn leave_known(numbers: &mut Vec<Numbered>, volume: &Volume)
    ensures { numbers.new.items ≡ left_of volume.now.next volume.now.history numbers.old.items }
{
    if volume.next() <= MOST_NUMBERS {
        numbers.retain(|p| volume.knows(p.number));
    }
}
