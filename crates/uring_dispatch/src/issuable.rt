//! Which requests can be issued: those that wait and are doomed, and those that wait at the head of their group and are ready. Of these heads the ones below a limit are ready, and no others.

ghost use Rattle.std.specs.Prelude.{◌≡◌, ℕ, ◌+◌, ◌*◌, ◌<◌, ◌≤◌, ◌==◌, nat_lt, false, MatchOption, count_ones, length, slice_get};
ghost use Rattle.std.specs.Int.{bit_at};
ghost use Rattle.uring_entry.specs.Below.{count_below};
ghost use Rattle.uring_entry.specs.Requests.{Requests};
ghost use Rattle.uring_number_set.specs.NumberSet.{holds};
ghost use Rattle.uring_dispatch.specs.Grouped.{Shows};
ghost use Rattle.uring_dispatch.specs.Issuable.{issuables_of, issuable_from};
ghost use Rattle.uring_dispatch.specs.Limits.{lesser_of, can_go, IsLimit, IsLeastBelow};

use crate::grouped::Grouped;
use crate::outstanding::Outstanding;
use crate::waiting::Waiting;
use uring_number_set::NumberSet;

impl Outstanding {
    /// The least request from `n` on, any number, that can be issued.
    pub(crate) fn next_from(&self, n: u64) -> Option<u64>
        ensures { (r : Requests) → Shows self.now.grouped r → result ≡ issuable_from r n }
    {
        let limit = self.grouped.limit();
        let doomed = self.waiting.doomed.least_from(n);
        let ready = least_below(&self.waiting.heads, n, limit);
        lesser_of(doomed, ready)
    }

    /// How many requests can be issued.
    #[tactic(auto, using(crate::proofs::Counting::block_counted))]
    pub(crate) fn count(&self) -> u64
        ensures { (r : Requests) → Shows self.now.grouped r
            → result ≡ length (issuables_of r) }
    {
        let limit = self.grouped.limit();
        let mut total = 0;
        for place in self.grouped.window.first() / 64..self.grouped.window.end() / 64 + 1 {
            total += u64::from(block(&self.waiting, limit, place).count_ones());
        }
        total
    }

    /// The request that `k` lesser ones can be issued beside, from 0 on.
    pub(crate) fn nth(&self, k: u64) -> Option<u64>
        ensures { (r : Requests) → Shows self.now.grouped r
            → result ≡ slice_get (issuables_of r) k }
    {
        let limit = self.grouped.limit();
        let mut left = k;
        for place in self.grouped.window.first() / 64..self.grouped.window.end() / 64 + 1 {
            let block = block(&self.waiting, limit, place);
            let count = u64::from(block.count_ones());
            if left < count {
                return Some(64 * place + nth_bit(block, left));
            }
            left -= count;
        }
        None
    }
}

impl Grouped {
    /// The number below which the heads of groups are ready: the first group that drains begins there, or ends there if nothing before it is outstanding.
    #[tactic(auto, using(crate::proofs::IssuableLemmas::limit_none, crate::proofs::IssuableLemmas::limit_begins, crate::proofs::IssuableLemmas::limit_ends))]
    pub(crate) fn limit(&self) -> u64
        ensures { (r : Requests) → Shows self.now r
            → IsLimit self.now.window self.now.groups r result }
    {
        let Some(group) = self.groups.first_draining() else {
            return self.window.end();
        };
        if self.window.has_before(group.from) {
            group.from
        } else {
            group.end
        }
    }
}

/// Which of the 64 numbers from 64 times this place on can be issued: a bit for each, that of the least number the lowest.
fn block(waiting: &Waiting, limit: u64, place: u64) -> u64
    ensures { (i : ℕ) → i < 64
        → (bit_at result i == 1) ≡ can_go waiting.now limit (64 * place + i) }
{
    waiting.doomed.block(place) | waiting.heads.block(place) & below(limit, place)
}

/// Which of the 64 numbers from 64 times this place on are below the limit.
fn below(limit: u64, place: u64) -> u64
    ensures { (i : ℕ) → i < 64 → (bit_at result i == 1) ≡ nat_lt (64 * place + i) limit }
{
    if limit / 64 < place {
        0
    } else if place < limit / 64 {
        u64::MAX
    } else {
        (1u64 << (limit % 64)) - 1
    }
}

/// The place of the bit that is set in a block above `k` others.
fn nth_bit(block: u64, k: u64) -> u64
    requires { k < count_ones block }
    ensures within { result < 64 }
    ensures here { bit_at block result ≡ 1 }
    ensures before { count_below (λ i. bit_at block i == 1) result ≡ k }
{
    let mut left = k;
    for i in 0..64 {
        let bit = (block >> i) & 1;
        if left < bit {
            return i;
        }
        left -= bit;
    }
    unreachable!()
}

/// The least number of a set from `n` on, if it is below a limit.
fn least_below(set: &NumberSet, n: u64, limit: u64) -> Option<u64>
    ensures { MatchOption result ((k : ℕ) → n ≤ k → k < limit → holds set.now k ≡ false)
        (IsLeastBelow set.now n limit) }
{
    let Some(m) = set.least_from(n) else {
        return None;
    };
    if m < limit { Some(m) } else { None }
}

/// The lesser of two numbers, as far as they are there.
fn lesser_of(a: Option<u64>, b: Option<u64>) -> Option<u64>
    ensures { result ≡ lesser_of a b }
{
    match a {
        Some(m) => match b {
            Some(n) if n < m => Some(n),
            _ => Some(m),
        },
        None => b,
    }
}
