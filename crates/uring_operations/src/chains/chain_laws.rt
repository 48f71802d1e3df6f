//! What holds of the chains of every call. Each law is a clause of a function that does nothing.

ghost use Rattle.uring_operations.specs.Chains.ChainLaws.{LimitsTheOneBefore, LimitsOneAtMost, ChainsHold, ChainsEnd};

/// What holds of the chains of every call.
///
/// - `limits_the_one_before`: a linked timeout limits the request of the entry before it, exactly if that links it.
/// - `limits_one_at_most`: and no other.
/// - `chains_hold`: requests belong to one chain if all between them link the next.
/// - `chains_end`: a chain begins after one that doesn't link.
pub fn chain_laws()
    ensures limits_the_one_before { LimitsTheOneBefore }
    ensures limits_one_at_most { LimitsOneAtMost }
    ensures chains_hold { ChainsHold }
    ensures chains_end { ChainsEnd }
{}
