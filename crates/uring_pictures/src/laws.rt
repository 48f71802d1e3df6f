//! What follows from the definitions alone: each law is the contract of a function that does nothing.

ghost use Rattle.uring_pictures.specs.Members.{ClustersAreNamed, ArrowsLeadOn};

/// The cluster of a chain in a graph is named for the chain's first member.
#[tactic(auto, using(crate::proofs::Members::first_is))]
pub fn clusters_are_named()
    ensures { ClustersAreNamed }
{}

/// The arrow from a member of a chain leads to the nearest member before it that is outstanding, and there is none only if no earlier member is.
#[tactic(auto, using(crate::proofs::Members::before_is))]
pub fn arrows_lead_on()
    ensures { ArrowsLeadOn }
{}
