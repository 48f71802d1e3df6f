//! What holds of the one thread that may call on a ring. Each law is a clause of a function that does nothing.

ghost use Rattle.uring_register.specs.Rings.IssuingLaws.{DisabledHasNone, KeepsItsIssuer, KnowsItsIssuer};

/// What holds of the one thread that may call on a ring.
///
/// - `keeps_its_issuer`: no call makes another thread the issuer of a ring that has one.
/// - `knows_its_issuer`: the issuer is never another, and each other thread is.
/// - `disabled_has_none`: a disabled ring has no issuer, so that any thread may enable it.
pub fn issuer_laws()
    ensures keeps_its_issuer { KeepsItsIssuer }
    ensures knows_its_issuer { KnowsItsIssuer }
    ensures disabled_has_none { DisabledHasNone }
{}
