//! What is kept of a group of linked requests.

ghost use Rattle.std.specs.Prelude.{◌≡◌, ◌<◌, ◌^◌};
ghost use Rattle.uring_entry.specs.Below.{found_or};
ghost use Rattle.uring_entry.specs.Groups.{earlier_of};
ghost use Rattle.uring_linux.specs.Groups as spec;

/// What is to be known of a group, also of its members that have ended. It's kept with the first member.
#[derive(Clone, Copy)]
pub(crate) struct Group {
    /// The number of its first member.
    pub(crate) from: u64,
    /// The number after its last member.
    pub(crate) end: u64,
    /// Every member before this one has ended.
    pub(crate) least: u64,
    /// The first member with a fault.
    pub(crate) fault: Option<u64>,
    /// The first member with a soft link that failed.
    pub(crate) broken: Option<u64>,
}

/// The group of the next request `n`: the one that it joins, with one member more, or a new one.
pub(crate) fn with_member(joins: Option<Group>, n: u64, is_faulty: bool) -> Group
    requires { n < 2 ^ 63 }
    ensures { result ≡ spec.with_member joins n is_faulty }
{
    match joins {
        Some(group) => Group {
            end: n + 1,
            fault: found_or(group.fault, is_faulty, n),
            ..group
        },
        None => Group {
            from: n,
            end: n + 1,
            least: n,
            fault: found_or(None, is_faulty, n),
            broken: None,
        },
    }
}

/// The group, once its member `n` has ended, which breaks it or not.
pub(crate) fn with_end(group: Group, n: u64, breaks: bool) -> Group
    requires { n < 2 ^ 63 }
    ensures { result ≡ spec.with_end group n breaks }
{
    Group {
        least: if group.least == n { n + 1 } else { group.least },
        broken: earlier_of(group.broken, breaks, n),
        ..group
    }
}

/// What was found, or else `n` if this holds.
fn found_or(found: Option<u64>, holds: bool, n: u64) -> Option<u64>
    ensures { result ≡ found_or found holds n }
{
    match found {
        Some(m) => Some(m),
        None if holds => Some(n),
        None => None,
    }
}

/// The least of what was found before and `n`, if this holds.
fn earlier_of(found: Option<u64>, holds: bool, n: u64) -> Option<u64>
    ensures { result ≡ earlier_of found holds n }
{
    match found {
        Some(m) if holds && n < m => Some(n),
        Some(m) => Some(m),
        None if holds => Some(n),
        None => None,
    }
}
