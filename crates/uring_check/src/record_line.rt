//! How a line that records a step is split.

ghost use Rattle.std.specs.Prelude.{◌≡◌, ◌≢◌, ◌<◌, ◌≤◌, MatchOption, length, take, slice_index};
ghost use Rattle.std.specs.List.{AllByRecursion};
ghost use Rattle.uring_check.specs.Checking.{IsSplit, IsUnsplit};

/// What stands before and after the first `=` of a line, each without the one space that parts it from the `=`.
pub fn split_record(line: &[u8]) -> Option<(&[u8], &[u8])>
    ensures { MatchOption result (IsUnsplit line.now)
        (λ parts. IsSplit line.now parts.0.now parts.1.now) }
{
    let (before, rest) = line.split_at(sign_at(line));
    Some((before.strip_suffix(b" ")?, rest.strip_prefix(b"= ")?))
}

/// How many bytes stand before the first `=`, or all if there is none.
fn sign_at(line: &[u8]) -> usize
    ensures within { result ≤ length line.now }
    ensures before { AllByRecursion (λ b. b ≢ 61) (take result line.now) }
    ensures found { result < length line.now → slice_index line.now result ≡ 61 }
{
    line.iter()
        .position(|byte| *byte == b'=')
        .unwrap_or(line.len())
}
