//! What the kernel's lists are made of: words with blanks between, parts, and numbers.

ghost use Rattle.std.specs.Prelude.{◌≡◌, ◌≤◌, ◌+◌, ◌*◌, min};
ghost use Rattle.uring_register.specs.KernelLists.Texts as spec;

/// Past all numbers of 64 bits.
const PAST: u128 = 0x1_0000_0000_0000_0000;

/// A number, decimal by the base 10, and hexadecimal by 16.
pub fn is_number(base: u8, digits: &[u8]) -> bool
    ensures { result ≡ spec.is_number base digits.now }
{
    !digits.is_empty() && digits.iter().all(|byte| digit_value(*byte) < base)
}

/// The value of digits; of more than 64 bits 2 ^ 64.
pub fn value_of(base: u8, digits: &[u8]) -> u128
    ensures { result ≡ min (spec.value_of base digits.now) 18446744073709551616 }
{
    let mut value: u128 = 0;
    for digit in digits {
        value = with_digit(base, value, *digit);
    }
    value
}

/// A number with one more digit.
fn with_digit(base: u8, value: u128, digit: u8) -> u128
    requires { value ≤ 18446744073709551616 }
    ensures { result ≡ min (value * base + spec.digit_value digit) 18446744073709551616 }
{
    (value * base as u128 + digit_value(digit) as u128).min(PAST)
}

/// The value of a digit, 16 of a byte that is none.
fn digit_value(byte: u8) -> u8
    ensures { result ≡ spec.digit_value byte }
{
    match byte {
        b'0'..=b'9' => byte - b'0',
        b'a'..=b'f' => byte - 87,
        _ => 16,
    }
}

/// Where a byte stands first, or how many there are.
pub fn position_of(bytes: &[u8], byte: u8) -> usize
    ensures { result ≡ spec.position_of byte bytes.now }
{
    for (i, other) in bytes.iter().enumerate() {
        if *other == byte {
            return i;
        }
    }
    bytes.len()
}

/// The first word of a line.
pub fn first_word(line: &[u8]) -> &[u8]
    ensures { result.now ≡ spec.first_word line.now }
{
    &line[..position_of(line, b' ')]
}

/// What stands after the first word, and the blanks that follow it.
pub fn after_word(line: &[u8]) -> &[u8]
    ensures { result.now ≡ spec.after_word line.now }
{
    let rest = &line[position_of(line, b' ')..];
    &rest[blanks_of(rest)..]
}

/// With how many blanks a text begins.
fn blanks_of(text: &[u8]) -> usize
    ensures { result ≡ spec.blanks_of text.now }
{
    for (i, byte) in text.iter().enumerate() {
        if *byte != b' ' {
            return i;
        }
    }
    text.len()
}

/// The part of a word at this place, with colons between its parts.
pub fn part_of(word: &[u8], place: usize) -> &[u8]
    ensures { result.now ≡ spec.part_of word.now place }
{
    word.split(|byte| *byte == b':').nth(place).unwrap_or(&[])
}
