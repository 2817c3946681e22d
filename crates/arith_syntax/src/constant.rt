ghost use Rattle.std.specs.Prelude.{◌≡◌, take, drop, position};
ghost use Rattle.std.specs.Option.{option_and_then, option_map};
ghost use Rattle.arith_syntax.specs.Constants.{at_most_64, base_of, constant_len, constant_of, digit_of, digit_value, digits, digits_after, is_constant_byte as constant_byte, is_hash, low, plain, written};

use byte_class::is_name_byte;

/// What the constant at the front of the text stands for, as far as bytes of constants go, and what follows it (Bash
/// Reference Manual, "Shell Arithmetic"): a number in base 10, in base 8 after `0`, in base 16 after `0x`, or
/// `base#digits` in a base from 2 to 64. A number of more than 64 bits wraps. Nothing where it is not well formed.
pub(crate) fn constant_at(text: &[u8]) -> (Option<i64>, &[u8])
    ensures number { result.0 ≡ constant_of (take (constant_len text.now) text.now) }
    ensures rest { result.1.now ≡ drop (constant_len text.now) text.now }
{
    let (word, rest) = text.split_at(constant_len(text));
    (constant_of(word), rest)
}

// How many bytes of constants stand at the front of the text.
fn constant_len(text: &[u8]) -> usize
    ensures { result ≡ constant_len text.now }
{
    text.iter()
        .take_while(|byte| is_constant_byte(**byte))
        .count()
}

fn is_constant_byte(byte: u8) -> bool
    ensures { result ≡ constant_byte byte }
{
    is_name_byte(byte) || byte == b'@' || byte == b'#'
}

fn constant_of(word: &[u8]) -> Option<i64>
    ensures { result ≡ constant_of word.now }
{
    match written(word) {
        Some(number) => Some(number.cast_signed()),
        None => None,
    }
}

// The lowest 64 bits of the number that a constant writes.
fn written(word: &[u8]) -> Option<u64>
    ensures { result ≡ option_map low (written word.now) }
{
    match hash_place(word) {
        Some(place) => {
            let base = base_of(&word[..place])?;
            digits(base, &word[place + 1..])
        }
        None => written_plain(word),
    }
}

// The place of the first `#`.
fn hash_place(word: &[u8]) -> Option<usize>
    ensures { result ≡ position is_hash word.now }
{
    word.iter().position(|byte| *byte == b'#')
}

// The lowest 64 bits of the number that a constant without `#` writes.
fn written_plain(word: &[u8]) -> Option<u64>
    ensures { result ≡ option_map low (plain word.now) }
{
    match word {
        [b'0', b'x' | b'X', rest @ ..] => digits(16, rest),
        [b'0', ..] => digits(8, word),
        _ => digits(10, word),
    }
}

// The base that stands before a `#`.
fn base_of(text: &[u8]) -> Option<u64>
    ensures { result ≡ base_of text.now }
{
    match text {
        [] | [b'0', ..] => None,
        _ => match number_to_64(text) {
            Some(base) if base >= 2 => Some(base),
            _ => None,
        },
    }
}

// The number that decimal digits write, where it is at most 64.
fn number_to_64(text: &[u8]) -> Option<u64>
    ensures { result ≡ option_and_then at_most_64 (digits_after 10 0 text.now) }
{
    let mut number = 0;
    for byte in text {
        number = 10 * number + digit_of(10, *byte)?;
        if number > 64 {
            return None;
        }
    }
    Some(number)
}

// The lowest 64 bits of the number that at least one digit writes.
fn digits(base: u64, text: &[u8]) -> Option<u64>
    ensures { result ≡ option_map low (digits base text.now) }
{
    match text {
        [] => None,
        _ => any_digits(base, text),
    }
}

// The lowest 64 bits of the number that digits write, and 0 where there are none.
fn any_digits(base: u64, text: &[u8]) -> Option<u64>
    ensures { result ≡ option_map low (digits_after base 0 text.now) }
{
    let mut number = 0u64;
    for byte in text {
        let digit = digit_of(base, *byte)?;
        number = number.wrapping_mul(base).wrapping_add(digit);
    }
    Some(number)
}

// What a digit counts in a base.
fn digit_of(base: u64, byte: u8) -> Option<u64>
    ensures { result ≡ digit_of base byte }
{
    match digit_value(base, byte) {
        Some(value) if value < base => Some(value),
        _ => None,
    }
}

// What a digit counts, whether the base has it or not. Capitals are letters of their own only in a base above 36.
fn digit_value(base: u64, byte: u8) -> Option<u64>
    ensures { result ≡ digit_value base byte }
{
    match byte {
        b'0'..=b'9' => Some(u64::from(byte - b'0')),
        b'a'..=b'z' => Some(u64::from(byte - b'a') + 10),
        b'A'..=b'Z' if base <= 36 => Some(u64::from(byte - b'A') + 10),
        b'A'..=b'Z' => Some(u64::from(byte - b'A') + 36),
        b'@' => Some(62),
        b'_' => Some(63),
        _ => None,
    }
}
