//! The lines of a script.

ghost use Rattle.std.specs.Prelude.{◌≡◌, ◌≢◌, ◌<◌, ◌↔◌, ◌⊎◌, ◌++◌, ◌∷◌, ℕ, List, Ok, Err, Some, IsTrue, IfOk, IfSome, MatchOption, filter, not, position};
ghost use Rattle.std.specs.Fmt.{decimal};
ghost use Rattle.hex.specs.Hex.{is_hex_digit};
ghost use Rattle.dv_words.specs.Line.{IsLine, IsSkipped};
ghost use Rattle.dv_words.specs.Inner.Reading.{BeginsWithPair, BeginsWithSpaces, Decodes, IsPairs, IsPlain, is_space};

use crate::said::{Line, LineFault};
use dv_value::Bytes;
use std::alloc::{AllocError, Global};

/// The most bytes that a line may have, its LF not counted.
pub const LONGEST_LINE: usize = 131_200;

/// How many numbers there are for sessions, from 0.
pub const NUMBERS: u32 = 1_000;

/// Reads the bytes of a line, without its LF. A line that is empty or begins with `#` is skipped. Any other line has a number from
/// 0 to 999 without leading zeros, one space, and then pairs of hexadecimal digits, with any number of spaces between two pairs, or
/// the word `end`. Fails with `BadLine` if the bytes have none of these forms, or are more than 131,200, and with `NoMemory` when
/// memory runs out.
pub fn line(alloc: Global, bytes: &[u8]) -> Result<Line, LineFault>
    ensures read { IfOk result (λ found. IsLine found bytes.now) }
    ensures only { (meant : Line) → IsLine meant bytes.now → (result ≡ Ok meant) ⊎ (result ≡ Err LineFault.NoMemory) }
    ensures refused { (result ≡ Err LineFault.BadLine) ↔ ((meant : Line) → IsLine meant bytes.now → ⊥) }
{
    if bytes.len() > LONGEST_LINE {
        return Err(LineFault::BadLine);
    }
    if is_skipped(bytes) {
        return Ok(Line::Skip);
    }
    let Some((number, rest)) = numbered(bytes) else {
        return Err(LineFault::BadLine);
    };
    if rest == b"end".as_slice() {
        return Ok(Line::End(number));
    }
    Ok(Line::Bytes(number, decoded(alloc, rest)?))
}

/// Whether a line is empty or a comment.
fn is_skipped(bytes: &[u8]) -> bool
    ensures yes { IsTrue result → IsSkipped bytes.now }
    ensures no { IsSkipped bytes.now → IsTrue result }
{
    matches!(bytes, [] | [b'#', ..])
}

/// The number before the first space, and what follows that space.
fn numbered(bytes: &[u8]) -> Option<(u32, &[u8])>
    ensures { MatchOption result ((n : ℕ) (rest : List ℕ) → n < 1000 → bytes.now ≢ decimal n ++ 32 ∷ rest)
        (λ found. (found.0 < 1000) × (bytes.now ≡ decimal found.0 ++ 32 ∷ found.1.now)) }
{
    let Some(space) = first_space(bytes) else {
        return None;
    };
    let Some(number) = number(&bytes[..space]) else {
        return None;
    };
    Some((number, &bytes[space + 1..]))
}

fn first_space(bytes: &[u8]) -> Option<usize>
    ensures { result ≡ position is_space bytes.now }
{
    bytes.iter().position(|byte| *byte == b' ')
}

/// The number from 0 to 999 that these digits are. They may have no leading zeros.
fn number(digits: &[u8]) -> Option<u32>
    ensures { MatchOption result ((n : ℕ) → n < 1000 → digits.now ≢ decimal n)
        (λ found. (found < 1000) × (digits.now ≡ decimal found)) }
{
    if !is_plain(digits) {
        return None;
    }
    match parsed(digits) {
        Some(number) if number < NUMBERS => Some(number),
        _ => None,
    }
}

/// Whether a number's text has neither a sign nor a leading zero, and isn't empty.
fn is_plain(text: &[u8]) -> bool
    ensures { IsTrue result ↔ IsPlain text.now }
{
    match text {
        [] | [b'+', ..] => false,
        [b'0', ..] => text.len() == 1,
        _ => true,
    }
}

/// The number that a text is, which may have a sign or leading zeros.
fn parsed(text: &[u8]) -> Option<u32>
    ensures plain { IfSome result (λ n. IsPlain text.now → text.now ≡ decimal n) }
    ensures decimal { (n : ℕ) → n < 1000 → text.now ≡ decimal n → result ≡ Some n }
{
    let Ok(text) = std::str::from_utf8(text) else {
        return None;
    };
    text.parse().ok()
}

/// The bytes of pairs of hexadecimal digits.
fn decoded(alloc: Global, text: &[u8]) -> Result<Bytes, LineFault>
    ensures { Decodes text.now result }
{
    if !are_pairs(text) {
        return Err(LineFault::BadLine);
    }
    let Ok(digits) = without_spaces(alloc, text) else {
        return Err(LineFault::NoMemory);
    };
    match hex::decode(alloc, digits) {
        Ok(bytes) => Ok(Bytes::of(bytes)),
        Err(_) => Err(LineFault::NoMemory),
    }
}

fn without_spaces(alloc: Global, text: &[u8]) -> Result<Vec<u8>, AllocError>
    ensures { IfOk result (λ digits. digits.items ≡ filter (λ b. not (is_space b)) text.now) }
{
    text.iter()
        .copied()
        .filter(|byte| *byte != b' ')
        .collect(alloc)
}

/// Whether the text is pairs of hexadecimal digits, with spaces only between two pairs.
fn are_pairs(text: &[u8]) -> bool
    ensures yes { IsTrue result → IsPairs text.now }
    ensures no { IsPairs text.now → IsTrue result }
{
    let mut rest = text;
    'pairs: while let Some(behind) = behind_pair(rest) {
        if behind.is_empty() {
            return true;
        }
        rest = behind_spaces(behind);
    }
    false
}

/// What follows the pair of digits at the beginning, if there is one.
fn behind_pair(text: &[u8]) -> Option<&[u8]>
    ensures { MatchOption result ((behind : List ℕ) → BeginsWithPair text.now behind → ⊥) (λ behind. BeginsWithPair text.now behind.now) }
{
    let [high, low, behind @ ..] = text else {
        return None;
    };
    if is_digit(*high) && is_digit(*low) {
        Some(behind)
    } else {
        None
    }
}

fn is_digit(byte: u8) -> bool
    ensures { result ≡ is_hex_digit byte }
{
    byte.is_ascii_hexdigit()
}

/// What follows the spaces at the beginning.
fn behind_spaces(text: &[u8]) -> &[u8]
    ensures { BeginsWithSpaces text.now result.now }
{
    let mut rest = text;
    'spaces: while let [b' ', behind @ ..] = rest {
        rest = behind;
    }
    rest
}
