//! The order of rows by their keys.

ghost use Rattle.std.specs.Prelude.{◌≡◌, map};
ghost use Rattle.dv_path.specs.Parts.{part};
ghost use Rattle.dv_sort.specs.Inner.Keys as defined;

use dv_order::Key;
use dv_path::{Direction, SortPart};
use std::cmp::Ordering;

/// The order of two lists of keys, which have one key for each part: the first part whose keys differ decides. Calls are nested
/// as deep as there are parts; a sort has at most 32.
pub(crate) fn order_of(parts: &[SortPart], first: &[Key], second: &[Key]) -> Ordering
    ensures { result ≡ defined.keys_order (map part parts.now) first.now second.now }
{
    let [part, later_parts @ ..] = parts else {
        return first.len().cmp(&second.len());
    };
    let ([a, later_first @ ..], [b, later_second @ ..]) = (first, second) else {
        return first.len().cmp(&second.len());
    };
    match directed(part.direction, a, b) {
        Ordering::Equal => order_of(later_parts, later_first, later_second),
        decided => decided,
    }
}

/// The order of two keys in a direction.
fn directed(direction: Direction, first: &Key, second: &Key) -> Ordering
    ensures { result ≡ defined.directed direction first.now second.now }
{
    match direction {
        Direction::Ascending => first.cmp(second),
        Direction::Descending => second.cmp(first),
    }
}
