//! What a document is sorted by.

ghost use Rattle.std.specs.Prelude.{◌≡◌, Option, Some, None, fold, IfOk};
ghost use Rattle.dv_path.specs.SortKey.{sort_keys_of, array_keys, earlier_with};
ghost use Rattle.dv_path.specs.SortKey as sorting;
ghost use Rattle.dv_candidates.specs.View.{seen};

use crate::direction::Direction;
use dv_candidates::{Candidate, Path, fold_whole};
use dv_order::{Key, key_of, laws};
use dv_value::{Document, List, NoMemory, Value};

/// The key by which the path sorts the document: ascending the least, descending the greatest of its candidates' keys.
///
/// Missing counts as null, an array has the keys of its elements, and an empty one the key that no value has; if there is no
/// candidate, the key is that of null. Looks at each value of the document at most once for each of the path's components. Fails
/// with `NoMemory` when memory runs out.
pub fn sort_key(document: &Document, path: &Path, direction: Direction) -> Result<Key, NoMemory>
    ensures { IfOk result (λ key. key ≡ sorting.sort_key document.now path.now direction) }
{
    // Keys that compare as equal are the same key, so the order in which candidates are read doesn't matter.
    laws::equal_is_same_but_for_widths();
    laws::keys_stand_as_their_values();
    laws::no_element_stands_beside_no_value();
    let earliest = fold_whole(document, path, None, |earliest, candidate| {
        earliest_with(direction, earliest, candidate)
    })?;
    match earliest {
        Some(key) => Ok(key),
        None => key_of(&Value::Null),
    }
}

/// The earliest of a key, if there is one yet, and a candidate's keys.
fn earliest_with(
    direction: Direction,
    earliest: Option<Key>,
    candidate: Candidate,
) -> Result<Option<Key>, NoMemory>
    ensures { IfOk result (λ key. key ≡ fold (earlier_with direction) earliest (sort_keys_of (seen candidate.entry))) }
{
    let Candidate::Found(value) = candidate else {
        let key = key_of(&Value::Null)?;
        return Ok(Some(earlier_of(direction, earliest, key)));
    };
    match value {
        Value::Array(list) => earliest_with_elements(direction, earliest, list),
        _ => Ok(Some(earlier_of(direction, earliest, key_of(value)?))),
    }
}

fn earliest_with_elements(
    direction: Direction,
    earliest: Option<Key>,
    list: &List,
) -> Result<Option<Key>, NoMemory>
    ensures { IfOk result (λ key. key ≡ fold (earlier_with direction) earliest (array_keys list.now)) }
{
    let elements = list.as_slice();
    if elements.is_empty() {
        return Ok(Some(earlier_of(direction, earliest, Key::no_element())));
    }
    let mut first = earliest;
    for element in elements {
        first = Some(earlier_of(direction, first, key_of(element)?));
    }
    Ok(first)
}

/// The earlier of a key, if there is one yet, and another.
fn earlier_of(direction: Direction, earliest: Option<Key>, key: Key) -> Key
    ensures { Some result ≡ earlier_with direction earliest key }
{
    let Some(earliest) = earliest else {
        return key;
    };
    let is_earlier = match direction {
        Direction::Ascending => key < earliest,
        Direction::Descending => earliest < key,
    };
    if is_earlier { key } else { earliest }
}
