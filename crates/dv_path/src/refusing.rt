//! Why no value can be put where a path leads.

ghost use Rattle.std.specs.Prelude.{◌≡◌, Some};
ghost use Rattle.std.specs.Result.{result_err};
ghost use Rattle.dv_value.specs.Tree.{Tree};
ghost use Rattle.dv_value.specs.View.{tree};
ghost use Rattle.dv_candidates.specs.Path.{index_of};
ghost use Rattle.dv_path.specs.Placing.{put, put_behind, put_element};

use crate::placing::MOST_BEYOND;
use dv_candidates::{Component, Path, PathFault, behind};
use dv_value::{Document, List, Value};

/// Why no value can be put where the path leads, if none can; it doesn't depend on the value. Takes no memory.
pub(crate) fn refusal(document: &Document, path: &Path) -> Option<PathFault>
    ensures { (v : Tree) → result ≡ result_err (put document.now path.now v) }
{
    let components = path.components();
    let there = document.get(components[0].as_str())?;
    refusal_behind(there, behind(components))
}

/// The same for the rest of the path inside a value.
#[cycle(refusing)]
fn refusal_behind(there: &Value, rest: &[Component]) -> Option<PathFault>
    ensures { (v : Tree) → result ≡ result_err (put_behind rest.now v (Some (tree there.now))) }
{
    let (component, rest) = rest.split_first()?;
    match there {
        Value::Doc(document) => refusal_behind(document.get(component.as_str())?, rest),
        Value::Array(list) => refusal_in_list(list, component, rest),
        _ => Some(PathFault::NotViable),
    }
}

#[cycle(refusing)]
fn refusal_in_list(list: &List, component: &Component, rest: &[Component]) -> Option<PathFault>
    ensures { (v : Tree) → result ≡ result_err (put_element (put_behind rest.now v) (index_of component.now) list.now) }
{
    let Some(index) = component.index() else {
        return Some(PathFault::NotViable);
    };
    match list.as_slice().get(index) {
        Some(element) => refusal_behind(element, rest),
        None if index <= MOST_BEYOND => None,
        None => Some(PathFault::IndexTooLarge),
    }
}
