//! Paths of many components.

ghost use Rattle.std.specs.Prelude.{◌≡◌, ◌≤◌, true, drop, length, IfOk, IfSome};
ghost use Rattle.std.specs.Option.{option_map};
ghost use Rattle.dv_update.specs.PathOrder.{begins as begins_with};
ghost use Rattle.dv_update.specs.Inner.StandIn as defined;

use crate::form::Edit;
use crate::order::{begins, compare_components};
use dv_candidates::{Component, Path, PathFault};
use dv_value::NoMemory;
use std::alloc::{AllocError, Global};
use std::cmp::Ordering;

/// The most components of a path at whose end the value itself is put. A longer path would lead to a document with over three times
/// the levels that any stored one has.
pub(crate) const MOST_COMPONENTS: usize = 300;

/// The rest of the path from the first component that differs from `before`, if this component comes after the one there.
pub(crate) fn parting<'a>(before: &[Component], path: &'a [Component]) -> Option<&'a [Component]>
    ensures { option_map (λ rest. rest.now) result ≡ defined.parting before.now path.now }
{
    let mut ahead = before;
    let mut rest = path;
    'components: while let (Some((a, further)), Some((b, behind))) = (
        ahead.split_first(),
        rest.split_first(),
    ) {
        match compare_components(a, b) {
            Ordering::Less => return Some(rest),
            Ordering::Equal => {}
            Ordering::Greater => return None,
        }
        ahead = further;
        rest = behind;
    }
    None
}

/// Whether a path has many components.
pub(crate) fn lead_far(edits: &[Edit]) -> bool {
    edits
        .iter()
        .any(|edit| edit.path.components().len() > MOST_COMPONENTS)
}

/// The path's first `MOST_COMPONENTS` components as a path, if it has that many. Fails when memory runs out.
pub(crate) fn beginning(alloc: Global, path: &Path) -> Result<Option<Path>, NoMemory>
    ensures { IfOk result (λ found. IfSome found (λ beginning. (length beginning ≡ 300) × (begins_with beginning path.now ≡ true))) }
{
    let text = joined(alloc, path.components())?;
    let beginning = match Path::parse(alloc, text.as_str()) {
        Ok(beginning) => beginning,
        Err(PathFault::NoMemory) => return Err(AllocError),
        Err(_) => return Ok(None),
    };
    if beginning.components().len() == MOST_COMPONENTS && begins(&beginning, path) {
        Ok(Some(beginning))
    } else {
        Ok(None)
    }
}

/// The components after the first `MOST_COMPONENTS`.
pub(crate) fn further(path: &Path) -> &[Component]
    requires { 300 ≤ length path.now }
    ensures { result.now ≡ drop 300 path.now }
{
    let components = path.components();
    &components[MOST_COMPONENTS..]
}

/// The first `MOST_COMPONENTS` components, with dots between them. Fails when memory runs out.
fn joined(alloc: Global, components: &[Component]) -> Result<String, NoMemory> {
    let mut text = String::new(alloc);
    'components: for component in components.iter().take(MOST_COMPONENTS) {
        if !text.is_empty() {
            text.push_str(".")?;
        }
        text.push_str(component.as_str())?;
    }
    Ok(text)
}
