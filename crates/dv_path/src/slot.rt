//! What an update finds where its path leads.

ghost use Rattle.std.specs.Prelude.{◌≡◌};
ghost use Rattle.dv_value.specs.Names.{value_under};
ghost use Rattle.dv_candidates.specs.Path.{index_of};
ghost use Rattle.dv_path.specs.Slots.{slot, slot_of, next_slot, element_slot};
ghost use Rattle.dv_path.specs.SlotView.{slot_seen};

use dv_candidates::{Component, Path, behind};
use dv_value::{Document, List, Value};

/// What is in a document at the place where a value would be put.
#[derive(Clone, Copy, Debug)]
pub enum Slot<'a> {
    /// A value.
    Taken(&'a Value),
    /// Nothing: a field on the way is missing, or the way leads beyond the end of an array.
    Free,
    /// Nothing that can be changed: the way leads through a value that is neither a document nor an array, or through an
    /// array by a component that is no whole number.
    Blocked,
}

/// What is in the document where the path leads, an array being entered only by a whole number. Takes no memory.
pub fn slot_at<'a>(document: &'a Document, path: &Path) -> Slot<'a>
    ensures { slot_seen result ≡ slot document.now path.now }
{
    let components = path.components();
    let mut slot = field(document, &components[0]);
    for component in behind(components) {
        slot = next(slot, component);
    }
    slot
}

/// The slot that one more component leads to.
fn next<'a>(slot: Slot<'a>, component: &Component) -> Slot<'a>
    ensures { slot_seen result ≡ next_slot component.now (slot_seen slot.entry) }
{
    let Slot::Taken(value) = slot else {
        return slot;
    };
    match value {
        Value::Doc(document) => field(document, component),
        Value::Array(list) => element(list, component),
        _ => Slot::Blocked,
    }
}

fn field<'a>(document: &'a Document, component: &Component) -> Slot<'a>
    ensures { slot_seen result ≡ slot_of (value_under component.now document.now) }
{
    match document.get(component.as_str()) {
        Some(value) => Slot::Taken(value),
        None => Slot::Free,
    }
}

fn element<'a>(list: &'a List, component: &Component) -> Slot<'a>
    ensures { slot_seen result ≡ element_slot (index_of component.now) list.now }
{
    let Some(index) = component.index() else {
        return Slot::Blocked;
    };
    match list.as_slice().get(index) {
        Some(value) => Slot::Taken(value),
        None => Slot::Free,
    }
}
