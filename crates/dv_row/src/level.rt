//! Documents that are traversed field by field, one inside the other.

ghost use Rattle.std.specs.Prelude.{◌≡◌, Bool, IfOk, IfSome};
ghost use Rattle.dv_value.specs.Tree.{document as entered, fields_of};
ghost use Rattle.dv_value.specs.View.{tree};
ghost use Rattle.dv_row.specs.Projecting.{left_of_value, left_inside};
ghost use Rattle.dv_row.specs.Inner.Turns.{IsFresh, fields_to_go, fields_behind, left_at_end, left_around};

use crate::expr::{push_field, row_beside};
use crate::ways::Ways;
use dv_value::{Document, NoMemory, Value};
use std::alloc::Global;

/// A document that was traversed up to a field, and what is left of the fields before that one.
#[derive(Debug, Drop)]
pub(crate) struct Level<'a> {
    /// The ways that lead into it.
    pub(crate) ways: Ways<'a>,
    /// The document.
    pub(crate) document: &'a Document,
    /// The field's place. If a field was entered, it is that field's place.
    pub(crate) place: usize,
    /// What is left.
    pub(crate) left: Document,
}

/// How far a document is traversed at a time.
#[derive(Debug, Drop)]
pub(crate) enum Turn<'a> {
    /// To the end: what is left of it.
    Ended(Document),
    /// Up to a document in it, which is entered.
    Entered(Level<'a>, Level<'a>),
}

impl<'a> Level<'a> {
    /// A document at its first field. What is left of it will share names with `before`, if there is one. Fails when
    /// memory runs out.
    pub(crate) fn of(
        alloc: Global,
        ways: Ways<'a>,
        document: &'a Document,
        before: Option<&Document>,
    ) -> Result<Self, NoMemory>
        ensures { IfOk result (IsFresh ways.entry document.now) }
    {
        let left = row_beside(alloc, before)?;
        Ok(Level {
            ways,
            document,
            place: 0,
            left,
        })
    }

    /// The document after the field that was entered. `inner` is what is left of that field's document. Fails when memory runs out.
    pub(crate) fn with_inner(self, inner: Document) -> Result<Self, NoMemory>
        ensures left { IfOk result (λ level. (keeps : Bool) → left_at_end keeps level ≡ left_around keeps self.entry inner) }
        ensures further { IfOk result (λ level. fields_to_go level ≡ fields_behind self.entry) }
    {
        let Level {
            ways,
            document,
            mut place,
            mut left,
        } = self;
        if place < document.len() {
            let (name, _value) = document.field(place);
            push_field(&mut left, name, Some(Value::Doc(inner)))?;
            place += 1;
        }
        Ok(Level {
            ways,
            document,
            place,
            left,
        })
    }
}

/// The value's document, if it is one and ways lead into it.
pub(crate) fn led_into<'a>(ways: &Ways<'_>, value: &'a Value) -> Option<&'a Document>
    ensures document { IfSome result (λ inner. tree value.now ≡ entered (fields_of inner.now)) }
    ensures inside { IfSome result (λ inner. (keeps : Bool) → left_of_value keeps ways.now (tree value.now) ≡ left_inside keeps ways.now (tree value.now)) }
{
    match value {
        Value::Doc(inner) if ways.lead_on() => Some(inner),
        _ => None,
    }
}
