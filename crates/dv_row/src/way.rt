//! The way of a path into a row, through documents.

ghost use Rattle.std.specs.Prelude.{◌≡◌, None, Some, IsSome, IsTrue, IfOk, MatchOption};
ghost use Rattle.std.specs.Option.{option_map};
ghost use Rattle.dv_candidates.specs.Candidates.{Candidate};
ghost use Rattle.dv_value.specs.Names.{value_under, with_value_under};
ghost use Rattle.dv_value.specs.Tree.{Tree, document as document_tree, fields_of};
ghost use Rattle.dv_value.specs.View.{tree};
ghost use Rattle.dv_row.specs.Inner.Crossings.{AreLike, EndsWays, field_but, fields_but, set_inward, set_on_way};
ghost use Rattle.dv_row.specs.Unwinding.{reached, set_through, set_under};

use dv_candidates::{Component, Path, behind};
use dv_order::is_same;
use dv_value::{Document, NoMemory, Value};
use std::alloc::Global;

/// A document in a row, and the component by which a path leads on from it.
#[derive(Clone, Copy, Debug)]
pub(crate) struct Stop<'a> {
    document: &'a Document,
    component: &'a Component,
}

/// A copy of a document that a path leads through, and the component by which it leads on. Copies of this copy share its long
/// texts and binaries, even when they are changed.
#[derive(Debug, Drop)]
pub(crate) struct Crossing<'a> {
    document: Document,
    component: &'a Component,
}

/// The way that a path leads to a value in a row.
#[derive(Debug, Drop)]
pub(crate) struct Way<'a> {
    /// The row.
    outermost: Crossing<'a>,
    /// The documents in it, the innermost last.
    inner: Vec<Crossing<'a>>,
}

impl<'a> Stop<'a> {
    /// The document that the path comes to next, if one is there.
    fn next(&self) -> Option<&'a Document>
        ensures { MatchOption result (EndsWays (value_under self.now.component.now self.now.document.now))
            (λ next. value_under self.now.component.now self.now.document.now ≡ Some (document_tree (fields_of next.now))) }
    {
        let Some(value) = self.document.get(self.component.as_str()) else {
            return None;
        };
        match value {
            Value::Doc(document) => Some(document),
            _ => None,
        }
    }

    /// The way on from here. Fails when memory runs out.
    fn crossing(&self) -> Result<Crossing<'a>, NoMemory>
        ensures document { IfOk result (λ crossing. crossing.document ≡ self.now.document.now) }
        ensures component { IfOk result (λ crossing. crossing.component.now ≡ self.now.component.now) }
    {
        Ok(Crossing {
            document: self.document.try_share()?,
            component: self.component,
        })
    }
}

impl<'a> Crossing<'a> {
    /// The document with the value in place of the one under the component's name, or without that one.
    fn with(&self, value: Option<Value>) -> Result<Document, NoMemory>
        ensures { IfOk result (λ set. set ≡ set_under self.now.component.now (option_map tree value) self.now.document) }
    {
        let name = self.component.as_str();
        let mut set = self.document.try_clone()?;
        match value {
            Some(value) => set.put(name, value)?,
            None => set.remove(name)?,
        };
        Ok(set)
    }

    /// Whether the component is the same as the other one's, and the documents differ in nothing but the value under its name.
    fn is_like(&self, other: &Crossing<'_>) -> bool
        ensures { IsTrue result → AreLike self.now other.now }
    {
        let name = self.component.as_str();
        name == other.component.as_str() && same_but_under(name, &self.document, &other.document)
    }
}

impl<'a> Way<'a> {
    /// The way that the path leads in the row. Fails when memory runs out.
    pub(crate) fn of(alloc: Global, row: &'a Document, path: &'a Path) -> Result<Self, NoMemory>
        requires { IsSome (reached path.now row.now) }
        ensures { IfOk result (λ way. (v : Candidate) → set_through path.now v row.now ≡ set_on_way way v) }
    {
        let components = path.components();
        let mut last = Stop {
            document: row,
            component: &components[0],
        };
        let outermost = last.crossing()?;
        let mut inner = Vec::new(alloc);
        'components: for component in behind(components) {
            let Some(document) = last.next() else {
                unreachable!();
            };
            last = Stop {
                document,
                component,
            };
            inner.push(last.crossing()?)?;
        }
        Ok(Way { outermost, inner })
    }

    /// The row with the value in place of the one that the path leads to, or without that one. It shares what it doesn't change.
    /// Fails when memory runs out.
    pub(crate) fn with(&self, value: Option<Value>) -> Result<Document, NoMemory>
        ensures { IfOk result (λ set. set ≡ set_on_way self.now (option_map tree value)) }
    {
        let outermost = set_inside(self.inner.as_slice(), value)?;
        self.outermost.with(outermost)
    }

    /// Whether the components are the same as the other way's, and the rows differ in nothing but the values that the ways lead
    /// to. Takes no memory.
    pub(crate) fn is_like(&self, other: &Way<'_>) -> bool
        ensures { IsTrue result → (v : Tree) → set_on_way self.now (Some v) ≡ set_on_way other.now (Some v) }
    {
        self.outermost.is_like(&other.outermost)
            && are_like(self.inner.as_slice(), other.inner.as_slice())
    }
}

/// What replaces the outermost document after the value is set in the last one. Each document is in the one before it.
fn set_inside(inner: &[Crossing<'_>], value: Option<Value>) -> Result<Option<Value>, NoMemory>
    ensures { IfOk result (λ set. option_map tree set ≡ set_inward inner.now (option_map tree value)) }
{
    let mut value = value;
    'outward: for place in (0..inner.len()).rev() {
        value = Some(Value::Doc(inner[place].with(value)?));
    }
    Ok(value)
}

/// Whether there are as many documents as others, and each is like the one at its place.
fn are_like(inner: &[Crossing<'_>], others: &[Crossing<'_>]) -> bool
    ensures { IsTrue result → (v : Tree) → set_inward inner.now (Some v) ≡ set_inward others.now (Some v) }
{
    if inner.len() != others.len() {
        return false;
    }
    'places: for place in 0..inner.len() {
        if !inner[place].is_like(&others[place]) {
            return false;
        }
    }
    true
}

/// Whether two documents have the same fields, except for the value under the name.
fn same_but_under(name: &str, document: &Document, other: &Document) -> bool
    ensures { IsTrue result → (v : Tree) → with_value_under name.now v document.now ≡ with_value_under name.now v other.now }
{
    document.len() == other.len() && same_fields_but(name, document, other)
}

/// Whether the fields at the places that both documents have are the same, except for the value under the name.
fn same_fields_but(name: &str, document: &Document, other: &Document) -> bool
    ensures { result ≡ fields_but name.now document.now other.now }
{
    document
        .iter()
        .zip(other.iter())
        .all(|(field, other)| same_field_but(name, field, other))
}

/// Whether two fields have the same name, and the same value if that isn't the given name.
fn same_field_but(name: &str, field: (&str, &Value), other: (&str, &Value)) -> bool
    ensures { result ≡ field_but name.now (field.entry.0.now, tree field.entry.1.now) (other.entry.0.now, tree other.entry.1.now) }
{
    field.0 == other.0 && (field.0 == name || is_same(field.1, other.1))
}
