//! Expressions.

ghost use Rattle.std.specs.Prelude.{◌≡◌, ◌<◌, [], Some, length, map, IfOk, IfSome, OnOk, OnErr};
ghost use Rattle.std.specs.Option.{option_map};
ghost use Rattle.dv_value.specs.Names.{value_at};
ghost use Rattle.dv_value.specs.View.{tree};
ghost use Rattle.dv_row.specs.Expressions as defined;
ghost use Rattle.dv_row.specs.ExpressionView.{expression_seen, named};
ghost use Rattle.dv_row.specs.RowValueView.{row_value};

use crate::conflict::has_conflict;
use crate::row_value::{RowValue, made, path_value};
use dv_candidates::Path;
use dv_path::expr_value;
use dv_value::{BsonFault, Document, NoMemory, Str, Value};
use std::alloc::{AllocError, Global};
use std::marker::Model;

/// What is computed over a row.
#[cycle(expr)]
#[derive(Debug, Drop)]
pub enum Expr {
    /// What the path leads to.
    Path(Path),
    /// The value itself.
    Constant(Value),
    /// A document of fields that are computed.
    Document(Computed),
}

/// A field that is computed over a row.
#[cycle(expr)]
#[derive(Debug, Drop)]
pub struct ComputedField {
    /// The field's name.
    pub name: Str,
    /// The expression of its value.
    pub expr: Expr,
}

/// Fields that are computed over a row, in written order.
#[cycle(expr)]
#[derive(Debug, Drop)]
pub struct Computed {
    fields: Vec<ComputedField>,
    /// Whether the same field of the row is known to be shown more than once.
    repeats: bool,
}

impl Model for Computed {
    ghost use Rattle.std.specs.Prelude.{map};
    ghost use Rattle.dv_row.specs.Expressions as forms;
    ghost use Rattle.dv_row.specs.Expressions.{computed_of, computed_weight};
    ghost use Rattle.dv_row.specs.Inner.ExpressionCode.{coded_computed};

    ghost Value = { forms.Computed };

    ghost coded = { coded_computed };

    ghost use Rattle.dv_row.specs.ExpressionView.{named};

    ghost view = { λ c. computed_of (map named c.fields.items) };

    ghost size = { computed_weight };

    ghost use Rattle.std.proofs.Common.{arith};
    ghost use Rattle.dv_row.specs.Inner.ExpressionFalls.{computed_fall};

    ghost size_decreases = { λ c h. omega (arith, computed_fall c.fields.items) };
}

impl Expr {
    /// The value over the row; `None` if it is missing. Fails with `NoMemory` when memory runs out.
    #[cycle(values)]
    #[tactic(auto, unfolding(crate::specs::Expressions::value_of))]
    pub fn value(&self, alloc: Global, row: &Document) -> Result<Option<Value>, NoMemory>
        ensures { IfOk result (λ value. option_map tree value ≡ defined.value_of (expression_seen self.now) row.now) }
    {
        match self {
            Expr::Path(path) => expr_value(alloc, row, path),
            Expr::Constant(value) => Ok(Some(value.try_clone()?)),
            Expr::Document(computed) => {
                let mut document = Document::new(alloc);
                computed.push_values(alloc, row, &mut document)?;
                Ok(Some(Value::Doc(document)))
            }
        }
    }

    /// The value over the row, without a copy if it is in the row or in the expression; `None` if it is missing. Fails with
    /// `NoMemory` when memory runs out.
    #[tactic(auto, unfolding(crate::specs::Expressions::value_of))]
    pub fn value_in<'a>(
        &'a self,
        alloc: Global,
        row: &'a Document,
    ) -> Result<Option<RowValue<'a>>, NoMemory>
        ensures { IfOk result (λ value. option_map row_value value ≡ defined.value_of (expression_seen self.now) row.now) }
    {
        match self {
            Expr::Path(path) => path_value(alloc, row, path),
            Expr::Constant(value) => Ok(Some(RowValue::Lent(value))),
            Expr::Document(_) => made(self.value(alloc, row)?),
        }
    }

    /// Appends the path to others, if it has one name. For a document, appends those of its fields.
    #[cycle(shown)]
    fn push_shown(&self, shown: &mut Vec<Path>) -> Result<(), NoMemory> {
        match self {
            Expr::Path(path) if path.components().len() == 1 => shown.push(path.try_clone()?)?,
            Expr::Document(computed) => computed.push_shown(shown)?,
            Expr::Path(_) | Expr::Constant(_) => {}
        }
        Ok(())
    }

    /// The place of the row's field whose value this is, if it is a path of one name.
    #[tactic(auto, unfolding(crate::specs::Expressions::value_of))]
    fn place_in(&self, row: &Document) -> Option<usize>
        ensures value { IfSome result (λ place. Some (value_at place row.now) ≡ defined.value_of (expression_seen self.now) row.now) }
        ensures within { IfSome result (λ place. place < length row.now) }
    {
        let Expr::Path(path) = self else {
            return None;
        };
        match path.components() {
            [only] => row.place_of(only.as_str()),
            _ => None,
        }
    }

    /// A copy of its own. Fails with `NoMemory` when memory runs out.
    #[cycle(expr_copying)]
    pub fn try_clone(&self) -> Result<Self, NoMemory>
        ensures { IfOk result (λ copy. copy ≡ self.now) }
    {
        match self {
            Expr::Path(path) => Ok(Expr::Path(path.try_clone()?)),
            Expr::Constant(value) => Ok(Expr::Constant(value.try_clone()?)),
            Expr::Document(computed) => Ok(Expr::Document(computed.try_clone()?)),
        }
    }
}

impl ComputedField {
    /// A copy of its own. Fails with `NoMemory` when memory runs out.
    #[cycle(expr_copying)]
    pub fn try_clone(&self) -> Result<Self, NoMemory>
        ensures { IfOk result (λ copy. copy ≡ self.now) }
    {
        Ok(ComputedField {
            name: self.name.try_clone()?,
            expr: self.expr.try_clone()?,
        })
    }
}

impl Computed {
    /// The list of these fields. Takes no memory.
    pub(crate) fn of(fields: Vec<ComputedField>) -> Self
        ensures { result ≡ defined.computed_of (map named fields.items) }
    {
        Computed {
            fields,
            repeats: false,
        }
    }

    /// The same fields. If some of them show the same field of a row, they will share its text. Fails when memory runs out.
    pub(crate) fn sharing(self, alloc: Global) -> Result<Self, NoMemory>
        ensures { IfOk result (λ computed. computed ≡ self) }
    {
        let mut shown = Vec::new(alloc);
        self.push_shown(&mut shown)?;
        let Computed { fields, repeats: _ } = self;
        Ok(Computed {
            fields,
            repeats: has_conflict(shown),
        })
    }

    /// Appends the paths of one name to others, also those of fields in fields.
    #[cycle(shown)]
    fn push_shown(&self, shown: &mut Vec<Path>) -> Result<(), NoMemory> {
        for field in &self.fields {
            field.expr.push_shown(shown)?;
        }
        Ok(())
    }

    /// Appends the fields that aren't missing to those of a document. Fails when memory runs out.
    pub(crate) fn push_computed(
        &self,
        alloc: Global,
        row: &Document,
        document: &mut Document,
    ) -> Result<(), NoMemory>
        ensures { OnOk result (document.new ≡ defined.with_computed self.now row.now document.old) }
    {
        if self.repeats {
            let row = row.try_share()?;
            self.push_values(alloc, &row, document)
        } else {
            self.push_values(alloc, row, document)
        }
    }

    /// The fields in written order.
    pub fn as_slice(&self) -> &[ComputedField]
        ensures { defined.computed_of (map named result.now) ≡ self.now }
    {
        self.fields.as_slice()
    }

    /// Appends the fields that aren't missing to those of a document.
    #[cycle(values)]
    fn push_values(
        &self,
        alloc: Global,
        row: &Document,
        document: &mut Document,
    ) -> Result<(), NoMemory>
        ensures { OnOk result (document.new ≡ defined.with_computed self.now row.now document.old) }
    {
        'fields: for field in &self.fields {
            let name = field.name.as_str();
            match field.expr.place_in(row) {
                Some(place) => show_field(document, name, row, place)?,
                None => push_field(document, name, field.expr.value(alloc, row)?)?,
            }
        }
        Ok(())
    }

    /// A copy of its own. Fails with `NoMemory` when memory runs out.
    #[cycle(expr_copying)]
    pub fn try_clone(&self) -> Result<Self, NoMemory>
        ensures { IfOk result (λ copy. copy ≡ self.now) }
    {
        let mut fields = Vec::with_capacity(*self.fields.allocator(), self.fields.len())?;
        for field in &self.fields {
            fields.push(field.try_clone()?)?;
        }
        Ok(Computed {
            fields,
            repeats: self.repeats,
        })
    }
}

/// A row without fields that expects those of the row before it, if there is one: fields of the same names share these names.
/// Fails with `NoMemory` when memory runs out.
pub(crate) fn row_beside(alloc: Global, before: Option<&Document>) -> Result<Document, NoMemory>
    ensures { IfOk result (λ row. row ≡ []) }
{
    match before {
        Some(before) => Document::expecting(alloc, before),
        None => Ok(Document::new(alloc)),
    }
}

/// A copy of the document with its own list of values. It shares names with the row before it, if there is one. Fails with
/// `NoMemory` when memory runs out.
pub fn copy_beside(
    alloc: Global,
    document: &Document,
    before: Option<&Document>,
) -> Result<Document, NoMemory>
    ensures { IfOk result (λ copy. copy ≡ document.now) }
{
    let mut copy = row_beside(alloc, before)?;
    'fields: for (name, value) in document.iter() {
        push_field(&mut copy, name, Some(value.try_clone()?))?;
    }
    Ok(copy)
}

/// Puts a field after those of the document, if there is a value. A name that the document has already, or that no field may have,
/// is left out. Fails with `NoMemory` when memory runs out; then nothing is changed.
pub fn push_field(document: &mut Document, name: &str, value: Option<Value>) -> Result<(), NoMemory>
    ensures ok { OnOk result (document.new ≡ defined.with_field_behind name.now (option_map tree value) document.old) }
    ensures err { OnErr result (document.new ≡ document.old) }
{
    let Some(value) = value else {
        return Ok(());
    };
    match document.push(name, value) {
        Err(BsonFault::NoMemory) => Err(AllocError),
        _ => Ok(()),
    }
}

/// Like `push_field`, for a field that shows the value at `place` of another document, as `push_shown` of `Document` does.
pub(crate) fn show_field(
    document: &mut Document,
    name: &str,
    from: &Document,
    place: usize,
) -> Result<(), NoMemory>
    requires { place < length from.now }
    ensures ok { OnOk result (document.new ≡ defined.with_field_behind name.now (Some (value_at place from.now)) document.old) }
    ensures err { OnErr result (document.new ≡ document.old) }
{
    match document.push_shown(name, from, place) {
        Err(BsonFault::NoMemory) => Err(AllocError),
        _ => Ok(()),
    }
}
