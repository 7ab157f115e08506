//! Values that are in a row, or were made for it.

ghost use Rattle.std.specs.Prelude.{◌≡◌, IfOk, IfSome};
ghost use Rattle.std.specs.Option.{option_flatten, option_map};
ghost use Rattle.dv_value.specs.View.{tree};
ghost use Rattle.dv_path.specs.Expression as defined;
ghost use Rattle.dv_row.specs.RowValueView.{row_value};
ghost use Rattle.dv_row.specs.Unwinding.{reached};

use dv_candidates::{Component, Path};
use dv_path::expr_value;
use dv_value::{Document, NoMemory, Value};
use std::alloc::Global;

/// The value of an expression over a row.
#[derive(Debug, Drop)]
pub enum RowValue<'a> {
    /// One that is in the row or in the expression.
    Lent(&'a Value),
    /// One that was made for the row.
    Made(Value),
}

impl<'a> RowValue<'a> {
    /// The value. Takes no memory.
    pub fn get(&self) -> &Value
        ensures { tree result.now ≡ row_value self.now }
    {
        match self {
            RowValue::Lent(value) => value,
            RowValue::Made(value) => value,
        }
    }

    /// The value itself, or a copy of one that is lent. Fails with `NoMemory` when memory runs out.
    pub fn into_value(self) -> Result<Value, NoMemory>
        ensures { IfOk result (λ value. tree value ≡ row_value self.entry) }
    {
        match self {
            RowValue::Lent(value) => value.try_clone(),
            RowValue::Made(value) => Ok(value),
        }
    }
}

/// The value of the path over the row. It is in the row unless an array is on the path's way.
pub(crate) fn path_value<'a>(
    alloc: Global,
    row: &'a Document,
    path: &Path,
) -> Result<Option<RowValue<'a>>, NoMemory>
    ensures { IfOk result (λ value. option_map row_value value ≡ defined.expr row.now path.now) }
{
    match standing(row, path.components()) {
        Some(Some(value)) => Ok(Some(RowValue::Lent(value))),
        Some(None) => Ok(None),
        None => made(expr_value(alloc, row, path)?),
    }
}

/// A value that was made, if there is one.
pub(crate) fn made<'a>(value: Option<Value>) -> Result<Option<RowValue<'a>>, NoMemory>
    ensures { IfOk result (λ made. option_map row_value made ≡ option_map tree value) }
{
    match value {
        Some(value) => Ok(Some(RowValue::Made(value))),
        None => Ok(None),
    }
}

/// The value that an expression with this path has for the document, or `Some(None)` if it is missing. `None` if an array is on
/// the path's way: then the value is made from the array's elements.
pub(crate) fn standing<'a>(document: &'a Document, path: &[Component]) -> Option<Option<&'a Value>>
    ensures expression { IfSome result (λ found. option_map (λ value. tree value.now) found ≡ defined.expr document.now path.now) }
    // If an array is on the way, the path doesn't lead through documents only.
    ensures reached { option_map (λ value. tree value.now) (option_flatten result) ≡ reached path.now document.now }
{
    let Some((last, way)) = path.split_last() else {
        return None;
    };
    let mut inner = document;
    'components: for component in way {
        let Some(value) = inner.get(component.as_str()) else {
            return Some(None);
        };
        match value {
            Value::Doc(next) => inner = next,
            Value::Array(_) => return None,
            _ => return Some(None),
        }
    }
    Some(inner.get(last.as_str()))
}
