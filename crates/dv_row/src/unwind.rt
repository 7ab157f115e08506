//! `$unwind`.

ghost use Rattle.std.specs.Prelude.{◌≡◌, ◌++◌, [], if◌then◌else◌, length, take, Some, IfOk, OnErr, OnOk};
ghost use Rattle.dv_value.specs.View.{tree};
ghost use Rattle.dv_value.specs.Tree.{array, elements_of};
ghost use Rattle.dv_value.specs.Results.{Gives};
ghost use Rattle.dv_row.specs.declared.fault.PipelineFault.TheVariants.{NoMemory as no_memory};
ghost use Rattle.std.specs.List.{list_all};
ghost use Rattle.dv_row.specs.Parsing as parsing;
ghost use Rattle.dv_row.specs.Unwinding as defined;
ghost use Rattle.dv_row.specs.Inner.UnwoundRows.{rows_of_origin};

use crate::fault::PipelineFault;
use crate::field_path::field_path;
use crate::row_value::standing;
use crate::unwound_rows::{Origin, UnwoundRows};
use crate::way::Way;
use dv_candidates::Path;
use dv_value::{Document, List, NoMemory, Value};
use std::alloc::Global;

/// A row for each element of the array that the path leads to, with the element in its place; another value counts as one
/// element. The path goes through documents only, else it leads to nothing.
#[derive(Debug, Drop)]
pub struct Unwind {
    /// The path.
    pub path: Path,
    /// Whether a row stays if the path leads to nothing, to null or to an empty array, which is removed from it.
    pub preserve: bool,
}

impl Unwind {
    /// The unwinding that the value is: `"$path"`, or a document with a path and `preserveNullAndEmptyArrays`, a boolean that may
    /// be left out. Refused with `BadSpec` if it is none, and with `NoMemory` if memory runs out.
    #[tactic(auto, unfolding(crate::specs::Parsing::unwind_in))]
    pub fn parse(alloc: Global, value: &Value) -> Result<Unwind, PipelineFault>
        ensures { Gives no_memory (λ unwind. unwind) result (parsing.unwind_in (tree value.now)) }
    {
        match value {
            Value::Text(text) => Ok(Unwind {
                path: field_path(alloc, text.as_str())?,
                preserve: false,
            }),
            Value::Doc(options) => Unwind::of_options(alloc, options),
            _ => Err(PipelineFault::BadSpec),
        }
    }

    fn of_options(alloc: Global, options: &Document) -> Result<Unwind, PipelineFault>
        ensures { Gives no_memory (λ unwind. unwind) result (parsing.unwind_of options.now) }
    {
        if !has_options(options) {
            return Err(PipelineFault::BadSpec);
        }
        let path = match options.get("path") {
            Some(Value::Text(text)) => field_path(alloc, text.as_str())?,
            _ => return Err(PipelineFault::BadSpec),
        };
        let preserve = match options.get("preserveNullAndEmptyArrays") {
            Some(Value::Bool(preserve)) => *preserve,
            Some(_) => return Err(PipelineFault::BadSpec),
            None => false,
        };
        Ok(Unwind { path, preserve })
    }

    /// The rows of a row. Fails with `NoMemory` when memory runs out.
    pub fn rows(&self, alloc: Global, row: &Document) -> Result<Vec<Document>, NoMemory>
        ensures { IfOk result (λ rows. rows.items ≡ defined.unwound self.now row.now) }
    {
        let mut rows = Vec::new(alloc);
        self.push_rows(row, &mut rows)?;
        Ok(rows)
    }

    /// Appends the rows of a row to others. Fails with `NoMemory` when memory runs out; then some of them may have been appended.
    fn push_rows(&self, row: &Document, rows: &mut Vec<Document>) -> Result<(), NoMemory>
        ensures rows { OnOk result (rows.new.items ≡ rows.old.items ++ defined.unwound self.now row.now) }
        ensures begins { OnErr result (take (length rows.old.items) rows.new.items ≡ rows.old.items) }
    {
        let unwound = self.each_row(*rows.allocator(), row)?;
        'places: for place in 0..unwound.len() {
            rows.push(unwound.row(place)?)?;
        }
        Ok(())
    }

    /// The rows of a row, each of which is made when it is requested. Fails with `NoMemory` when memory runs out.
    #[tactic(auto, unfolding(crate::specs::Unwinding::unwound))]
    pub fn each_row<'a>(
        &'a self,
        alloc: Global,
        row: &'a Document,
    ) -> Result<UnwoundRows<'a>, NoMemory>
        ensures { IfOk result (λ rows. rows ≡ defined.unwound self.now row.now) }
    {
        let Some(value) = standing(row, self.path.components()).flatten() else {
            return Ok(self.preserved(Origin::Itself(row)));
        };
        match value {
            Value::Null => Ok(self.preserved(Origin::Itself(row))),
            Value::Array(list) => self.each_of_elements(alloc, row, list),
            _ => Ok(UnwoundRows::of(Origin::Itself(row))),
        }
    }

    /// The rows of this origin if rows without elements stay, otherwise no row.
    fn preserved<'a>(&self, origin: Origin<'a>) -> UnwoundRows<'a>
        ensures { result ≡ (if self.now.preserve then rows_of_origin origin.entry else []) }
    {
        if self.preserve {
            UnwoundRows::of(origin)
        } else {
            UnwoundRows::of(Origin::Nothing)
        }
    }

    /// A row for each element of the array. For an empty array, the row without it if rows without elements stay.
    fn each_of_elements<'a>(
        &'a self,
        alloc: Global,
        row: &'a Document,
        list: &'a List,
    ) -> Result<UnwoundRows<'a>, NoMemory>
        requires { defined.reached self.now.path row.now ≡ Some (array (elements_of list.now)) }
        ensures { IfOk result (λ rows. rows ≡ defined.rows_of_elements self.now row.now (elements_of list.now)) }
    {
        let way = Way::of(alloc, row, &self.path)?;
        let elements = list.as_slice();
        if elements.is_empty() {
            return Ok(self.preserved(Origin::Emptied(way)));
        }
        Ok(UnwoundRows::of(Origin::Elements(way, elements)))
    }

    /// A copy of its own. Fails with `NoMemory` when memory runs out.
    pub fn try_clone(&self) -> Result<Self, NoMemory>
        ensures { IfOk result (λ copy. copy ≡ self.now) }
    {
        Ok(Unwind {
            path: self.path.try_clone()?,
            preserve: self.preserve,
        })
    }
}

/// Whether each name is that of an option.
fn has_options(options: &Document) -> bool
    ensures { result ≡ list_all parsing.is_option options.now }
{
    options.iter().all(|(name, _)| is_option(name))
}

fn is_option(name: &str) -> bool
    ensures { result ≡ parsing.is_option_name name.now }
{
    name == "path" || name == "preserveNullAndEmptyArrays"
}
