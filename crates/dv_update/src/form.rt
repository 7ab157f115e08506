//! Updates as parsed.

ghost use Rattle.std.specs.Prelude.{◌≡◌, map, IfOk};
ghost use Rattle.dv_update.specs.View.{edit};

use crate::number::Number;
use dv_candidates::Path;
use dv_match::Test;
use dv_value::{Document, List, NoMemory, Value};
use std::marker::Model;

/// What is done to a document.
#[derive(Debug, Drop)]
pub enum Update {
    /// All fields but `_id` are replaced by those of the document.
    Replacement(Document),
    /// The edits are made one after the other.
    Operators(Edits),
}

/// What is done at a path.
#[derive(Debug, Drop)]
pub struct Edit {
    /// The path.
    pub path: Path,
    /// What is done there.
    pub operation: Operation,
}

/// What an operator does to a field. A slot beyond an array's end is a missing field.
#[derive(Debug, Drop)]
pub enum Operation {
    /// `$set`: the value is put there.
    Set(Value),
    /// `$unset`: the field is removed; an array's element becomes null.
    Unset,
    /// `$inc`: the number is added to the field's value; a missing field becomes the number.
    Inc(Number),
    /// `$push`: the values are appended to the field's array; a missing field becomes an array of the values.
    Push(List),
    /// `$pull`: elements are removed from the field's array.
    Pull(Pulled),
}

/// Which elements `$pull` removes from an array.
#[derive(Debug, Drop)]
pub enum Pulled {
    /// Those that compare equal to the value.
    Equal(Value),
    /// Those that pass the test.
    Passing(Test),
}

/// Edits in the order of their paths: component by component, whole numbers first and by number, then names by their
/// bytes.
#[derive(Debug, Drop)]
pub struct Edits {
    edits: Vec<Edit>,
}

impl Model for Edits {
    ghost use Rattle.std.specs.Prelude as prelude;
    ghost use Rattle.std.specs.Prelude.{map};
    ghost use Rattle.dv_update.specs.Update as form;
    ghost use Rattle.dv_update.specs.Inner.UpdateCode.{coded_edits};

    ghost Value = { prelude.List form.Edit };

    ghost coded = { coded_edits };

    ghost use Rattle.dv_update.specs.View.{edit};

    ghost view = { λ e. map edit e.edits.items };
}

impl Edits {
    /// The list of these edits. Takes no memory.
    pub(crate) fn of(edits: Vec<Edit>) -> Self
        ensures { result ≡ map edit edits.items }
    {
        Edits { edits }
    }

    /// The edits in order.
    pub fn as_slice(&self) -> &[Edit]
        ensures { map edit result.now ≡ self.now }
    {
        self.edits.as_slice()
    }

    /// A copy of its own. Fails with `NoMemory` when memory runs out.
    pub fn try_clone(&self) -> Result<Self, NoMemory>
        ensures { IfOk result (λ copy. copy ≡ self.now) }
    {
        let mut edits = Vec::with_capacity(*self.edits.allocator(), self.edits.len())?;
        for edit in &self.edits {
            edits.push(edit.try_clone()?)?;
        }
        Ok(Edits { edits })
    }
}

impl Edit {
    /// A copy of its own. Fails with `NoMemory` when memory runs out.
    pub fn try_clone(&self) -> Result<Self, NoMemory>
        ensures { IfOk result (λ copy. copy ≡ self.now) }
    {
        Ok(Edit {
            path: self.path.try_clone()?,
            operation: self.operation.try_clone()?,
        })
    }
}

impl Operation {
    /// A copy of its own. Fails with `NoMemory` when memory runs out.
    pub fn try_clone(&self) -> Result<Self, NoMemory>
        ensures { IfOk result (λ copy. copy ≡ self.now) }
    {
        match self {
            Operation::Set(value) => Ok(Operation::Set(value.try_clone()?)),
            Operation::Unset => Ok(Operation::Unset),
            Operation::Inc(number) => Ok(Operation::Inc(*number)),
            Operation::Push(values) => Ok(Operation::Push(values.try_clone()?)),
            Operation::Pull(pulled) => Ok(Operation::Pull(pulled.try_clone()?)),
        }
    }
}

impl Pulled {
    /// A copy of its own. Fails with `NoMemory` when memory runs out.
    pub fn try_clone(&self) -> Result<Self, NoMemory>
        ensures { IfOk result (λ copy. copy ≡ self.now) }
    {
        match self {
            Pulled::Equal(value) => Ok(Pulled::Equal(value.try_clone()?)),
            Pulled::Passing(test) => Ok(Pulled::Passing(test.try_clone()?)),
        }
    }
}

impl Update {
    /// A copy of its own. Fails with `NoMemory` when memory runs out.
    pub fn try_clone(&self) -> Result<Self, NoMemory>
        ensures { IfOk result (λ copy. copy ≡ self.now) }
    {
        match self {
            Update::Replacement(document) => Ok(Update::Replacement(document.try_clone()?)),
            Update::Operators(edits) => Ok(Update::Operators(edits.try_clone()?)),
        }
    }
}
