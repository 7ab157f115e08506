//! Names that documents of one shape share.

ghost use Rattle.std.specs.Prelude.{◌≡◌, map};
ghost use Rattle.dv_value.specs.View.{tree};

use crate::limits::MAX_LEVELS;
use crate::value::{Content, Document, Fields, Measured, Value};
use std::rc::Rc;

impl Document {
    /// Shares the names of the n fields with the other document, if its list of names begins with these, and at most n + 1 names
    /// follow. If a copy shares the fields, nothing is done. A caller sees no change except in how much memory is taken. Takes no
    /// memory.
    pub fn share_names(&mut self, with: &Document)
        ensures { self.new ≡ self.old }
    {
        self.share_names_within(with, MAX_LEVELS);
    }

    /// As `share_names`, down to this many levels inside the document.
    #[cycle(sharing)]
    fn share_names_within(&mut self, with: &Document, levels: u32)
        ensures { self.new ≡ self.old }
    {
        let Content::Own(shared) = &mut self.content else {
            return;
        };
        let Content::Own(others) = &with.content else {
            return;
        };
        if let Some(own) = Rc::get_mut(shared) {
            own.share_names(others.fields(), levels);
        }
    }
}

impl Measured {
    /// As `share_names` of `Fields`. The encoding stays as it is.
    #[cycle(sharing)]
    fn share_names(&mut self, other: &Fields, levels: u32)
        ensures { self.new ≡ self.old }
    {
        self.fields.share_names(other, levels);
    }
}

impl Fields {
    /// Shares the other's names instead of its own equal ones. The same is done for documents in documents, down to this many
    /// levels.
    #[cycle(sharing)]
    fn share_names(&mut self, other: &Fields, levels: u32)
        ensures { self.new ≡ self.old }
    {
        if !self.names.begins_as(&other.names, self.values.len()) {
            return;
        }
        let Ok(names) = other.names.clone() else {
            return;
        };
        self.names = names;
        share_inner_names(&mut self.values, &other.values, levels);
    }
}

/// Makes each document among these values share the names of the document at the same place among the others.
#[cycle(sharing)]
fn share_inner_names(values: &mut [Value], others: &[Value], levels: u32)
    ensures { map tree values.new ≡ map tree values.old }
{
    if levels == 0 {
        return;
    }
    for place in 0..values.len().min(others.len()) {
        if let Value::Doc(document) = &mut values[place] {
            if let Value::Doc(other) = &others[place] {
                document.share_names_within(other, levels - 1);
            }
        }
    }
}
