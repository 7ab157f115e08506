//! Rows in as few nodes of a tree as can hold them.

ghost use Rattle.std.specs.Prelude.{◌≡◌, IfOk};
ghost use Rattle.std.specs.BTreeMap.{IsFromIterResult};
ghost use Rattle.std.specs.List.{AllByRecursion};
ghost use Rattle.std.specs.Map.{keys_of};
ghost use Rattle.dv_change.specs.Inner.Changes.{IsPositioned};
ghost use Rattle.dv_change.specs.Positions.{IsExact, pos_order};

use crate::position::Pos;
use dv_value::{Document, NoMemory};
use std::alloc::Global;
use std::collections::BTreeMap;

/// The same rows, in as few nodes as can hold them: rows that were inserted in ascending order leave each node half empty. Fails
/// when memory runs out.
pub(crate) fn packed(
    alloc: Global,
    rows: BTreeMap<Pos, Document>,
) -> Result<BTreeMap<Pos, Document>, NoMemory>
    requires { IsPositioned rows.entries }
    ensures { IfOk result (λ packed. packed.entries ≡ rows.entries) }
{
    let packed = built_anew(alloc, rows)?;
    law_exact_rows(&packed);
    Ok(packed)
}

/// The rows in a tree that is built from all of them at once. Fails when memory runs out.
fn built_anew(
    alloc: Global,
    rows: BTreeMap<Pos, Document>,
) -> Result<BTreeMap<Pos, Document>, NoMemory>
    ensures { IfOk result (IsFromIterResult pos_order rows.entries) }
{
    rows.into_iter().collect(alloc)
}

/// Each key of the positions is the key of some value, or the one key that no value has. Changes nothing.
fn law_exact_rows(rows: &BTreeMap<Pos, Document>)
    ensures { AllByRecursion IsExact (keys_of rows.now.entries) }
{
    'rows: for pos in rows.keys() {
        pos.law_exact();
    }
}
