//! `$group`.

ghost use Rattle.std.specs.Prelude.{◌≡◌, [], ℕ, suc, map, IfOk, OnOk};
ghost use Rattle.dv_row.specs.ExpressionView.{expression_seen};
ghost use Rattle.dv_row.specs.RowValueView.{row_value};
ghost use Rattle.dv_gather.specs.Inner.SumBounds.{EachWithin, most};
ghost use Rattle.dv_gather.specs.Grouping as defined;
ghost use Rattle.dv_gather.specs.GroupParsing.{grouping};
ghost use Rattle.dv_gather.specs.Inner.GroupView.{accumulation};
ghost use Rattle.dv_gather.specs.View.{referred};
ghost use Rattle.dv_gather.specs.Inner.GroupStates.{row_of_state, groups_with_row, groups_with_rows};
ghost use Rattle.dv_gather.specs.Inner.StateView.{groups_seen};

use crate::accumulator::Accumulator;
use crate::group_state::GroupState;
use dv_order::{Key, key_of, laws};
use dv_row::{Expr, RowValue};
use dv_value::{Document, NoMemory, Str, Value};
use std::alloc::Global;
use std::collections::BTreeMap;
use std::marker::Model;

/// A field of a group: what is computed from the values of an expression over the group's rows.
#[derive(Debug, Drop)]
pub struct GroupField {
    /// The field's name.
    pub name: Str,
    /// What is computed from the values.
    pub accumulator: Accumulator,
    /// The expression of a row's value.
    pub expr: Expr,
}

/// How rows are grouped: by the value of an expression, and with which fields, in written order.
#[derive(Debug, Drop)]
pub struct Group {
    key: Expr,
    fields: Vec<GroupField>,
}

impl Model for Group {
    ghost use Rattle.std.specs.Prelude.{map};
    ghost use Rattle.dv_row.specs.ExpressionView.{expression_seen};
    ghost use Rattle.dv_gather.specs.Grouping.{Grouping};
    ghost use Rattle.dv_gather.specs.Inner.GroupCode.{coded_grouping};

    ghost Value = { Grouping };

    ghost coded = { coded_grouping };

    ghost use Rattle.dv_gather.specs.Inner.GroupView.{accumulation};
    ghost use Rattle.dv_gather.specs.GroupParsing.{grouping};

    ghost view = { λ g. grouping (expression_seen g.key) (map accumulation g.fields.items) };
}

impl GroupField {
    /// A copy of its own. Fails with `NoMemory` when memory runs out.
    pub fn try_clone(&self) -> Result<Self, NoMemory>
        ensures { IfOk result (λ copy. copy ≡ self.now) }
    {
        Ok(GroupField {
            name: self.name.try_clone()?,
            accumulator: self.accumulator,
            expr: self.expr.try_clone()?,
        })
    }
}

impl Group {
    /// The grouping by this expression, with these fields. Takes no memory.
    pub(crate) fn of(key: Expr, fields: Vec<GroupField>) -> Self
        ensures { result ≡ grouping (expression_seen key) (map accumulation fields.items) }
    {
        Group { key, fields }
    }

    /// The fields in written order. Takes no memory.
    pub fn fields(&self) -> &[GroupField]
        ensures { map accumulation result.now ≡ self.now.fields }
    {
        self.fields.as_slice()
    }

    /// A row for each group of the rows, ascending by their keys. Rows whose keys compare equal are one group, and a missing key
    /// counts as null. A group's row has `_id`, in the encoding of the group's first row, and then the fields. Takes n log n time
    /// for each field. Fails with `NoMemory` when memory runs out.
    pub fn rows(&self, alloc: Global, rows: &[&Document]) -> Result<Vec<Document>, NoMemory>
        ensures { IfOk result (λ left. left.items ≡ defined.grouped self.now (referred rows.now)) }
    {
        laws::keys_stand_as_their_values();
        let groups = self.groups(alloc, rows)?;
        self.rows_of_groups(alloc, groups)
    }

    /// The groups of the rows, by their keys.
    fn groups(
        &self,
        alloc: Global,
        rows: &[&Document],
    ) -> Result<BTreeMap<Key, GroupState>, NoMemory>
        ensures { IfOk result (λ groups. groups_seen groups.entries ≡ groups_with_rows self.now (referred rows.now) []) }
    {
        let mut groups = BTreeMap::new(alloc);
        'rows: for row in rows {
            self.add(alloc, &mut groups, row)?;
        }
        Ok(groups)
    }

    /// Adds a row to the group of its key.
    fn add(
        &self,
        alloc: Global,
        groups: &mut BTreeMap<Key, GroupState>,
        row: &Document,
    ) -> Result<(), NoMemory>
        requires { EachWithin most (groups_seen groups.old.entries) }
        ensures groups { OnOk result (groups_seen groups.new.entries ≡ groups_with_row self.now row.now (groups_seen groups.old.entries)) }
        ensures within { OnOk result ((count : ℕ) → EachWithin count (groups_seen groups.old.entries) → EachWithin (suc count) (groups_seen groups.new.entries)) }
    {
        let key = self.key_in(alloc, row)?;
        let place = key_of(key.get())?;
        let state = groups.entry(place)?.or_insert(GroupState::new(alloc));
        state.add(alloc, key, self.fields(), row)
    }

    /// The row's key, null if it is missing. Fails with `NoMemory` when memory runs out.
    pub fn key_in<'a>(&'a self, alloc: Global, row: &'a Document) -> Result<RowValue<'a>, NoMemory>
        ensures { IfOk result (λ key. row_value key ≡ defined.key_in self.now row.now) }
    {
        match self.key.value_in(alloc, row)? {
            Some(key) => Ok(key),
            None => Ok(RowValue::Made(Value::Null)),
        }
    }

    /// The rows of the groups, ascending by their keys.
    fn rows_of_groups(
        &self,
        alloc: Global,
        groups: BTreeMap<Key, GroupState>,
    ) -> Result<Vec<Document>, NoMemory>
        ensures { IfOk result (λ left. left.items ≡ map (λ e. row_of_state self.now.fields e.1) (groups_seen groups.entries)) }
    {
        let mut left = Vec::with_capacity(alloc, groups.len())?;
        'groups: for state in groups.into_values() {
            let row = state.row(alloc, &self.fields, left.last())?;
            left.push(row)?;
        }
        Ok(left)
    }

    /// A copy of its own. Fails with `NoMemory` when memory runs out.
    pub fn try_clone(&self) -> Result<Self, NoMemory>
        ensures { IfOk result (λ copy. copy ≡ self.now) }
    {
        let mut fields = Vec::with_capacity(*self.fields.allocator(), self.fields.len())?;
        'fields: for field in &self.fields {
            fields.push(field.try_clone()?)?;
        }
        let key = self.key.try_clone()?;
        Ok(Group { key, fields })
    }
}
