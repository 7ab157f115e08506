//! `$sort`, updated by changes.

ghost use Rattle.std.specs.Prelude.{◌≡◌, ◌++◌, IfOk, drop, length};
ghost use Rattle.dv_path.specs.SortKey as keys;
ghost use Rattle.dv_flow.specs.Placed as defined;
ghost use Rattle.dv_flow.specs.Placed.{sorted_at};
ghost use Rattle.dv_flow.specs.Inner.Sorting.{sort_empty, sort_even, sort_exact, sort_ordered, sort_single};

use crate::by_row::ByRow;
use crate::row_turn::RowTurn;
use dv_change::{Ordered, Part, Pos};
use dv_order::Key;
use dv_path::{Direction, SortPart, SortSpec, sort_key};
use dv_value::{Document, NoMemory};
use std::alloc::Global;

/// Rows in the order of a sort, updated by changes.
pub type SortTurn = RowTurn<SortSpec>;

impl ByRow for SortSpec {
    ghost makes = { sorted_at };

    ghost origin = { λ parts q. drop (length parts) q };

    fn try_clone(&self) -> Result<Self, NoMemory> {
        SortSpec::try_clone(self)
    }

    #[tactic(auto, unfolding(crate::specs::Placed::sorted_at))]
    fn rows_of(
        &self,
        alloc: Global,
        pos: &Pos,
        row: &Document,
        _before: Option<&Document>,
    ) -> Result<Ordered<Document>, NoMemory> {
        let place = place_of(alloc, self, pos, row)?;
        Ordered::new(alloc).with(place, row.try_clone()?)
    }

    ghost ordered = { sort_ordered };

    ghost even = { sort_even };

    ghost empty = { sort_empty };

    ghost exact = { sort_exact };

    ghost single = { sort_single };
}

/// The position at which the sort places the row: its sort keys, followed by its own position. Fails when memory runs out.
fn place_of(alloc: Global, spec: &SortSpec, pos: &Pos, row: &Document) -> Result<Pos, NoMemory>
    ensures { IfOk result (λ place. place ≡ defined.sort_place spec.now row.now ++ pos.now) }
{
    let parts = spec.parts();
    if parts.len() == 1 {
        return pos.behind_part(alloc, part_of(&parts[0], row)?);
    }
    pos.behind(alloc, places_of(alloc, spec, row)?)
}

/// The sort keys of the row. Fails when memory runs out.
fn places_of(alloc: Global, spec: &SortSpec, row: &Document) -> Result<Vec<Part>, NoMemory>
    ensures { IfOk result (λ places. places.items ≡ defined.sort_place spec.now row.now) }
{
    let parts = spec.parts();
    let mut places = Vec::with_capacity(alloc, parts.len())?;
    for part in parts {
        places.push(part_of(part, row)?)?;
    }
    Ok(places)
}

/// The key by which a part of the sort places the row. Fails when memory runs out.
fn part_of(part: &SortPart, row: &Document) -> Result<Part, NoMemory>
    ensures { IfOk result (λ place. place ≡ defined.part_at part.now.direction (keys.sort_key row.now part.now.path part.now.direction)) }
{
    let key = sort_key(row, &part.path, part.direction)?;
    Ok(part_at(part.direction, key))
}

/// The key as a part of a position.
fn part_at(direction: Direction, key: Key) -> Part
    ensures { result ≡ defined.part_at direction key }
{
    match direction {
        Direction::Ascending => Part::Up(key),
        Direction::Descending => Part::Down(key),
    }
}
