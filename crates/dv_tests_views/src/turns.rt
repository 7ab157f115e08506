//! Stages that are updated by changes: what they return, and what they count.

ghost use Rattle.std.specs.Prelude.{OnOk};

use dv_change::{Change, Input, Ordered, Part, Pos, Taken, Ticks, Turn, hand_over, take_in};
use dv_flow::{LimitTurn, MatchTurn, ProjectTurn, SortTurn, UnwindTurn};
use dv_match::Filter;
use dv_path::SortSpec;
use dv_row::{Project, Unwind};
use dv_testing::spelled::document;
use dv_value::{Document, Str, Value};
use std::alloc::Global;
use std::collections::BTreeMap;
use std::test::Fail;

/// The position at the number.
fn place(alloc: Global, number: u64) -> Result<Pos, Fail> {
    let start = Pos::of(alloc, Vec::new(alloc))?;
    Ok(start.with(alloc, Part::At(number))?)
}

/// The row is put at the number.
pub(crate) fn put(alloc: Global, number: u64, row: &[u8]) -> Result<Change, Fail> {
    let (pos, row) = (place(alloc, number)?, document(alloc, row)?);
    Ok(Change::Put { pos, row })
}

/// The row at the number is removed.
pub(crate) fn gone(alloc: Global, number: u64) -> Result<Change, Fail> {
    let pos = place(alloc, number)?;
    Ok(Change::Gone { pos })
}

/// What a change does: the number that its position ends with, and the number under `a` in the row that it puts there.
type Told = (u64, Option<i32>);

/// What the change does.
fn told(alloc: Global, change: &Change) -> Result<Told, Fail> {
    let (pos, value) = match change {
        Change::Put { pos, row } => (pos, row.get("a")),
        Change::Gone { pos } => (pos, None),
    };
    let mut parts = Vec::new(alloc);
    pos.push_to(&mut parts)?;
    let Some(Part::At(last)) = parts.as_slice().last() else {
        return Ok((0, None));
    };
    match value {
        Some(Value::Int32(number)) => Ok((*last, Some(*number))),
        _ => Ok((*last, None)),
    }
}

/// What each of the changes does, in order.
fn told_by(alloc: Global, changes: &Vec<Change>) -> Result<Vec<Told>, Fail> {
    let mut all = Vec::new(alloc);
    for change in changes {
        all.push(told(alloc, change)?)?;
    }
    Ok(all)
}

/// The value 10 at the low position, and 20 at the high one.
fn valued(alloc: Global, low: &Pos, high: &Pos) -> Result<Ordered<i32>, Fail> {
    let one = Ordered::new(alloc).with(high.behind(alloc, Vec::new(alloc))?, 20)?;
    Ok(one.with(low.try_clone()?, 10)?)
}

#[test]
fn values_stand_in_the_order_of_positions(rt: HostRuntime) -> Result<(), Fail> {
    let alloc = rt.alloc();
    let (low, high) = (place(alloc, 1)?, place(alloc, 2)?);
    let values = valued(alloc, &low, &high)?;
    assert_eq!(rt; values.first().map(|(_, value)| *value), Some(10));
    assert_eq!(rt; values.others().next().map(|(_, value)| *value), Some(20));
    assert_eq!(rt;
        values.without(&low).get(&high).map(|value| *value),
        Some(20)
    );
    Ok(())
}

/// `{k: 1, a: 7}`, `{k: 2, a: 7}` and `{k: 2, a: 8}`.
const ROWS: [&[u8]; 3] = [
    b"\x13\0\0\0\x10k\0\x01\0\0\0\x10a\0\x07\0\0\0\0",
    b"\x13\0\0\0\x10k\0\x02\0\0\0\x10a\0\x07\0\0\0\0",
    b"\x13\0\0\0\x10k\0\x02\0\0\0\x10a\0\x08\0\0\0\0",
];

/// The number under `a` in a row.
fn number_in(row: &Option<Document>) -> Option<i32> {
    match row.as_ref()?.get("a") {
        Some(Value::Int32(number)) => Some(*number),
        _ => None,
    }
}

/// That number in the old row and in the new one of each change, in order.
fn rows_told(alloc: Global, all: &Vec<Taken>) -> Result<Vec<(Option<i32>, Option<i32>)>, Fail> {
    let mut rows = Vec::new(alloc);
    for Taken { old, new, .. } in all {
        rows.push((number_in(old), number_in(new)))?;
    }
    Ok(rows)
}

#[test]
fn a_row_that_is_taken_in_is_handed_on(rt: HostRuntime) -> Result<(), Fail> {
    let alloc = rt.alloc();
    let (mut rows, none) = (BTreeMap::new(alloc), Ordered::new(alloc));
    let Taken { pos, new, .. } = take_in(&mut rows, put(alloc, 1, ROWS[0])?)?;
    let Some(row) = new else {
        return Err(Fail::from("a row"));
    };
    let (mut ticks, mut out) = (Ticks::new(), Vec::new(alloc));
    let made = Ordered::new(alloc).with(pos, row)?;
    hand_over(&none, &made, &mut ticks, &mut out)?;
    hand_over(&made, &none, &mut ticks, &mut out)?;
    let rows = rows_told(alloc, &out)?;
    assert_eq!(rt;
        rows.as_slice(),
        [(None, Some(7)), (Some(7), None)].as_slice()
    );
    assert_eq!(rt; ticks.count(), 4);
    Ok(())
}

/// The turn takes in the change.
fn feed<T: Turn>(
    turn: &mut T,
    change: Change,
    ticks: &mut Ticks,
    out: &mut Vec<Change>,
) -> Result<(), Fail>
    requires { T.turning.sound turn.old }
    ensures { OnOk result (T.turning.sound turn.new) }
{
    Ok(turn.change(Input::Left, change, ticks, out)?)
}

/// The counts after each of three rows that are put at 10 one after the other, and what each of the returned changes does.
fn turned<T: Turn>(
    alloc: Global,
    turn: &mut T,
    rows: [&[u8]; 3],
) -> Result<([u64; 3], Vec<Told>), Fail>
    requires { T.turning.sound turn.old }
{
    let (mut ticks, mut out) = (Ticks::new(), Vec::new(alloc));
    let [first, second, third] = rows;
    feed(turn, put(alloc, 10, first)?, &mut ticks, &mut out)?;
    let at_first = ticks.count();
    feed(turn, put(alloc, 10, second)?, &mut ticks, &mut out)?;
    let at_second = ticks.count();
    feed(turn, put(alloc, 10, third)?, &mut ticks, &mut out)?;
    let told = told_by(alloc, &out)?;
    Ok(([at_first, at_second, ticks.count()], told))
}

#[test]
fn a_match_hands_on_what_matches(rt: HostRuntime) -> Result<(), Fail> {
    let alloc = rt.alloc();
    // {k: 1}
    let filter = Filter::parse(alloc, &document(alloc, b"\x0c\0\0\0\x10k\0\x01\0\0\0\0")?)?;
    let mut turn = MatchTurn::new(alloc, &filter)?;
    let (counts, told) = turned(alloc, &mut turn, [ROWS[0], ROWS[0], ROWS[1]])?;
    assert_eq!(rt; counts, [2, 3, 5]);
    assert_eq!(rt; told.as_slice(), [(10, Some(7)), (10, None)].as_slice());
    Ok(())
}

/// `{a: 1}`.
const BY_A: &[u8] = b"\x0c\0\0\0\x10a\0\x01\0\0\0\0";

#[test]
fn a_project_hands_on_what_is_shown(rt: HostRuntime) -> Result<(), Fail> {
    let alloc = rt.alloc();
    let project = Project::parse(alloc, &Value::Doc(document(alloc, BY_A)?))?;
    let mut turn = ProjectTurn::new(alloc, &project)?;
    let (counts, told) = turned(alloc, &mut turn, ROWS)?;
    assert_eq!(rt; counts, [2, 3, 5]);
    assert_eq!(rt; told.as_slice(), [(10, Some(7)), (10, Some(8))].as_slice());
    Ok(())
}

#[test]
fn a_sort_hands_on_the_old_place_and_the_new_one(rt: HostRuntime) -> Result<(), Fail> {
    let alloc = rt.alloc();
    let Some(spec) = SortSpec::parse(alloc, &document(alloc, BY_A)?)? else {
        return Err(Fail::from("a sort"));
    };
    let mut turn = SortTurn::new(alloc, &spec)?;
    let (counts, told) = turned(alloc, &mut turn, ROWS)?;
    assert_eq!(rt; counts, [2, 4, 7]);
    assert_eq!(rt;
        told.as_slice(),
        [(10, Some(7)), (10, Some(7)), (10, None), (10, Some(8))].as_slice()
    );
    Ok(())
}

/// `{_id: 1, a: [1, 2]}`, `{_id: 1, a: [1, 2, 3]}` and `{_id: 1, a: [4]}`.
const LISTS: [&[u8]; 3] = [
    b"$\0\0\0\x10_id\0\x01\0\0\0\x04a\0\x13\0\0\0\x100\0\x01\0\0\0\x101\0\x02\0\0\0\0\0",
    b"+\0\0\0\x10_id\0\x01\0\0\0\x04a\0\x1a\0\0\0\x100\0\x01\0\0\0\x101\0\x02\0\0\0\x102\0\x03\0\0\0\0\0",
    b"\x1d\0\0\0\x10_id\0\x01\0\0\0\x04a\0\x0c\0\0\0\x100\0\x04\0\0\0\0\0",
];

/// `{$unwind: "$a"}`.
fn unwind(alloc: Global) -> Result<Unwind, Fail> {
    let path = Value::Text(Str::of(String::from_str(alloc, "$a")?));
    Ok(Unwind::parse(alloc, &path)?)
}

#[test]
fn an_unwind_hands_on_the_rows_of_elements(rt: HostRuntime) -> Result<(), Fail> {
    let alloc = rt.alloc();
    let mut turn = UnwindTurn::new(alloc, &unwind(alloc)?)?;
    let (counts, told) = turned(alloc, &mut turn, LISTS)?;
    let put = [(0, Some(1)), (1, Some(2)), (2, Some(3))];
    assert_eq!(rt; counts, [3, 5, 9]);
    assert_eq!(rt; told.as_slice().get(..3), Some(put.as_slice()));
    assert_eq!(rt;
        told.as_slice().get(3..),
        Some([(1, None), (2, None), (0, Some(4))].as_slice())
    );
    Ok(())
}

#[test]
fn a_limit_pulls_in_the_next_row(rt: HostRuntime) -> Result<(), Fail> {
    let alloc = rt.alloc();
    let (mut ticks, mut out) = (Ticks::new(), Vec::new(alloc));
    let mut turn = LimitTurn::new(alloc, 2);
    feed(&mut turn, put(alloc, 10, ROWS[0])?, &mut ticks, &mut out)?;
    feed(&mut turn, put(alloc, 20, ROWS[1])?, &mut ticks, &mut out)?;
    feed(&mut turn, put(alloc, 30, ROWS[2])?, &mut ticks, &mut out)?;
    assert_eq!(rt; ticks.count(), 5);
    feed(&mut turn, gone(alloc, 10)?, &mut ticks, &mut out)?;
    assert_eq!(rt; ticks.count(), 8);
    let told = told_by(alloc, &out)?;
    assert_eq!(rt;
        told.as_slice(),
        [(10, Some(7)), (20, Some(7)), (10, None), (30, Some(8))].as_slice()
    );
    Ok(())
}
