//! The changes that a stage returns, from its old rows to its new ones.

ghost use Rattle.std.specs.Prelude.{◌≡◌, ◌≤◌, ◌+◌, ◌++◌, length, OnErr, OnOk};
ghost use Rattle.dv_change.specs.Inner.Beginning.{BeginsWith};
ghost use Rattle.dv_change.specs.Raised.{raised};
ghost use Rattle.dv_change.specs.Inner.Changes.{alone};
ghost use Rattle.dv_change.specs.Inner.Told.{diff_told, gone_if_missing, gones_told, is_kept, put_if_other, puts_told};

use crate::ordered::Ordered;
use crate::position::Pos;
use crate::taking::{Taken, copied};
use crate::ticks::Ticks;
use dv_order::same_documents;
use dv_value::{Document, NoMemory};

/// Appends the changes that lead from the old rows to the new ones to `out`, each with the row that was at its position: first each
/// removal, then each row that is inserted or isn't the same as before. Counts 1 for the change that caused this, and 1 for each
/// change that is appended. Fails with `NoMemory` when memory runs out; then `out` may have grown at its end.
pub fn hand_over(
    old: &Ordered<Document>,
    new: &Ordered<Document>,
    ticks: &mut Ticks,
    out: &mut Vec<Taken>,
) -> Result<(), NoMemory>
    ensures out { OnOk result (out.new.items ≡ out.old.items ++ diff_told old.now new.now) }
    ensures ticks { OnOk result (ticks.new ≡ raised ticks.old (1 + length (diff_told old.now new.now))) }
    ensures begins { OnErr result (BeginsWith out.new.items out.old.items) }
    ensures no_fewer { OnErr result (ticks.old ≤ ticks.new) }
{
    let before = out.len();
    push_gones(old, new, out)?;
    push_puts(old, new, out)?;
    ticks.add(1);
    ticks.add((out.len() - before) as u64);
    Ok(())
}

/// Does the same as `hand_over`, where at most one row was at the position, and at most one is there now.
pub fn hand_over_at(
    pos: &Pos,
    old: &Option<Document>,
    new: &Option<Document>,
    ticks: &mut Ticks,
    out: &mut Vec<Taken>,
) -> Result<(), NoMemory>
    ensures out { OnOk result (out.new.items ≡ out.old.items ++ diff_told (alone pos.now old.now) (alone pos.now new.now)) }
    ensures ticks { OnOk result (ticks.new ≡ raised ticks.old (1 + length (diff_told (alone pos.now old.now) (alone pos.now new.now)))) }
    ensures begins { OnErr result (BeginsWith out.new.items out.old.items) }
    ensures no_fewer { OnErr result (ticks.old ≤ ticks.new) }
{
    ticks.add(1);
    if is_kept(old, new) {
        return Ok(());
    }
    let pos = pos.try_clone()?;
    let old = copied(old)?;
    let new = copied(new)?;
    out.push(Taken { pos, old, new })?;
    ticks.add(1);
    Ok(())
}

/// Whether there was no row and there is none now, or the row is the same.
fn is_kept(old: &Option<Document>, new: &Option<Document>) -> bool
    ensures { result ≡ is_kept old.now new.now }
{
    match (old, new) {
        (None, None) => true,
        (Some(old), Some(new)) => same_documents(old, new),
        _ => false,
    }
}

/// Appends the removal of each old row whose position has no new row.
fn push_gones(
    old: &Ordered<Document>,
    new: &Ordered<Document>,
    out: &mut Vec<Taken>,
) -> Result<(), NoMemory>
    ensures out { OnOk result (out.new.items ≡ out.old.items ++ gones_told old.now new.now) }
    ensures begins { OnErr result (BeginsWith out.new.items out.old.items) }
{
    let Some((pos, row)) = old.first() else {
        return Ok(());
    };
    push_gone(pos, row, new, out)?;
    'others: for (pos, row) in old.others() {
        push_gone(pos, row, new, out)?;
    }
    Ok(())
}

/// Appends the removal of the row, if its position has no new row.
fn push_gone(
    pos: &Pos,
    row: &Document,
    new: &Ordered<Document>,
    out: &mut Vec<Taken>,
) -> Result<(), NoMemory>
    ensures out { OnOk result (out.new.items ≡ out.old.items ++ gone_if_missing pos.now row.now new.now) }
    ensures err { OnErr result (out.new.items ≡ out.old.items) }
{
    if new.get(pos).is_none() {
        out.push(Taken {
            pos: pos.try_clone()?,
            old: Some(row.try_clone()?),
            new: None,
        })?;
    }
    Ok(())
}

/// Appends the change that puts each new row, unless the same row is at its position among the old ones.
fn push_puts(
    old: &Ordered<Document>,
    new: &Ordered<Document>,
    out: &mut Vec<Taken>,
) -> Result<(), NoMemory>
    ensures out { OnOk result (out.new.items ≡ out.old.items ++ puts_told old.now new.now) }
    ensures begins { OnErr result (BeginsWith out.new.items out.old.items) }
{
    let Some((pos, row)) = new.first() else {
        return Ok(());
    };
    push_put(old, pos, row, out)?;
    'others: for (pos, row) in new.others() {
        push_put(old, pos, row, out)?;
    }
    Ok(())
}

/// Appends the change that puts the row, unless the same row is at its position among the old ones.
fn push_put(
    old: &Ordered<Document>,
    pos: &Pos,
    row: &Document,
    out: &mut Vec<Taken>,
) -> Result<(), NoMemory>
    ensures out { OnOk result (out.new.items ≡ out.old.items ++ put_if_other old.now pos.now row.now) }
    ensures err { OnErr result (out.new.items ≡ out.old.items) }
{
    let stood = old.get(pos);
    if let Some(there) = stood {
        if same_documents(there, row) {
            return Ok(());
        }
    }
    let old = match stood {
        Some(there) => Some(there.try_clone()?),
        None => None,
    };
    out.push(Taken {
        pos: pos.try_clone()?,
        old,
        new: Some(row.try_clone()?),
    })?;
    Ok(())
}
