//! Positions of rows.

ghost use Rattle.std.specs.Prelude.{◌≡◌, ◌++◌, ◌∷◌, [], IfOk, OnOk, refl};
ghost use Rattle.std.specs.Cmp.{eq_by_cmp_equiv, partial_equiv_from_equiv, partial_order_from_total};
ghost use Rattle.std.specs.Ordering.{as_partial_cmp, eq_by_cmp};
ghost use Rattle.dv_change.specs.Positions.{IsExact, IsExactPart, kind, part_order, pos_order};
ghost use Rattle.dv_change.specs.Inner.PositionLaws.{part_order_total, pos_order_total};

use crate::lent::Lent;
use crate::place::Place;
use dv_order::Key;
use dv_value::NoMemory;
use std::alloc::Global;
use std::cmp::Ordering;
use std::marker::Model;
use std::mem::size_of;

/// One part of a position.
#[derive(Debug, Drop)]
pub enum Part {
    /// An ascending key.
    Up(Key),
    /// A descending key.
    Down(Key),
    /// A number.
    At(u64),
}

impl Part {
    /// A copy. Fails with `NoMemory` when memory runs out.
    pub fn try_clone(&self) -> Result<Self, NoMemory>
        ensures { IfOk result (λ copy. copy ≡ self.now) }
    {
        match self {
            Part::Up(key) => Ok(Part::Up(key.try_clone()?)),
            Part::Down(key) => Ok(Part::Down(key.try_clone()?)),
            Part::At(number) => Ok(Part::At(*number)),
        }
    }

    /// Its key is the key of some value, or the one key that no value has. Does nothing.
    pub fn law_exact(&self)
        ensures { IsExactPart self.now }
    {
        match self {
            Part::Up(key) => key.law_own(),
            Part::Down(key) => key.law_own(),
            Part::At(_) => {}
        }
    }

    /// The rank of the part's kind.
    fn kind(&self) -> u8
        ensures { result ≡ kind self.now }
    {
        match self {
            Part::Up(_) => 0,
            Part::Down(_) => 1,
            Part::At(_) => 2,
        }
    }
}

impl PartialEq for Part {
    ghost eq = { eq_by_cmp part_order };

    ghost laws = { partial_equiv_from_equiv (eq_by_cmp_equiv part_order_total) };

    fn eq(&self, other: &Part) -> bool {
        self.cmp(other).is_eq()
    }
}

impl Eq for Part {
    ghost laws = { eq_by_cmp_equiv part_order_total };
}

impl PartialOrd for Part {
    ghost partial_cmp = { as_partial_cmp part_order };

    ghost laws = { partial_order_from_total part_order_total };

    fn partial_cmp(&self, other: &Part) -> Option<Ordering> {
        Some(self.cmp(other))
    }
}

impl Ord for Part {
    ghost cmp = { part_order };

    ghost total = { part_order_total };

    ghost matches_partial_cmp = { λ x y. refl };

    ghost matches_eq = { λ x y. refl };

    fn cmp(&self, other: &Part) -> Ordering {
        match (self, other) {
            (Part::Up(a), Part::Up(b)) => a.cmp(b),
            (Part::Down(a), Part::Down(b)) => b.cmp(a),
            (Part::At(a), Part::At(b)) => a.cmp(b),
            _ => self.kind().cmp(&other.kind()),
        }
    }
}

/// The place of a row among others: the first parts that differ decide; if none differ, the position with fewer parts comes first.
/// Copies share all memory outside the `Pos` itself.
#[derive(Debug)]
pub struct Pos {
    place: Place,
}

/// Three words. One part that is determined by its code takes no more, nor do two if the second number of the first code is 0, nor
/// does an ascending text of at most 22 bytes.
const _: () = prove!(size_of::<Pos>() == 24);

impl Model for Pos {
    ghost use Rattle.std.specs.Prelude.{List};
    ghost use Rattle.dv_change.specs.declared.position.Part.{Part};
    ghost use Rattle.dv_change.specs.Positions.{IsExact};
    ghost use Rattle.dv_change.specs.Inner.Places.{IsValid, parts_of};

    ghost Value = { List Part };

    ghost use Rattle.std.specs.Coded.{codes};
    ghost use Rattle.dv_order.specs.contracts.key.Key as keys;

    ghost coded = { Prim.hlevel (codes, keys.the_row.coded) };

    ghost view = { λ p. parts_of p.place };

    ghost invariant = { λ p. IsExact (parts_of p.place) × IsValid p.place };
}

// Written out, so that code that drops a position calls this and knows nothing of what is in it.
impl Drop for Pos {
    fn drop(self) {
        let Pos { place: _place } = self;
    }
}

impl Pos {
    /// The position of these parts. Fails with `NoMemory` when memory runs out.
    pub fn of(alloc: Global, parts: Vec<Part>) -> Result<Self, NoMemory>
        ensures { IfOk result (λ pos. pos ≡ parts.items) }
    {
        law_exact_parts(parts.as_slice());
        Ok(Pos {
            place: Place::of(alloc, parts)?,
        })
    }

    /// The position of one part. Fails with `NoMemory` when memory runs out, and takes none if the part is determined by its code.
    pub fn of_part(alloc: Global, part: Part) -> Result<Self, NoMemory>
        ensures { IfOk result (λ pos. pos ≡ part ∷ []) }
    {
        part.law_exact();
        if let Some(place) = Place::alone(alloc, &part)? {
            return Ok(Pos { place });
        }
        let mut parts = Vec::with_capacity(alloc, 1)?;
        parts.push(part)?;
        Pos::of(alloc, parts)
    }

    /// The position with this part before its own. Fails with `NoMemory` when memory runs out. Takes none if it has one part, both
    /// parts are determined by their codes, and the second number of the new part's code is 0.
    pub fn behind_part(&self, alloc: Global, part: Part) -> Result<Self, NoMemory>
        ensures { IfOk result (λ pos. pos ≡ part ∷ self.now) }
    {
        part.law_exact();
        if let Some(place) = self.place.behind_part(&part) {
            return Ok(Pos { place });
        }
        let mut parts = self.room_for_more(alloc)?;
        parts.push(part)?;
        self.behind(alloc, parts)
    }

    /// Each key of its parts is the key of some value, or the one key that no value has. Does nothing.
    pub fn law_exact(&self)
        ensures { IsExact self.now }
    {
        let _ = &self.place;
    }

    /// A copy that shares its memory. Fails with `NoMemory` when memory runs out.
    pub fn try_clone(&self) -> Result<Self, NoMemory>
        ensures { IfOk result (λ copy. copy ≡ self.now) }
    {
        Ok(Pos {
            place: self.place.try_clone()?,
        })
    }

    /// Appends copies of its parts. Fails with `NoMemory` when memory runs out.
    pub fn push_to(&self, all: &mut Vec<Part>) -> Result<(), NoMemory>
        ensures { OnOk result (all.new.items ≡ all.old.items ++ self.now) }
    {
        match self.place.lent() {
            Lent::Alone(key) => {
                let key = key.to_key(*all.allocator())?;
                all.push(Part::Up(key))?;
                Ok(())
            }
            Lent::Together(parts) => push_all(all, parts.as_slice()),
        }
    }

    /// The position with these parts put before its own. Fails with `NoMemory` when memory runs out.
    pub fn behind(&self, alloc: Global, parts: Vec<Part>) -> Result<Self, NoMemory>
        ensures { IfOk result (λ pos. pos ≡ parts.items ++ self.now) }
    {
        let mut all = parts;
        self.push_to(&mut all)?;
        Pos::of(alloc, all)
    }

    /// The position with one more part at its end. Fails with `NoMemory` when memory runs out.
    pub fn with(&self, alloc: Global, part: Part) -> Result<Self, NoMemory>
        ensures { IfOk result (λ pos. pos ≡ self.now ++ part ∷ []) }
    {
        let mut all = self.room_for_more(alloc)?;
        self.push_to(&mut all)?;
        all.push(part)?;
        Pos::of(alloc, all)
    }

    /// Room for its parts and one more. Fails when memory runs out.
    fn room_for_more(&self, alloc: Global) -> Result<Vec<Part>, NoMemory>
        ensures { IfOk result (λ parts. parts.items ≡ []) }
    {
        Ok(Vec::with_capacity(alloc, self.place.len().saturating_add(1))?)
    }
}

/// Each key of the parts is the key of some value, or the one key that no value has. Changes nothing.
fn law_exact_parts(parts: &[Part])
    ensures { IsExact parts.now }
{
    'parts: for part in parts {
        part.law_exact();
    }
}

/// Appends copies of the parts to `all`. Fails when memory runs out.
fn push_all(all: &mut Vec<Part>, parts: &[Part]) -> Result<(), NoMemory>
    ensures { OnOk result (all.new.items ≡ all.old.items ++ parts.now) }
{
    'parts: for part in parts {
        all.push(part.try_clone()?)?;
    }
    Ok(())
}

impl PartialEq for Pos {
    ghost eq = { eq_by_cmp pos_order };

    ghost laws = { partial_equiv_from_equiv (eq_by_cmp_equiv pos_order_total) };

    fn eq(&self, other: &Pos) -> bool {
        self.cmp(other).is_eq()
    }
}

impl Eq for Pos {
    ghost laws = { eq_by_cmp_equiv pos_order_total };
}

impl PartialOrd for Pos {
    ghost partial_cmp = { as_partial_cmp pos_order };

    ghost laws = { partial_order_from_total pos_order_total };

    fn partial_cmp(&self, other: &Pos) -> Option<Ordering> {
        Some(self.cmp(other))
    }
}

impl Ord for Pos {
    ghost cmp = { pos_order };

    ghost total = { pos_order_total };

    ghost matches_partial_cmp = { λ x y. refl };

    ghost matches_eq = { λ x y. refl };

    fn cmp(&self, other: &Pos) -> Ordering {
        self.place.order(&other.place)
    }
}
