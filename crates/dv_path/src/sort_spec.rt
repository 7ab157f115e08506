//! Sorts by several paths.

ghost use Rattle.std.specs.Prelude.{◌≡◌, map, IfOk};
ghost use Rattle.std.specs.Option.{option_map};
ghost use Rattle.dv_value.specs.View.{tree};
ghost use Rattle.dv_path.specs.Parts.{part};
ghost use Rattle.dv_path.specs.SortSpec.{part_of, parts_of, sort_spec_of};

use crate::direction::Direction;
use dv_candidates::{Path, PathFault};
use dv_value::{Document, NoMemory, Value};
use std::alloc::{AllocError, Global};
use std::marker::Model;

/// How many paths a sort has at most.
const MOST_PARTS: usize = 32;

/// A path, and which end of its keys comes first.
#[derive(Debug, Drop)]
pub struct SortPart {
    /// The path.
    pub path: Path,
    /// Which end comes first.
    pub direction: Direction,
}

/// What to sort by: the first path decides; if its keys are equal the second, and so on.
#[derive(Debug, Drop)]
pub struct SortSpec {
    parts: Vec<SortPart>,
}

impl Model for SortSpec {
    ghost use Rattle.std.specs.Prelude as prelude;
    ghost use Rattle.std.specs.Prelude.{map};
    ghost use Rattle.dv_path.specs.SortSpec.{Part};

    ghost Value = { prelude.List Part };

    ghost use Rattle.dv_path.specs.Parts.{part};

    ghost view = { λ s. map part s.parts.items };
}

impl SortSpec {
    /// The sort that a document describes: each name is a path, and its value a direction, 1 or -1 of either width. `None` if a
    /// name is no path or a value no direction, or if there are not 1 to 32 of them. Fails with `NoMemory` when memory runs out.
    pub fn parse(alloc: Global, document: &Document) -> Result<Option<SortSpec>, NoMemory>
        ensures { IfOk result (λ spec. spec ≡ sort_spec_of document.now) }
    {
        if document.is_empty() || document.len() > MOST_PARTS {
            return Ok(None);
        }
        let Some(parts) = parse_parts(alloc, document)? else {
            return Ok(None);
        };
        Ok(Some(SortSpec { parts }))
    }

    /// The paths and their directions, in order.
    pub fn parts(&self) -> &[SortPart]
        ensures { map part result.now ≡ self.now }
    {
        self.parts.as_slice()
    }

    /// A copy of its own. Fails with `NoMemory` when memory runs out.
    pub fn try_clone(&self) -> Result<Self, NoMemory>
        ensures { IfOk result (λ copy. copy ≡ self.now) }
    {
        let mut parts = Vec::with_capacity(*self.parts.allocator(), self.parts.len())?;
        for part in &self.parts {
            let path = part.path.try_clone()?;
            parts.push(SortPart {
                path,
                direction: part.direction,
            })?;
        }
        Ok(SortSpec { parts })
    }
}

/// The fields as paths and directions, where each is one.
fn parse_parts(alloc: Global, document: &Document) -> Result<Option<Vec<SortPart>>, NoMemory>
    ensures { IfOk result (λ parts. option_map (λ v. map part v.items) parts ≡ parts_of document.now) }
{
    let mut parts = Vec::new(alloc);
    'fields: for (name, value) in document.iter() {
        let Some(part) = parse_part(alloc, name, value)? else {
            return Ok(None);
        };
        parts.push(part)?;
    }
    Ok(Some(parts))
}

/// A field as a path and a direction, where it is one.
fn parse_part(alloc: Global, name: &str, value: &Value) -> Result<Option<SortPart>, NoMemory>
    ensures { IfOk result (λ found. option_map part found ≡ part_of (name.now, tree value.now)) }
{
    let Some(direction) = Direction::of(value) else {
        return Ok(None);
    };
    match Path::parse(alloc, name) {
        Ok(path) => Ok(Some(SortPart { path, direction })),
        Err(PathFault::NoMemory) => Err(AllocError),
        Err(_) => Ok(None),
    }
}
