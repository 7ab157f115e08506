//! Lists of paths.

ghost use Rattle.std.specs.Prelude.{◌≡◌, IfOk};
ghost use Rattle.dv_row.specs.Inner.Ways.{AreSame};

use crate::ways::{Ways, sort};
use dv_candidates::Path;
use dv_value::NoMemory;
use std::marker::Model;

/// Paths in written order. It also has a copy in the order of their components, in which the paths that lead through a name are
/// looked up.
#[derive(Debug, Drop)]
pub struct Paths {
    paths: Vec<Path>,
    ascending: Vec<Path>,
}

impl Model for Paths {
    ghost use Rattle.std.specs.Prelude.{List, ℕ};
    ghost use Rattle.dv_row.specs.Inner.Ways.{IsInOrder};

    ghost Value = { List (List (List ℕ)) };

    ghost view = { λ p. p.paths.items };

    ghost invariant = { λ p. IsInOrder p.paths.items p.ascending.items };
}

impl Paths {
    /// The list of these paths. Costs comparisons of n log n for n paths. Fails with `NoMemory` when memory runs out.
    pub(crate) fn of(paths: Vec<Path>) -> Result<Self, NoMemory>
        ensures { IfOk result (λ list. list ≡ paths.items) }
    {
        let mut ascending = copied(&paths)?;
        sort(&mut ascending);
        Ok(Paths { paths, ascending })
    }

    /// The paths in written order.
    pub fn as_slice(&self) -> &[Path]
        ensures { result.now ≡ self.now }
    {
        self.paths.as_slice()
    }

    /// The ways of the paths from a row's top level.
    pub(crate) fn ways(&self) -> Ways<'_>
        ensures { AreSame result self.now }
    {
        Ways::of(self.ascending.as_slice())
    }

    /// A copy of its own. Fails with `NoMemory` when memory runs out.
    pub fn try_clone(&self) -> Result<Self, NoMemory>
        ensures { IfOk result (λ copy. copy ≡ self.now) }
    {
        Ok(Paths {
            paths: copied(&self.paths)?,
            ascending: copied(&self.ascending)?,
        })
    }
}

/// A copy of the paths.
fn copied(paths: &Vec<Path>) -> Result<Vec<Path>, NoMemory>
    ensures { IfOk result (λ copies. copies.items ≡ paths.now.items) }
{
    let mut copies = Vec::with_capacity(*paths.allocator(), paths.len())?;
    for path in paths {
        copies.push(path.try_clone()?)?;
    }
    Ok(copies)
}
