//! A component of a path.

ghost use Rattle.std.specs.Prelude.{◌≡◌, true, IfOk};
ghost use Rattle.std.specs.Char.{is_ascii_digit};
ghost use Rattle.std.specs.List.{list_all};
ghost use Rattle.dv_candidates.specs.Path.{is_component, is_whole_number, index_of};

use dv_value::{Name, NoMemory};
use std::alloc::Global;
use std::marker::Model;

/// A name that a path leads through, which isn't empty and holds no zero byte. A whole number also is a place in arrays.
#[derive(Debug, Drop)]
pub struct Component {
    name: Name,
    index: Option<usize>,
}

impl Model for Component {
    ghost use Rattle.std.specs.Prelude.{◌≡◌, List, ℕ, true};
    ghost use Rattle.std.specs.Char.{is_ascii_digit};
    ghost use Rattle.std.specs.List.{list_all};
    ghost use Rattle.dv_candidates.specs.Path.{is_component, index_of};

    ghost Value = { List ℕ };

    ghost view = { λ c. c.name };

    ghost invariant = { λ c. (c.index ≡ index_of c.name) × (is_component c.name ≡ true) };
}

impl Component {
    /// The component with this name. Fails when memory runs out.
    pub(crate) fn of(alloc: Global, name: &str) -> Result<Self, NoMemory>
        requires { is_component name.now ≡ true }
        ensures { IfOk result (λ component. component ≡ name.now) }
    {
        let index = whole_number(name);
        let name = Name::of(alloc, name)?;
        Ok(Component { name, index })
    }

    /// The name.
    pub fn as_str(&self) -> &str
        ensures name { result.now ≡ self.now }
        // It isn't empty and holds no zero byte.
        ensures component { is_component self.now ≡ true }
    {
        self.name.as_str()
    }

    /// The place that it picks in arrays, counted from 0: the number that the name is, if it is `0` or a digit 1 to 9
    /// with at most nine more digits.
    pub fn index(&self) -> Option<usize>
        ensures { result ≡ index_of self.now }
    {
        self.index
    }

    /// A copy of its own. Fails with `NoMemory` when memory runs out.
    pub fn try_clone(&self) -> Result<Self, NoMemory>
        ensures { IfOk result (λ copy. copy ≡ self.now) }
    {
        Ok(Component {
            name: self.name.try_clone()?,
            index: self.index,
        })
    }
}

/// Whether a component may have this name.
pub(crate) fn is_name(name: &str) -> bool
    ensures { result ≡ is_component name.now }
{
    !name.is_empty() && !name.as_bytes().contains(&0)
}

/// The number that a name is.
#[tactic(auto, unfolding(crate::specs::Path::index_of))]
fn whole_number(name: &str) -> Option<usize>
    ensures { result ≡ index_of name.now }
{
    if is_whole(name.as_bytes()) {
        name.parse().ok()
    } else {
        None
    }
}

/// Whether a name is `0`, or a digit 1 to 9 with at most nine more digits.
fn is_whole(name: &[u8]) -> bool
    ensures { result ≡ is_whole_number name.now }
{
    are_digits(name) && !name.is_empty() && name.len() <= 10 && (name.len() == 1 || name[0] != b'0')
}

fn are_digits(name: &[u8]) -> bool
    ensures { result ≡ list_all is_ascii_digit name.now }
{
    name.iter().all(|b| b.is_ascii_digit())
}
