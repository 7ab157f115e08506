//! Paths.

ghost use Rattle.std.specs.Prelude.{◌≡◌, ◌≢◌, ◌⊎◌, ◌==◌, [], Some, None, IfOk, MatchResult};
ghost use Rattle.std.specs.List.{list_any};
ghost use Rattle.dv_candidates.specs.Path.{path_of};

use crate::component::{Component, is_name};
use crate::fault::PathFault;
use dv_value::NoMemory;
use std::alloc::Global;
use std::marker::Model;
use std::slice;

/// Where the components of a path are stored.
#[derive(Debug, Drop)]
pub(crate) enum Components {
    /// In the path itself: one, as most paths have.
    One(Component),
    /// In memory of their own: any number.
    Several(Vec<Component>),
}

/// A way into documents: one component or more.
#[derive(Debug, Drop)]
pub struct Path {
    components: Components,
}

impl Model for Path {
    ghost use Rattle.std.specs.Prelude.{◌≢◌, List, [], ℕ};
    ghost use Rattle.dv_candidates.specs.Components.{names_of};

    ghost Value = { List (List ℕ) };

    ghost view = { λ p. names_of p.components };

    ghost invariant = { λ p. names_of p.components ≢ [] };
}

impl Path {
    /// The text as a path, cut at its dots. Refused with `EmptyComponent` if a component is empty or holds a zero byte, and with
    /// `NoMemory` when memory runs out. A name of at most 16 bytes takes no memory.
    #[tactic(auto, using(crate::proofs::Parsing::undotted, crate::proofs::Parsing::undotted_refused))]
    pub fn parse(alloc: Global, text: &str) -> Result<Path, PathFault>
        ensures { MatchResult result (λ path. path_of text.now ≡ Some path) (λ e. (e ≡ PathFault.NoMemory) ⊎ ((e ≡ PathFault.EmptyComponent) × (path_of text.now ≡ None))) }
    {
        if has_dot(text) {
            return cut(alloc, text);
        }
        if !is_name(text) {
            return Err(PathFault::EmptyComponent);
        }
        let component = Component::of(alloc, text)?;
        Ok(Path {
            components: Components::One(component),
        })
    }

    /// The components, of which there is at least one.
    pub fn components(&self) -> &[Component]
        ensures components { result.now ≡ self.now }
        ensures some { self.now ≢ [] }
    {
        match &self.components {
            Components::One(component) => slice::from_ref(component),
            Components::Several(components) => components.as_slice(),
        }
    }

    /// A copy of its own. Fails with `NoMemory` when memory runs out.
    pub fn try_clone(&self) -> Result<Self, NoMemory>
        ensures { IfOk result (λ copy. copy ≡ self.now) }
    {
        let components = match &self.components {
            Components::One(component) => Components::One(component.try_clone()?),
            Components::Several(components) => Components::Several(copies_of(components)?),
        };
        Ok(Path { components })
    }
}

/// Whether there is a dot in the text.
fn has_dot(text: &str) -> bool
    ensures { result ≡ list_any (λ b. b == 46) text.now }
{
    text.as_bytes().contains(&b'.')
}

/// As `Path::parse`, whether or not there are dots.
fn cut(alloc: Global, text: &str) -> Result<Path, PathFault>
    ensures { MatchResult result (λ path. path_of text.now ≡ Some path) (λ e. (e ≡ PathFault.NoMemory) ⊎ ((e ≡ PathFault.EmptyComponent) × (path_of text.now ≡ None))) }
{
    let mut components = Vec::new(alloc);
    'names: for name in text.split('.') {
        if !is_name(name) {
            return Err(PathFault::EmptyComponent);
        }
        components.push(Component::of(alloc, name)?)?;
    }
    Ok(Path {
        components: Components::Several(components),
    })
}

/// Copies of the components, in order. Fails when memory runs out.
fn copies_of(components: &Vec<Component>) -> Result<Vec<Component>, NoMemory>
    ensures { IfOk result (λ copies. copies.items ≡ components.now.items) }
{
    let mut copies = Vec::with_capacity(*components.allocator(), components.len())?;
    for component in components {
        copies.push(component.try_clone()?)?;
    }
    Ok(copies)
}
