//! Sets of places in a path.

ghost use Rattle.std.specs.Prelude.{◌≡◌, ℕ, suc, ◌<◌, ◌==◌, ◌||◌, true, false, Bool, List, Some, MatchBool, IfSome};
ghost use Rattle.std.specs.Int.{bit_at};
ghost use Rattle.std.specs.Option.{option_map};
ghost use Rattle.std.specs.Str.{bytes_eq};
ghost use Rattle.dv_candidates.specs.Answering.{Answers};
ghost use Rattle.dv_candidates.specs.Path.{index_of};
ghost use Rattle.dv_candidates.specs.Inner.Places.{AreThose, HaveName, IsBefore, follows, has, picks};

use crate::component::Component;

/// Places in what is left of a path, from 0, the next component, to 63 at most; one of them may be the end, after the last
/// component.
#[derive(Clone, Copy)]
pub(crate) struct Places {
    /// Whether each place is in the set, from the lowest bit on.
    mask: u64,
}

impl Places {
    /// No place.
    pub(crate) const NONE: Places = Places { mask: 0 };

    /// The next component alone.
    pub(crate) const FIRST: Places = Places { mask: 1 };

    /// Whether there is no place.
    pub(crate) fn is_empty(self) -> bool
        ensures { MatchBool result ((place : ℕ) → has self place ≡ false) ((place : ℕ) × (has self place ≡ true)) }
    {
        is_empty_mask(self.mask)
    }

    /// Whether the place is in the set.
    pub(crate) fn has(self, place: usize) -> bool
        ensures place { result ≡ has self place }
        ensures near { result ≡ true → place < 64 }
    {
        place < 64 && self.mask & (1 << place) != 0
    }

    /// The places that have a component.
    pub(crate) fn before_end(self, components: &[Component]) -> Self
        ensures { AreThose (λ _. true) components.now self result }
    {
        self.those(components, |_| true)
    }

    /// The places whose component has this name.
    pub(crate) fn named(self, components: &[Component], name: &str) -> Self
        ensures { AreThose (bytes_eq name.now) components.now self result }
    {
        self.those(components, |component| name == component.as_str())
    }

    /// The name of the component at each place, if they have one name.
    pub(crate) fn sole_name<'p>(self, components: &'p [Component]) -> Option<&'p str>
        requires { IsBefore components.now self }
        ensures { IfSome result (λ name. HaveName components.now self name.now) }
    {
        let mut sole = None;
        'places: for place in 0..components.len().min(64) {
            if self.has(place) {
                let name = components[place].as_str();
                if is_another(sole, name) {
                    return None;
                }
                sole = Some(name);
            }
        }
        sole
    }

    /// The places whose component picks the element at this index.
    pub(crate) fn picking(self, components: &[Component], index: usize) -> Self
        ensures { AreThose (λ name. picks index (index_of name)) components.now self result }
    {
        self.those(components, |component| match component.index() {
            Some(place) => place == index,
            None => false,
        })
    }

    /// The places whose component passes the test.
    fn those<F: Fn(&Component) -> bool>(self, components: &[Component], test: F) -> Self
        requires { F.IsAlwaysCallable test }
        ensures { (passes : List ℕ → Bool) → Answers (λ x. x.now) (λ x b. F.post test x b) passes → AreThose passes components.now self result }
    {
        let mut mask = 0;
        for (place, component) in components.iter().enumerate() {
            if self.has(place) && test(component) {
                mask |= 1 << place;
            }
        }
        Places { mask }
    }

    /// These places and others.
    pub(crate) fn with(self, others: Places) -> Self
        ensures { (place : ℕ) → has result place ≡ (has self place || has others place) }
    {
        Places {
            mask: self.mask | others.mask,
        }
    }

    /// These places and those one component after some others; `None` if a place would be beyond 63.
    pub(crate) fn with_behind(self, others: Places) -> Option<Self>
        ensures { IfSome result (λ both. (place : ℕ) → has both place ≡ (has self place || follows (has others) place)) }
    {
        if others.mask >> 63 != 0 {
            return None;
        }
        Some(Places {
            mask: self.mask | others.mask << 1,
        })
    }
}

/// Whether there is a name already, and it is another one.
fn is_another(already: Option<&str>, name: &str) -> bool
    ensures { result ≡ false → (other : List ℕ) → option_map (λ n. n.now) already.entry ≡ Some other → other ≡ name.now }
{
    match already {
        Some(other) => other != name,
        None => false,
    }
}

/// Whether no bit is set.
fn is_empty_mask(mask: u64) -> bool
    ensures { MatchBool result (mask ≡ 0) ((place : ℕ) × (place < 64) × (bit_at mask place ≡ 1)) }
{
    mask == 0
}
