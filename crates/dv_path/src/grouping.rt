//! Paths in groups of those that begin with one component.

ghost use Rattle.std.specs.Prelude.{◌≡◌, ◌++◌, ◌∷◌, [], map, IfOk, OnOk};
ghost use Rattle.dv_path.specs.Inner.GroupView.{group as seen};
ghost use Rattle.dv_path.specs.Inner.Groups.{AreFilled, HasGroup, IsGrouping, ungrouped};

use dv_candidates::Component;
use dv_value::NoMemory;
use std::alloc::Global;

/// Paths that begin with one component: that one, and what follows in each.
#[derive(Drop)]
pub(crate) struct Group<'p> {
    component: &'p Component,
    rests: Vec<&'p [Component]>,
}

impl<'p> Group<'p> {
    pub(crate) fn component(&self) -> &'p Component
        ensures { result.now ≡ (seen self.now).0 }
    {
        self.component
    }

    pub(crate) fn rests(&self) -> &[&'p [Component]]
        ensures { map (λ rest. rest.now) result.now ≡ (seen self.now).1 }
    {
        self.rests.as_slice()
    }
}

/// The paths in groups of neighbours that begin with one component. A path without components is in none.
pub(crate) fn grouped<'p>(
    alloc: Global,
    paths: &[&'p [Component]],
) -> Result<Vec<Group<'p>>, NoMemory>
    ensures { IfOk result (λ groups. IsGrouping (map seen groups.items) (map (λ path. path.now) paths.now)) }
{
    let mut groups = Vec::new(alloc);
    'paths: for path in paths {
        if let Some((component, rest)) = path.split_first() {
            add(alloc, &mut groups, component, rest)?;
        }
    }
    Ok(groups)
}

/// Adds the path of a component and the rest: to the last group if that is the component's, otherwise to a new one.
fn add<'p>(
    alloc: Global,
    groups: &mut Vec<Group<'p>>,
    component: &'p Component,
    rest: &'p [Component],
) -> Result<(), NoMemory>
    ensures whole { OnOk result (ungrouped (map seen groups.new.items) ≡ ungrouped (map seen groups.old.items) ++ (component.now ∷ rest.now) ∷ []) }
    ensures filled { OnOk result (AreFilled (map seen groups.old.items) → AreFilled (map seen groups.new.items)) }
{
    let mut group = group_of(alloc, groups, component)?;
    group.rests.push(rest)?;
    groups.push(group)?;
    Ok(())
}

/// Takes out the last group, if it is the component's; otherwise a new one, without paths.
fn group_of<'p>(
    alloc: Global,
    groups: &mut Vec<Group<'p>>,
    component: &'p Component,
) -> Result<Group<'p>, NoMemory>
    ensures { IfOk result (λ group. HasGroup (map seen groups.old.items) (map seen groups.new.items) component.now (seen group)) }
{
    if let Some(last) = groups.pop() {
        if last.component.as_str() == component.as_str() {
            return Ok(last);
        }
        groups.push(last)?;
    }
    Ok(Group {
        component,
        rests: Vec::new(alloc),
    })
}
