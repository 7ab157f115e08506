//! Fields and elements that are taken out to be changed, and put back.

ghost use Rattle.std.specs.Prelude.{◌≡◌, ◌<◌, Some, length, map, slice_get, IfOk, OnOk};
ghost use Rattle.std.specs.Option.{option_map};
ghost use Rattle.dv_value.specs.Names.{value_under, with_value_under, without};
ghost use Rattle.dv_value.specs.Tree.{null};
ghost use Rattle.dv_value.specs.View.{tree};
ghost use Rattle.dv_path.specs.Placing.{with_element};

use dv_candidates::Component;
use dv_value::{Document, NoMemory, Value};
use std::mem::replace;

/// Takes out the value under the component's name, if there is one, and leaves null until another value is put back.
pub(crate) fn take_field(
    document: &mut Document,
    component: &Component,
) -> Result<Option<Value>, NoMemory>
    ensures taken { IfOk result (λ taken. option_map tree taken ≡ value_under component.now document.old) }
    ensures left { OnOk result (document.new ≡ with_value_under component.now null document.old) }
{
    document.replace(component.as_str(), Value::Null)
}

/// Puts a value in place of the one under the component's name.
pub(crate) fn put_field_back(
    document: &mut Document,
    component: &Component,
    value: Value,
) -> Result<(), NoMemory>
    ensures { OnOk result (document.new ≡ with_value_under component.now (tree value) document.old) }
{
    document.replace(component.as_str(), value)?;
    Ok(())
}

/// Removes the field with the component's name.
pub(crate) fn drop_field(document: &mut Document, component: &Component) -> Result<(), NoMemory>
    ensures { OnOk result (document.new ≡ without component.now document.old) }
{
    document.remove(component.as_str())?;
    Ok(())
}

/// Takes out an element, and leaves null until another value is put back.
pub(crate) fn take_element(values: &mut Vec<Value>, place: usize) -> Value
    requires { place < length values.old.items }
    ensures taken { slice_get (map tree values.old.items) place ≡ Some (tree result) }
    ensures left { map tree values.new.items ≡ with_element place null (map tree values.old.items) }
    ensures length { length values.new.items ≡ length values.old.items }
{
    replace(&mut values[place], Value::Null)
}

/// Puts an element in place of another.
pub(crate) fn put_element_back(values: &mut Vec<Value>, place: usize, value: Value)
    requires { place < length values.old.items }
    ensures { map tree values.new.items ≡ with_element place (tree value) (map tree values.old.items) }
{
    values[place] = value;
}
