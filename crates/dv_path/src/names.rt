//! Names that a path can't lead to.

ghost use Rattle.std.specs.Prelude.{◌≡◌};
ghost use Rattle.std.specs.List.{list_any};
ghost use Rattle.dv_value.specs.Names as names;
ghost use Rattle.dv_value.specs.Tree.{fields_of, elements_of};
ghost use Rattle.dv_value.specs.View.{tree};
ghost use Rattle.dv_path.specs.Names as defined;

use dv_value::{Document, List, Value, begins_with_dollar};

/// Whether a name begins with a dollar sign at the top level, or holds a dot at any level. Takes no memory.
pub fn has_bad_name(document: &Document) -> bool
    ensures { result ≡ defined.has_bad_name document.now }
{
    has_dollar(document) || are_fields_dotted(document)
}

/// Whether a name begins with a dollar sign, at the top level.
fn has_dollar(document: &Document) -> bool
    ensures { result ≡ list_any (λ f. names.begins_with_dollar f.0) document.now }
{
    document.iter().any(|(name, _)| begins_with_dollar(name))
}

/// Whether the name has a dot. Takes no memory.
pub fn has_dot(name: &str) -> bool
    ensures { result ≡ defined.has_dot name.now }
{
    name.as_bytes().contains(&b'.')
}

/// Whether a name at any level of the value has a dot.
#[cycle(dotted)]
fn is_dotted(value: &Value) -> bool
    ensures { result ≡ defined.is_dotted (tree value.now) }
{
    match value {
        Value::Doc(document) => are_fields_dotted(document),
        Value::Array(list) => are_elements_dotted(list),
        _ => false,
    }
}

#[cycle(dotted)]
fn are_fields_dotted(document: &Document) -> bool
    ensures { result ≡ defined.are_fields_dotted (fields_of document.now) }
{
    'fields: for (name, value) in document.iter() {
        if has_dot(name) || is_dotted(value) {
            return true;
        }
    }
    false
}

#[cycle(dotted)]
#[tactic(auto, using(crate::proofs::Left::elements_left))]
fn are_elements_dotted(list: &List) -> bool
    ensures { result ≡ defined.are_elements_dotted (elements_of list.now) }
{
    'elements: for value in list.as_slice() {
        if is_dotted(value) {
            return true;
        }
    }
    false
}
