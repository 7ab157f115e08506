//! `$lookup` from values.

ghost use Rattle.std.specs.Prelude.{◌≡◌};
ghost use Rattle.dv_value.specs.Names as names;
ghost use Rattle.dv_value.specs.View.{tree};
ghost use Rattle.dv_value.specs.Results.{Gives};
ghost use Rattle.dv_row.specs.declared.fault.PipelineFault.TheVariants.{NoMemory as no_memory};
ghost use Rattle.dv_gather.specs.Lookups as defined;

use crate::lookup::Lookup;
use dv_candidates::Path;
use dv_path::has_dot;
use dv_row::PipelineFault;
use dv_value::{Document, Str, Value, begins_with_dollar};
use std::alloc::Global;

impl Lookup {
    /// The look-up that the value is: a document with the texts `from`, `localField`, `foreignField` and `as`, and nothing else.
    /// The name of a collection isn't empty, begins with no dollar sign and holds no zero byte, the name of a field begins with no
    /// dollar sign and holds no dot and no zero byte, and the others are paths. Refused with `BadSpec` if it is none, and with
    /// `NoMemory` if memory runs out.
    #[tactic(auto, unfolding(crate::specs::Lookups::lookup_in))]
    pub fn parse(alloc: Global, value: &Value) -> Result<Lookup, PipelineFault>
        ensures { Gives no_memory (λ lookup. lookup) result (defined.lookup_in (tree value.now)) }
    {
        match value {
            Value::Doc(options) => Lookup::of_options(alloc, options),
            _ => Err(PipelineFault::BadSpec),
        }
    }

    fn of_options(alloc: Global, options: &Document) -> Result<Lookup, PipelineFault>
        ensures { Gives no_memory (λ lookup. lookup) result (defined.lookup_of options.now) }
    {
        if options.len() != 4 {
            return Err(PipelineFault::BadSpec);
        }
        Ok(Lookup {
            from: from_option(alloc, options)?,
            local: field_option(alloc, "localField", options)?,
            foreign: field_option(alloc, "foreignField", options)?,
            target: as_option(alloc, options)?,
        })
    }
}

/// The name of the collection.
fn from_option(alloc: Global, options: &Document) -> Result<Str, PipelineFault>
    ensures { Gives no_memory (λ name. name) result (defined.from_option options.now) }
{
    let text = text_option("from", options)?;
    if text.is_empty() || begins_with_dollar(text) || has_zero(text) {
        return Err(PipelineFault::BadSpec);
    }
    Ok(Str::of(String::from_str(alloc, text)?))
}

/// The path under the name.
fn field_option(alloc: Global, name: &str, options: &Document) -> Result<Path, PipelineFault>
    ensures { Gives no_memory (λ path. path) result (defined.field_option name.now options.now) }
{
    let text = text_option(name, options)?;
    Ok(Path::parse(alloc, text)?)
}

/// The name of the field with the documents.
fn as_option(alloc: Global, options: &Document) -> Result<Str, PipelineFault>
    ensures { Gives no_memory (λ name. name) result (defined.as_option options.now) }
{
    let text = text_option("as", options)?;
    if has_dot(text) || begins_with_dollar(text) || has_zero(text) {
        return Err(PipelineFault::BadSpec);
    }
    Ok(Str::of(String::from_str(alloc, text)?))
}

/// Whether there is a zero byte in the text.
fn has_zero(text: &str) -> bool
    ensures { result ≡ names.has_zero text.now }
{
    text.as_bytes().contains(&0)
}

/// The text under the name.
fn text_option<'a>(name: &str, options: &'a Document) -> Result<&'a str, PipelineFault>
    ensures { Gives no_memory (λ text. text.now) result (defined.text_option name.now options.now) }
{
    match options.get(name) {
        Some(Value::Text(text)) => Ok(text.as_str()),
        _ => Err(PipelineFault::BadSpec),
    }
}
