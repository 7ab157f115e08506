//! The names of databases and collections.

ghost use Rattle.std.specs.Prelude.{◌≡◌, IfOk};
ghost use Rattle.std.specs.String.{string_bytes};
ghost use Rattle.dv_command.specs.Namespaces as names;
ghost use Rattle.dv_refusal.specs.Refusals.{Returns, UnlessWanting};

use crate::fields::value_near;
use dv_path::has_dot;
use dv_refusal::Refusal;
use dv_value::{Document, NoMemory, Value, begins_with_dollar};
use std::alloc::Global;

/// How many bytes a namespace may have.
const LONGEST_NAMESPACE: usize = 120;

/// The database that a command names, in its field `$db`. Refused with `FailedToParse` if there is no such field, with `TypeMismatch`
/// if it is no string, and with `BadValue` if it is empty or has a dot or a zero byte.
pub(crate) fn database(body: &Document) -> Result<&str, Refusal>
    ensures { Returns (λ name. name.now) (names.database body.now) result }
{
    // Drivers write it last.
    let last = body.len().saturating_sub(1);
    match value_near(body, last, "$db") {
        None => Err(Refusal::FailedToParse),
        Some(Value::Text(name)) => {
            if is_database_name(name.as_str()) {
                Ok(name.as_str())
            } else {
                Err(Refusal::BadValue)
            }
        }
        Some(_) => Err(Refusal::TypeMismatch),
    }
}

/// Whether the name is not empty, without a dot and without a zero byte.
fn is_database_name(name: &str) -> bool
    ensures { result ≡ names.is_database_name name.now }
{
    !name.is_empty() && !has_dot(name) && !name.as_bytes().contains(&0)
}

/// The namespace of a database's collection: the two names joined by a dot. Refused with `BadValue` if the collection's name is
/// empty, holds a zero byte or begins with a dollar sign, or the namespace is over 120 bytes; and with `WantOfMemory`.
pub fn namespace(alloc: Global, database: &str, collection: &str) -> Result<String, Refusal>
    ensures { UnlessWanting string_bytes (names.namespace database.now collection.now) result }
{
    // One byte more is the dot's.
    let len = database.len() + 1 + collection.len();
    if len <= LONGEST_NAMESPACE && is_collection_name(collection) {
        Ok(dotted(alloc, len, database, collection)?)
    } else {
        Err(Refusal::BadValue)
    }
}

/// The two names joined by a dot, which then have `len` bytes. Fails when memory runs out.
fn dotted(alloc: Global, len: usize, database: &str, collection: &str) -> Result<String, NoMemory>
    ensures { IfOk result (λ text. string_bytes text ≡ names.dotted database.now collection.now) }
{
    let mut text = String::with_capacity(alloc, len)?;
    text.push_str(database)?;
    text.push_str(".")?;
    text.push_str(collection)?;
    Ok(text)
}

/// Whether the name is not empty, without a dollar sign in front and without a zero byte.
fn is_collection_name(name: &str) -> bool
    ensures { result ≡ names.is_collection_name name.now }
{
    !name.is_empty() && !begins_with_dollar(name) && !name.as_bytes().contains(&0)
}
