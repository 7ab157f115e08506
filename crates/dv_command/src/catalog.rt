//! Commands for what is under namespaces: collections, views and indexes.

ghost use Rattle.std.specs.Prelude.{map};
ghost use Rattle.std.specs.Option.{option_map};
ghost use Rattle.dv_command.specs.Asked as asking;
ghost use Rattle.dv_command.specs.Entries as entered;
ghost use Rattle.dv_command.specs.Inner.View.{asked_seen, index_seen, view_fields_seen, view_on_seen};
ghost use Rattle.dv_command.specs.Lists.{is_alone};
ghost use Rattle.dv_refusal.specs.Refusals.{Returns, UnlessWanting};
ghost use Rattle.dv_value.specs.Results.{each};

use crate::asking::{
    Asked, Create, CreateIndexes, DropIndexes, DropNamespace, IndexAsked, ViewFields, ViewOn,
    ViewStats,
};
use crate::checked::{DATABASE, checked_database};
use crate::command::DocumentLists;
use crate::documents::Documents;
use crate::entries::index_of;
use crate::fields::{documents_under, text_under};
use crate::forms::pipeline_of;
use crate::namespaces::namespace;
use crate::rules::{FieldKind, Rule};
use crate::values::{array_of, text_of};
use dv_refusal::Refusal;
use dv_value::Document;
use std::alloc::Global;

/// The fields of a create.
const CREATE_RULES: [Rule; 4] = [
    DATABASE,
    Rule("create", FieldKind::Text),
    Rule("viewOn", FieldKind::Text),
    Rule("pipeline", FieldKind::Array),
];

/// The fields of a drop.
const DROP_RULES: [Rule; 2] = [DATABASE, Rule("drop", FieldKind::Text)];

/// The fields of a createIndexes.
const CREATE_INDEXES_RULES: [Rule; 3] = [
    DATABASE,
    Rule("createIndexes", FieldKind::Text),
    Rule("indexes", FieldKind::Documents),
];

/// The fields of a dropIndexes.
const DROP_INDEXES_RULES: [Rule; 3] = [
    DATABASE,
    Rule("dropIndexes", FieldKind::Text),
    Rule("index", FieldKind::Text),
];

/// The fields of a viewStats.
const VIEW_STATS_RULES: [Rule; 2] = [DATABASE, Rule("viewStats", FieldKind::Text)];

/// What a `create` asks for. Refused as `parse` says.
pub(crate) fn create_of<'a>(
    alloc: Global,
    body: &'a Document,
    lists: &'a DocumentLists,
) -> Result<Asked<'a>, Refusal>
    ensures { UnlessWanting asked_seen (asking.create_of body.now (is_alone lists.now)) result }
{
    let database = checked_database(&CREATE_RULES, body, lists)?;
    let collection = text_under(body, "create")?;
    let fields = view_fields(body)?;
    let namespace = namespace(alloc, database, collection)?;
    let view = view_of(alloc, database, fields)?;
    Ok(Asked::Create(Create { namespace, view }))
}

/// The fields of a view that a body has; `None` if it has neither. Refused with `FailedToParse` if it has only one of them, and
/// with `TypeMismatch` if one has a wrong type.
fn view_fields(body: &Document) -> Result<Option<ViewFields<'_>>, Refusal>
    ensures { Returns (option_map view_fields_seen) (asking.view_fields body.now) result }
{
    match (body.get("viewOn"), body.get("pipeline")) {
        (None, None) => Ok(None),
        (Some(view_on), Some(pipeline)) => Ok(Some(ViewFields {
            collection: text_of(view_on)?,
            list: array_of(pipeline)?,
        })),
        _ => Err(Refusal::FailedToParse),
    }
}

/// The view of a collection of the database that these fields ask for.
fn view_of(
    alloc: Global,
    database: &str,
    fields: Option<ViewFields<'_>>,
) -> Result<Option<ViewOn>, Refusal>
    ensures { UnlessWanting (option_map view_on_seen) (asking.view_of database.now (option_map view_fields_seen fields.entry)) result }
{
    let Some(ViewFields { collection, list }) = fields else {
        return Ok(None);
    };
    let source = namespace(alloc, database, collection)?;
    let pipeline = pipeline_of(alloc, list)?;
    Ok(Some(ViewOn { source, pipeline }))
}

/// What a `drop` asks for. Refused as `parse` says.
pub(crate) fn drop_of<'a>(
    alloc: Global,
    body: &'a Document,
    lists: &'a DocumentLists,
) -> Result<Asked<'a>, Refusal>
    ensures { UnlessWanting asked_seen (asking.drop_of body.now (is_alone lists.now)) result }
{
    let database = checked_database(&DROP_RULES, body, lists)?;
    let collection = text_under(body, "drop")?;
    let namespace = namespace(alloc, database, collection)?;
    Ok(Asked::Drop(DropNamespace { namespace }))
}

/// What a `createIndexes` asks for. Refused as `parse` says.
pub(crate) fn create_indexes_of<'a>(
    alloc: Global,
    body: &'a Document,
    lists: &'a DocumentLists,
) -> Result<Asked<'a>, Refusal>
    ensures { UnlessWanting asked_seen (asking.create_indexes_of body.now (is_alone lists.now)) result }
{
    let database = checked_database(&CREATE_INDEXES_RULES, body, lists)?;
    let collection = text_under(body, "createIndexes")?;
    let entries = documents_under(body, "indexes")?;
    let namespace = namespace(alloc, database, collection)?;
    let indexes = indexes_of(alloc, entries)?;
    Ok(Asked::CreateIndexes(CreateIndexes { namespace, indexes }))
}

/// The indexes that entries ask for, or the first refusal of one.
fn indexes_of(alloc: Global, entries: Documents<'_>) -> Result<Vec<IndexAsked>, Refusal>
    ensures { UnlessWanting (λ indexes. map index_seen indexes.items) (each entered.index_asked entries.entry) result }
{
    let mut indexes = Vec::with_capacity(alloc, entries.len())?;
    'entries: for entry in entries {
        indexes.push(index_of(alloc, entry)?)?;
    }
    Ok(indexes)
}

/// What a `dropIndexes` asks for. Refused as `parse` says.
pub(crate) fn drop_indexes_of<'a>(
    alloc: Global,
    body: &'a Document,
    lists: &'a DocumentLists,
) -> Result<Asked<'a>, Refusal>
    ensures { UnlessWanting asked_seen (asking.drop_indexes_of body.now (is_alone lists.now)) result }
{
    let database = checked_database(&DROP_INDEXES_RULES, body, lists)?;
    let collection = text_under(body, "dropIndexes")?;
    let index = text_under(body, "index")?;
    let namespace = namespace(alloc, database, collection)?;
    Ok(Asked::DropIndexes(DropIndexes {
        namespace,
        index: String::from_str(alloc, index)?,
    }))
}

/// What a `viewStats` asks for. Refused as `parse` says.
pub(crate) fn view_stats_of<'a>(
    alloc: Global,
    body: &'a Document,
    lists: &'a DocumentLists,
) -> Result<Asked<'a>, Refusal>
    ensures { UnlessWanting asked_seen (asking.view_stats_of body.now (is_alone lists.now)) result }
{
    let database = checked_database(&VIEW_STATS_RULES, body, lists)?;
    let collection = text_under(body, "viewStats")?;
    let namespace = namespace(alloc, database, collection)?;
    Ok(Asked::ViewStats(ViewStats { namespace }))
}
