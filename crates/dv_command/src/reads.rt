//! Commands that return rows, or how rows are found, and commands for cursors.

ghost use Rattle.std.specs.Prelude.{◌≡◌};
ghost use Rattle.dv_command.specs.Asked as asking;
ghost use Rattle.dv_command.specs.Inner.Rare as rare;
ghost use Rattle.dv_command.specs.Inner.View.{asked_seen, find_seen};
ghost use Rattle.dv_command.specs.Lists.{is_alone};
ghost use Rattle.dv_refusal.specs.Refusals.{Returns, UnlessWanting};

use crate::asking::{Aggregate, Asked, Explain, Find, GetMore, KillCursors};
use crate::checked::{DATABASE, checked_database};
use crate::command::DocumentLists;
use crate::fields::{
    array_under, boolean_under, document_or, document_under, first_name, integer_under,
    integers_under, natural_under, text_under,
};
use crate::forms::{filter_under, pipeline_of, sort_under};
use crate::namespaces::{database, namespace};
use crate::rules::{FieldKind, FieldPlace, Rule, check_fields};
use dv_refusal::Refusal;
use dv_value::Document;
use std::alloc::Global;

/// The fields of a find; a find in an explain doesn't have the first one.
const FIND_RULES: [Rule; 9] = [
    DATABASE,
    Rule("find", FieldKind::Text),
    Rule("filter", FieldKind::Document),
    Rule("sort", FieldKind::Document),
    Rule("skip", FieldKind::Natural),
    Rule("limit", FieldKind::Natural),
    BATCH_SIZE,
    Rule("singleBatch", FieldKind::Boolean),
    Rule("projection", FieldKind::EmptyDocument),
];

const BATCH_SIZE: Rule = Rule("batchSize", FieldKind::Natural);

/// The fields of an explain; the command that it explains is checked separately.
const EXPLAIN_RULES: [Rule; 3] = [
    DATABASE,
    Rule("explain", FieldKind::Anything),
    Rule("verbosity", FieldKind::Anything),
];

/// The fields of an aggregation.
const AGGREGATE_RULES: [Rule; 5] = [
    DATABASE,
    Rule("aggregate", FieldKind::Text),
    Rule("pipeline", FieldKind::Array),
    Rule("cursor", FieldKind::Cursor),
    Rule("allowDiskUse", FieldKind::Anything),
];

/// The fields of a getMore.
const GET_MORE_RULES: [Rule; 4] = [
    DATABASE,
    Rule("getMore", FieldKind::Integer),
    Rule("collection", FieldKind::Text),
    BATCH_SIZE,
];

/// The fields of a killCursors.
const KILL_CURSORS_RULES: [Rule; 3] = [
    DATABASE,
    Rule("killCursors", FieldKind::Text),
    Rule("cursors", FieldKind::Integers),
];

/// How many rows a first batch has at most if the command doesn't say.
const FIRST_BATCH_SIZE: u64 = 101;

/// What a `find` asks for. Refused as `parse` says.
pub(crate) fn find_of<'a>(
    alloc: Global,
    body: &'a Document,
    lists: &'a DocumentLists,
) -> Result<Asked<'a>, Refusal>
    ensures { UnlessWanting asked_seen (asking.find_of body.now (is_alone lists.now)) result }
{
    let database = checked_database(&FIND_RULES, body, lists)?;
    Ok(Asked::Find(find_in(alloc, database, body)?))
}

/// What a find in a database, whose fields were checked, asks for.
fn find_in(alloc: Global, database: &str, body: &Document) -> Result<Find, Refusal>
    ensures { UnlessWanting find_seen (asking.find_in database.now body.now) result }
{
    let collection = text_under(body, "find")?;
    let namespace = namespace(alloc, database, collection)?;
    let filter = filter_under(alloc, body, "filter")?;
    // Most finds have no other fields, and aren't searched for each of them.
    if !has_rare(body) {
        return Ok(Find {
            namespace,
            filter,
            sort: None,
            skip: 0,
            limit: 0,
            batch_size: FIRST_BATCH_SIZE,
            single_batch: false,
        });
    }
    let sort = sort_under(alloc, body, "sort")?;
    let skip = natural_under(body, "skip", 0)?;
    let limit = natural_under(body, "limit", 0)?;
    let batch_size = natural_under(body, "batchSize", FIRST_BATCH_SIZE)?;
    let single_batch = boolean_under(body, "singleBatch", false)?;
    Ok(Find {
        namespace,
        filter,
        sort,
        skip,
        limit,
        batch_size,
        single_batch,
    })
}

/// Whether a find has a field that most finds don't have: one that says more than what is found.
fn has_rare(body: &Document) -> bool
    ensures { result ≡ rare.has_rare body.now }
{
    body.iter().any(|(name, _)| is_rare(name))
}

fn is_rare(name: &str) -> bool
    ensures { result ≡ rare.is_rare name.now }
{
    // By length, so that a name is compared with few others.
    match name.len() {
        4 => matches!(name, "sort" | "skip"),
        5 => name == "limit",
        9 => name == "batchSize",
        11 => name == "singleBatch",
        _ => false,
    }
}

/// What an `aggregate` asks for. Refused as `parse` says.
pub(crate) fn aggregate_of<'a>(
    alloc: Global,
    body: &'a Document,
    lists: &'a DocumentLists,
) -> Result<Asked<'a>, Refusal>
    ensures { UnlessWanting asked_seen (asking.aggregate_of body.now (is_alone lists.now)) result }
{
    let database = checked_database(&AGGREGATE_RULES, body, lists)?;
    let collection = text_under(body, "aggregate")?;
    let list = array_under(body, "pipeline")?;
    let batch_size = cursor_size(alloc, body)?;
    let namespace = namespace(alloc, database, collection)?;
    let pipeline = pipeline_of(alloc, list)?;
    Ok(Asked::Aggregate(Aggregate {
        namespace,
        pipeline,
        batch_size,
    }))
}

/// How many rows the first batch has at most, by the field `cursor`, if it is there and says so.
fn cursor_size(alloc: Global, body: &Document) -> Result<u64, Refusal>
    ensures { result ≡ asking.cursor_size body.now }
{
    let none = Document::new(alloc);
    natural_under(
        document_or(body, "cursor", &none)?,
        "batchSize",
        FIRST_BATCH_SIZE,
    )
}

/// What a `getMore` asks for. Refused as `parse` says.
pub(crate) fn get_more_of<'a>(
    alloc: Global,
    body: &'a Document,
    lists: &'a DocumentLists,
) -> Result<Asked<'a>, Refusal>
    ensures { UnlessWanting asked_seen (asking.get_more_of body.now (is_alone lists.now)) result }
{
    let database = checked_database(&GET_MORE_RULES, body, lists)?;
    let id = integer_under(body, "getMore")?;
    let collection = text_under(body, "collection")?;
    let batch_size = natural_under(body, "batchSize", 0)?;
    let namespace = namespace(alloc, database, collection)?;
    Ok(Asked::GetMore(GetMore {
        id,
        namespace,
        batch_size,
    }))
}

/// What a `killCursors` asks for. Refused as `parse` says.
pub(crate) fn kill_cursors_of<'a>(
    alloc: Global,
    body: &'a Document,
    lists: &'a DocumentLists,
) -> Result<Asked<'a>, Refusal>
    ensures { UnlessWanting asked_seen (asking.kill_cursors_of body.now (is_alone lists.now)) result }
{
    let database = checked_database(&KILL_CURSORS_RULES, body, lists)?;
    let collection = text_under(body, "killCursors")?;
    let ids = integers_under(alloc, body, "cursors")?;
    let namespace = namespace(alloc, database, collection)?;
    Ok(Asked::KillCursors(KillCursors { namespace, ids }))
}

/// What an `explain` asks for. Refused as `parse` says.
pub(crate) fn explain_of<'a>(
    alloc: Global,
    body: &'a Document,
    lists: &'a DocumentLists,
) -> Result<Asked<'a>, Refusal>
    ensures { UnlessWanting asked_seen (asking.explain_of body.now (is_alone lists.now)) result }
{
    let inside = explained(body)?;
    let database = database(body)?;
    // The command's own field is the first one, so what is in it is checked before the other fields.
    check_fields(FieldPlace::Command, &FIND_RULES[1..], inside)?;
    checked_database(&EXPLAIN_RULES, body, lists)?;
    let find = find_in(alloc, database, inside)?;
    Ok(Asked::Explain(Explain { find }))
}

/// The document that is explained. Refused with `CommandNotFound` if there is another value, or a document that doesn't begin with
/// `find`.
fn explained(body: &Document) -> Result<&Document, Refusal>
    ensures { Returns (λ inside. inside.now) (asking.explained_command body.now) result }
{
    match document_under(body, "explain") {
        Ok(inside) if first_name(inside) == "find" => Ok(inside),
        _ => Err(Refusal::CommandNotFound),
    }
}
