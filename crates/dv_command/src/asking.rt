//! What commands ask for.

ghost use Rattle.std.specs.Prelude.{◌≤◌, length};
ghost use Rattle.dv_command.specs.Asked.{statement_limit};

use crate::documents::Documents;
use dv_candidates::Path;
use dv_match::Filter;
use dv_path::SortSpec;
use dv_pipe::Pipeline;
use dv_value::{List, Str};

/// What a command asks for.
#[derive(Drop)]
pub enum Asked<'a> {
    Hello,
    Ping,
    Write(Write<'a>),
    Find(Find),
    Aggregate(Aggregate),
    GetMore(GetMore),
    KillCursors(KillCursors),
    Create(Create),
    Drop(DropNamespace),
    CreateIndexes(CreateIndexes),
    DropIndexes(DropIndexes),
    Explain(Explain),
    ViewStats(ViewStats),
}

/// Entries of an insert, update or delete in a namespace, in order. An entry of an insert is the document; one of an update is read
/// by `updating_of` when it is carried out, and one of a delete by `deletion_of`.
#[derive(Drop)]
pub struct Write<'a> {
    pub kind: WriteKind,
    pub namespace: String,
    pub entries: Documents<'a>,
    /// Whether the first entry that is refused ends the command.
    pub ordered: bool,
    /// No more than a command may have.
    pub ghost few: { length entries ≤ statement_limit },
}

/// What a write does with its entries.
#[derive(Clone, Copy, Debug, PartialEq, Eq)]
pub enum WriteKind {
    Insert,
    Update,
    Delete,
}

/// The documents of a namespace that match, in the order of a sort, or else of their `_id`s.
#[derive(Drop)]
pub struct Find {
    pub namespace: String,
    pub filter: Filter,
    pub sort: Option<SortSpec>,
    /// How many of the first documents are left out.
    pub skip: u64,
    /// How many documents there are at most; 0 is no limit.
    pub limit: u64,
    /// How many documents the first batch has at most.
    pub batch_size: u64,
    /// Whether the first batch is the only one.
    pub single_batch: bool,
}

/// The rows of a pipeline over a namespace.
#[derive(Drop)]
pub struct Aggregate {
    pub namespace: String,
    pub pipeline: Pipeline,
    /// How many rows the first batch has at most.
    pub batch_size: u64,
}

/// The next rows of a cursor over a namespace.
#[derive(Drop)]
pub struct GetMore {
    /// The id of the cursor, which may not exist.
    pub id: i64,
    pub namespace: String,
    /// How many rows are returned at most; 0 means as many as a reply can hold.
    pub batch_size: u64,
}

/// A killCursors: cursors over a namespace are closed.
#[derive(Drop)]
pub struct KillCursors {
    pub namespace: String,
    /// The ids of the cursors, which may not exist.
    pub ids: Vec<i64>,
}

/// A collection under a namespace, or a view.
#[derive(Drop)]
pub struct Create {
    pub namespace: String,
    /// What the view shows; a collection shows nothing yet.
    pub view: Option<ViewOn>,
}

/// What a view shows: the rows of a pipeline over another namespace.
#[derive(Drop)]
pub struct ViewOn {
    pub source: String,
    pub pipeline: Pipeline,
}

/// A drop: what is under the namespace is removed.
#[derive(Drop)]
pub struct DropNamespace {
    pub namespace: String,
}

/// Indexes of a namespace, in order.
#[derive(Drop)]
pub struct CreateIndexes {
    pub namespace: String,
    pub indexes: Vec<IndexAsked>,
}

/// An index over a path. Its direction has no effect.
#[derive(Drop)]
pub struct IndexAsked {
    pub name: Str,
    pub path: Path,
    /// Whether no key of it may be in two documents.
    pub unique: bool,
}

/// A dropIndexes: an index of a namespace, or all except the one on `_id`, is dropped.
#[derive(Drop)]
pub struct DropIndexes {
    pub namespace: String,
    /// The index's name, or `*` for all.
    pub index: String,
}

/// How a find reads documents.
#[derive(Drop)]
pub struct Explain {
    pub find: Find,
}

/// The state of the view of this namespace.
#[derive(Drop)]
pub struct ViewStats {
    pub namespace: String,
}

/// The fields of a create that make it a view.
#[derive(Clone, Copy)]
pub(crate) struct ViewFields<'a> {
    /// The name of a collection of the same database.
    pub(crate) collection: &'a str,
    /// The stages.
    pub(crate) list: &'a List,
}
