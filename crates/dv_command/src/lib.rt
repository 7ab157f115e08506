//! Parsing of commands, and the documents of replies.
#![tactic(auto)]

mod asking;
mod catalog;
mod checked;
mod command;
mod documents;
mod entries;
mod fields;
mod forms;
pub mod laws;
mod lists;
pub mod namespaces;
mod needed;
mod parsing;
mod reads;
pub mod replies;
mod reply_names;
mod rules;
mod statements;
mod values;

pub use asking::{
    Aggregate, Asked, Create, CreateIndexes, DropIndexes, DropNamespace, Explain, Find, GetMore,
    IndexAsked, KillCursors, ViewOn, ViewStats, Write, WriteKind,
};
pub use command::{Command, DocumentList, DocumentLists};
pub use documents::Documents;
pub use dv_refusal::Refusal;
pub use entries::{Deletion, Updating, deletion_of, updating_of};
pub use fields::first_name;
pub use needed::documents_needed;
pub use parsing::parse;
pub use reply_names::ReplyNames;
