//! Commands and their replies.

use dv_command::{Command, DocumentList, DocumentLists};
use dv_core::{Outcome, Store};
use dv_testing::spelled::{bytes_of, document};
use std::alloc::Global;
use std::test::Fail;

/// The bytes of the reply to a command with lists of documents besides its body. Fails if there is no reply, or one that reports
/// that memory ran out.
pub(crate) fn told(
    alloc: Global,
    store: &mut Store,
    body: &[u8],
    lists: Vec<DocumentList>,
) -> Result<Vec<u8>, Fail> {
    let command = Command::Sections {
        body: document(alloc, body)?,
        lists: DocumentLists::of(lists),
    };
    match store.execute(7, &command) {
        Outcome::Reply(reply) => bytes_of(alloc, &reply),
        _ => Err(Fail::from("memory ran out")),
    }
}
