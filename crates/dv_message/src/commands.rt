//! The commands in messages.

ghost use Rattle.std.specs.Prelude.{◌≡◌, ◌⊎◌, ◌∷◌, [], List, map, Ok};
ghost use Rattle.dv_value.specs.Tree.{Field};
ghost use Rattle.dv_command.specs.Asked.{command_name};
ghost use Rattle.dv_command.specs.Lists.{CommandLists};
ghost use Rattle.dv_command.specs.ListsView.{list_seen};
ghost use Rattle.dv_command.specs.Inner.Needed.{needed};
ghost use Rattle.dv_message.specs.Commands as brings;
ghost use Rattle.dv_message.specs.Sections as wire;
ghost use Rattle.dv_message.specs.Inner.CommandsView.{ReadAs, front_read, list_front, needed_read};
ghost use Rattle.dv_message.specs.Inner.SectionsView.{framed_seen, section_seen};

use crate::framed::Framed;
use crate::sections::{Section, cut_at_zero};
use crate::shapes::Shapes;
use dv_bson::{check_document, read_document_like};
use dv_command::{Command, DocumentList, DocumentLists, documents_needed};
use dv_value::{BsonFault, Document, Str};
use std::alloc::Global;

/// The command in a message's sections, with no more of its lists than it needs, or the first fault in all of their documents; or
/// that memory ran out while they were read. Documents of the given shapes share their names. If it is time for other shapes, those
/// of these documents are kept. Each is made before what follows its document is read, so the memory that is taken last for a large
/// message does not stay in use.
pub fn command_in(alloc: Global, sections: &[Section<'_>], shapes: &mut Shapes) -> Command
    ensures { (needed (brings.command_from (brings.read_in (map section_seen sections.now))) ≡ result) ⊎ (result ≡ Command.Invalid BsonFault.NoMemory) }
{
    match read_sections(alloc, sections, shapes) {
        Ok(read) => Command::Sections {
            body: read.body,
            lists: DocumentLists::of(read.lists),
        },
        Err(fault) => Command::Invalid(fault),
    }
}

/// The documents of sections.
#[derive(Drop)]
struct Read {
    body: Document,
    lists: Vec<DocumentList>,
}

/// Reads the documents of sections in their order, to the first fault, and keeps those that the command needs.
fn read_sections(
    alloc: Global,
    sections: &[Section<'_>],
    shapes: &mut Shapes,
) -> Result<Read, BsonFault>
    ensures { ReadAs (λ read. Command.Sections read.body (map list_seen read.lists.items)) result (needed_read (brings.read_in (map section_seen sections.now))) }
{
    match sections {
        [Section::Body(document)] => read_alone(alloc, document, shapes),
        _ => read_several(alloc, sections, shapes),
    }
}

/// The same for a body alone.
fn read_alone(alloc: Global, document: &[u8], shapes: &mut Shapes) -> Result<Read, BsonFault>
    ensures { ReadAs (λ read. Command.Sections read.body (map list_seen read.lists.items)) result (needed_read (brings.read_in (wire.body document.now ∷ []))) }
{
    let body = read_body(alloc, document, shapes)?;
    Ok(Read {
        body,
        lists: Vec::new(alloc),
    })
}

/// The same for any sections.
fn read_several(
    alloc: Global,
    sections: &[Section<'_>],
    shapes: &mut Shapes,
) -> Result<Read, BsonFault>
    ensures { ReadAs (λ read. Command.Sections read.body (map list_seen read.lists.items)) result (needed_read (brings.read_in (map section_seen sections.now))) }
{
    let command = command_name_in(sections);
    let mut body = Document::new(alloc);
    let mut lists = Vec::new(alloc);
    'sections: for section in sections {
        match section {
            Section::Body(document) => body = read_body(alloc, document, shapes)?,
            Section::Named { name, documents } => {
                let most = documents_needed(command, name);
                lists.push(read_list(alloc, name, *documents, most, shapes)?)?
            }
        }
    }
    Ok(Read { body, lists })
}

/// The name of the command in the sections, if their documents can be read: the first name in the body, which may follow the lists.
fn command_name_in<'a>(sections: &'a [Section<'_>]) -> &'a str
    ensures { (body : List Field) (lists : CommandLists) → brings.read_in (map section_seen sections.now) ≡ Ok (body, lists) → result.now ≡ command_name body }
{
    let mut name = "";
    'sections: for section in sections {
        match section {
            Section::Body(document) => name = first_name_in(document),
            Section::Named { .. } => {}
        }
    }
    name
}

/// The name of the first field of the document that the bytes begin with, if it can be read; empty if it has no field.
fn first_name_in(document: &[u8]) -> &str
    ensures { (fields : List Field) → brings.fields_in document.now ≡ Ok fields → result.now ≡ command_name fields }
{
    // After the length comes the type of the first field, or the zero that closes the document.
    if document.len() < 6 || document[4] == 0 {
        return "";
    }
    let Some((name, _)) = cut_at_zero(&document[5..]) else {
        return "";
    };
    match str::from_utf8(name) {
        Ok(name) => name,
        Err(_) => "",
    }
}

/// Reads a body, and passes it to the shapes.
fn read_body(alloc: Global, document: &[u8], shapes: &mut Shapes) -> Result<Document, BsonFault>
    ensures { ReadAs (λ read. read) result (brings.fields_in document.now) }
{
    let body = read_one(alloc, document, shapes.body())?;
    shapes.keep_body(alloc, &body);
    Ok(body)
}

/// Reads the documents under a name, and keeps the first of them, at most `most`.
fn read_list(
    alloc: Global,
    name: &str,
    documents: Framed<'_>,
    most: usize,
    shapes: &mut Shapes,
) -> Result<DocumentList, BsonFault>
    ensures { ReadAs list_seen result (list_front name.now most (framed_seen documents.entry)) }
{
    let documents = read_each(alloc, documents, most, shapes)?;
    let name = String::from_str(alloc, name)?;
    Ok(DocumentList {
        name: Str::of(name),
        documents,
    })
}

/// Reads documents in their order, to the first fault, and keeps the first of them, at most `most`. The others are only checked.
fn read_each(
    alloc: Global,
    documents: Framed<'_>,
    most: usize,
    shapes: &mut Shapes,
) -> Result<Vec<Document>, BsonFault>
    ensures { ReadAs (λ read. read.items) result (front_read most (framed_seen documents.entry)) }
{
    let mut read = Vec::new(alloc);
    let mut rest = documents;
    'documents: while let Some((document, others)) = rest.split_first() {
        if read.len() < most {
            let document = read_next(alloc, document, read.last(), shapes)?;
            read.push(document)?;
        } else {
            check_document(alloc, document)?;
        }
        rest = others;
    }
    Ok(read)
}

/// Reads the next document of a list, which is likely to have the names of the document before it. The first one is likely to have
/// the kept shape, and is passed to the shapes.
fn read_next(
    alloc: Global,
    document: &[u8],
    before: Option<&Document>,
    shapes: &mut Shapes,
) -> Result<Document, BsonFault>
    ensures { ReadAs (λ read. read) result (brings.fields_in document.now) }
{
    if let Some(before) = before {
        return read_one(alloc, document, before);
    }
    let first = read_one(alloc, document, shapes.listed())?;
    shapes.keep_listed(alloc, &first);
    Ok(first)
}

/// Reads the document that the bytes begin with. If it has the names of `like`, it shares them.
fn read_one(alloc: Global, document: &[u8], like: &Document) -> Result<Document, BsonFault>
    ensures { ReadAs (λ read. read) result (brings.fields_in document.now) }
{
    let (read, _) = read_document_like(alloc, document, like)?;
    Ok(read)
}
