//! Memory that is kept for commands that store nothing.

ghost use Rattle.std.specs.Prelude.{◌≡◌};

use dv_command::{Command, Refusal, WriteKind, first_name};
use std::alloc::Global;

/// How many bytes are kept.
const KEPT_BYTES: usize = 1_048_576;

/// The fewest bytes of a piece.
const SMALLEST_PIECE: usize = 1_024;

/// How many free bytes besides these are enough for a command that stores nothing.
const ROOM_FOR_COMMAND: usize = 65_536;

/// Bytes that nothing uses, in as few pieces as possible. They are given back if memory runs out for a command that stores nothing,
/// for a message or for a reply, and taken again for the next command that stores something.
#[derive(Debug, Drop)]
pub(crate) struct Reserve {
    alloc: Global,
    pieces: Vec<Vec<u8>>,
    missing: usize,
    /// Whether there may be views.
    has_views: bool,
}

impl Reserve {
    /// A reserve with as many of the bytes as can be allocated.
    pub(crate) fn new(alloc: Global) -> Self {
        let mut reserve = Reserve {
            alloc,
            pieces: Vec::new(alloc),
            missing: KEPT_BYTES,
            has_views: false,
        };
        let _ = reserve.take();
        reserve
    }

    /// Prepares for a command, and returns whether it may be carried out. For a command that stores something, all missing bytes
    /// are taken again; if they can't be, it may not be carried out. For any other command, enough other bytes are free, or all
    /// bytes are given back. A delete gives them back itself if memory runs out; but not if it runs out only for a view, which then
    /// becomes stale.
    pub(crate) fn prepare(&mut self, command: &Command) -> bool {
        match need_of(command) {
            Need::Kept => return self.take(),
            Need::KeptForView => {
                self.has_views = true;
                return self.take();
            }
            Need::RoomToRead if !self.has_views => self.leave(SMALLEST_PIECE),
            Need::Room | Need::RoomToRead => self.make_room(),
        }
        true
    }

    /// Takes the missing bytes again, and returns whether that succeeded, except for less than a piece.
    fn take(&mut self) -> bool {
        let mut size = self.missing;
        'pieces: while size >= SMALLEST_PIECE {
            if self.add(size) {
                self.missing = self.missing.saturating_sub(size);
                size = size.min(self.missing);
            } else {
                size /= 2;
            }
        }
        self.missing < SMALLEST_PIECE
    }

    /// Gives all back.
    pub(crate) fn give_back(&mut self) {
        self.pieces = Vec::new(self.alloc);
        self.missing = KEPT_BYTES;
    }

    /// Gives all back, unless enough other bytes are free.
    pub(crate) fn make_room(&mut self) {
        self.leave(ROOM_FOR_COMMAND);
    }

    /// Gives all back, unless this many other bytes are free.
    fn leave(&mut self, size: usize) {
        if self.add(size) {
            let _ = self.pieces.pop();
        } else {
            self.give_back();
        }
    }

    /// Makes room after a statement that was stopped, if it is one of a delete. Returns whether memory had run out for it: then all
    /// is given back, and the statement may be carried out once more.
    pub(crate) fn makes_room_behind(&mut self, kind: WriteKind, refusal: &Refusal) -> bool {
        if !matches!(kind, WriteKind::Delete) {
            return false;
        }
        if matches!(refusal, Refusal::WantOfMemory) {
            self.give_back();
            return true;
        }
        // The statement's error needs some memory.
        self.make_room();
        false
    }

    /// Gives all back if the refusal says that memory ran out.
    pub(crate) fn make_room_for(&mut self, refusal: &Refusal) {
        if matches!(refusal, Refusal::WantOfMemory) {
            self.give_back();
        }
    }

    /// Adds a piece, and returns whether it could be allocated.
    fn add(&mut self, size: usize) -> bool
        ensures { self.new.missing ≡ self.old.missing }
    {
        match Vec::with_capacity(self.alloc, size) {
            Ok(piece) => self.pieces.push(piece).is_ok(),
            Err(_) => false,
        }
    }
}

/// What a command needs of the memory that is kept.
enum Need {
    /// That all of it is kept, since the command stores something: documents, rows of views, an index or a cursor.
    Kept,
    /// The same; the command may make a view.
    KeptForView,
    /// Enough free memory besides, for a command that takes no memory for long.
    Room,
    /// Enough free memory besides for a delete to be read.
    RoomToRead,
}

/// What a command needs, by its name.
fn need_of(command: &Command) -> Need {
    let name = name_of(command);
    // By the first letter, so that a name is compared with few others.
    match name.as_bytes().first() {
        Some(b'a') if name == "aggregate" => Need::Kept,
        Some(b'c') if name == "create" => Need::KeptForView,
        Some(b'c') if name == "createIndexes" => Need::Kept,
        Some(b'd') if name == "delete" => Need::RoomToRead,
        Some(b'e') if name == "explain" => Need::Kept,
        Some(b'f') if name == "find" => Need::Kept,
        Some(b'i') if name == "insert" => Need::Kept,
        Some(b'u') if name == "update" => Need::Kept,
        _ => Need::Room,
    }
}

/// The name of a command; empty if it can't be read.
fn name_of(command: &Command) -> &str {
    match command {
        Command::Sections { body, .. } => first_name(body),
        Command::Invalid(_) => "",
    }
}
