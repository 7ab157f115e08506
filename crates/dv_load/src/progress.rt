//! The progress of a load, reported while it runs.

use std::io::IsTerminal;

/// How many documents are loaded from one report to the next.
const DOCUMENTS_PER_REPORT: usize = 100_000;

/// What is called to report how far the load of a file is.
pub(crate) trait Progress {
    /// So many of its documents are loaded.
    fn loaded(&mut self, count: usize);
}

/// Reports nothing.
#[derive(Clone, Copy)]
pub(crate) struct Untold;

impl Progress for Untold {
    fn loaded(&mut self, _count: usize) {}
}

/// A line of a terminal, written over in place: how many documents of a file are loaded so far, each 100,000 and at the end. If it
/// isn't a terminal, or takes none, nothing is written.
#[derive(Drop)]
pub(crate) struct TerminalLine<'a, E> {
    terminal: &'a E,
    file: &'a str,
    count: usize,
    has_begun: bool,
}

impl<'a, E: Eprint + IsTerminal> TerminalLine<'a, E> {
    /// A line that isn't begun.
    pub(crate) fn of(terminal: &'a E, file: &'a str) -> Self {
        TerminalLine {
            terminal,
            file,
            count: 0,
            has_begun: false,
        }
    }

    fn write(&self) {
        let _ = eprint!(self.terminal; "\r{}: {} documents", self.file, self.count);
    }

    /// Ends it with the last count, if it was begun.
    pub(crate) fn end(self) {
        if self.has_begun {
            self.write();
            let _ = eprint!(self.terminal; "\n");
        }
    }
}

impl<E: Eprint + IsTerminal> Progress for TerminalLine<'_, E> {
    fn loaded(&mut self, count: usize) {
        self.count = count;
        if count % DOCUMENTS_PER_REPORT == 0 && self.terminal.is_terminal() {
            self.has_begun = true;
            self.write();
        }
    }
}
