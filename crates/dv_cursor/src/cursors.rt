//! All cursors.

ghost use Rattle.std.specs.FinMap as finite;
ghost use Rattle.std.specs.Prelude.{◌≡◌, ℕ, None, IsSome, OnErr, OnOk, is_some, IfSome, if◌then◌else◌};
ghost use Rattle.std.specs.Option.{option_map};
ghost use Rattle.std.specs.String.{string_bytes};

use crate::cursor::Cursor;
use crate::rows::Rows;
use dv_value::NoMemory;
use std::alloc::Global;
use std::collections::BTreeMap;
use std::marker::Model;

/// The greatest number of cursors.
const CURSOR_LIMIT: usize = 1_000;

/// The least number that is no id.
const IDS_END: u64 = 1 << 63;

/// The cursors of all sessions. They are numbered from 1 on, and no number is given twice.
///
/// Finding a cursor takes time logarithmic in their number. Ending a session takes time for each of its cursors.
#[derive(Debug, Drop)]
pub struct Cursors {
    cursors: BTreeMap<(u32, u64), Cursor>,
    next: u64,
}

impl Model for Cursors {
    ghost use Rattle.std.specs.FinMap as finite;
    ghost use Rattle.dv_cursor.specs.Cursors as all;
    ghost use Rattle.dv_cursor.specs.Inner.CursorsCode.{coded_cursors};

    ghost Value = { all.Cursors };

    ghost coded = { coded_cursors };

    ghost view = { λ c. record { kept = finite.from_entries c.cursors.entries; next = c.next } };
}

impl Cursors {
    ghost use Rattle.dv_cursor.specs.Cursors.{advanced, closed, free_id, no_cursors, added, rows_to_come, without_session};

    /// No cursors. The first one gets the id 1.
    pub fn new(alloc: Global) -> Self
        ensures { result ≡ no_cursors }
    {
        Cursors {
            cursors: BTreeMap::new(alloc),
            next: 1,
        }
    }

    /// How many cursors are open.
    pub fn len(&self) -> usize
        ensures { result ≡ finite.len self.now.kept }
    {
        self.cursors.len()
    }

    /// The id of the next cursor. None if 1,000 are open, or if the ids up to 9,223,372,036,854,775,807 are used up.
    pub fn free_id(&self) -> Option<u64>
        ensures { result ≡ free_id self.now }
    {
        if self.len() < CURSOR_LIMIT && self.next < IDS_END {
            Some(self.next)
        } else {
            None
        }
    }

    /// Adds a cursor of a session over these rows of a namespace, under the id that `free_id` returns. Fails with `NoMemory` when
    /// memory runs out; then nothing is changed.
    pub fn add(&mut self, session: u32, namespace: String, rows: Rows) -> Result<(), NoMemory>
        requires { IsSome (free_id self.old) }
        ensures ok { OnOk result (self.new ≡ added session (string_bytes namespace) rows self.old) }
        ensures err { OnErr result (self.new ≡ self.old) }
    {
        self.cursors
            .insert((session, self.next), Cursor::new(namespace, rows))?;
        self.next += 1;
        Ok(())
    }

    /// The rows not yet returned by the cursor of a session with this namespace and id, if there is one. Takes no memory.
    pub fn rows(&self, session: u32, namespace: &str, id: u64) -> Option<&Rows>
        ensures { option_map (λ rows. rows.now) result ≡ rows_to_come session namespace.now id self.now }
    {
        self.cursors.get(&(session, id))?.rows(namespace)
    }

    /// Removes the first rows of a cursor, and the cursor itself if no rows are left. Takes no memory.
    pub fn advance(&mut self, session: u32, id: u64, count: usize)
        ensures { self.new ≡ advanced session id count self.old }
    {
        let Some(cursor) = self.cursors.get_mut(&(session, id)) else {
            return;
        };
        if cursor.skip(count) {
            self.close(session, id);
        }
    }

    /// Removes the cursor of a session with this namespace and id, and returns whether there was one. Takes no memory.
    pub fn kill(&mut self, session: u32, namespace: &str, id: u64) -> bool
        ensures found { result ≡ is_some (rows_to_come session namespace.now id self.old) }
        ensures cursors { self.new ≡ (if result then closed session id self.old else self.old) }
    {
        let found = self.rows(session, namespace, id).is_some();
        if found {
            self.close(session, id);
        }
        found
    }

    /// Removes the cursors of a session. Takes no memory, and time for each of these cursors.
    pub fn end_session(&mut self, session: u32)
        ensures { self.new ≡ without_session session self.old }
    {
        'cursors: while let Some(id) = self.first_of(session) {
            self.close(session, id);
        }
    }

    /// Removes the cursor of a session under an id.
    fn close(&mut self, session: u32, id: u64)
        ensures { self.new ≡ closed session id self.old }
    {
        let _ = self.cursors.remove(&(session, id));
    }

    /// The least id of a session's cursors, if it has one.
    fn first_of(&self, session: u32) -> Option<u64>
        ensures some { IfSome result (λ id. IsSome (finite.get self.now.kept (session, id))) }
        ensures none { result ≡ None → (id : ℕ) → finite.get self.now.kept (session, id) ≡ None }
    {
        let (place, _) = self.cursors.range((session, 0)..).next()?;
        let (owner, id) = *place;
        if owner == session { Some(id) } else { None }
    }
}
