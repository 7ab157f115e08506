//! One cursor.

use crate::rows::Rows;
use std::marker::Model;

/// Rows of a namespace that are not yet returned.
#[derive(Debug, Drop)]
pub(crate) struct Cursor {
    namespace: String,
    rows: Rows,
}

impl Model for Cursor {
    ghost use Rattle.std.specs.String.{string_bytes};
    ghost use Rattle.dv_cursor.specs.Cursors as cursors;
    ghost use Rattle.dv_cursor.specs.Inner.CursorsCode.{coded_cursor};

    ghost Value = { cursors.Cursor };

    ghost coded = { coded_cursor };

    ghost view = { λ c. record { namespace = string_bytes c.namespace; rows = c.rows } };
}

impl Cursor {
    ghost use Rattle.std.specs.Option.{option_map};
    ghost use Rattle.std.specs.Prelude.{◌≡◌, [], drop, IsTrue, ◌↔◌, Some};
    ghost use Rattle.std.specs.String.{string_bytes};
    ghost use Rattle.dv_cursor.specs.Cursors.{cursor_rows};

    /// A cursor over these rows of a namespace.
    pub(crate) fn new(namespace: String, rows: Rows) -> Self
        ensures { result ≡ record { namespace = string_bytes namespace; rows = rows } }
    {
        Cursor { namespace, rows }
    }

    /// The rows, if they are of this namespace.
    pub(crate) fn rows(&self, namespace: &str) -> Option<&Rows>
        ensures { option_map (λ rows. rows.now) result ≡ cursor_rows namespace.now (Some self.now) }
    {
        if namespace == self.namespace.as_str() {
            Some(&self.rows)
        } else {
            None
        }
    }

    /// Removes the first rows, and returns whether none is left.
    pub(crate) fn skip(&mut self, count: usize) -> bool
        ensures skipped { self.new ≡ record self.old { rows = drop count self.old.rows } }
        ensures out { IsTrue result ↔ (self.new.rows ≡ []) }
    {
        self.rows.skip(count);
        self.rows.is_empty()
    }
}
