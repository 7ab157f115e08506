//! Laws of batches and cursors. Each is the contract of a function that does nothing.

ghost use Rattle.std.specs.FinMap as finite;
ghost use Rattle.std.specs.Prelude.{◌≡◌, ◌≢◌, ◌++◌, ◌∷◌, ◌<◌, ◌≤◌, ◌==◌, ℕ, List, [], None, Some, false, length, take, if◌then◌else◌};
ghost use Rattle.std.specs.List.Sorted.{IsStrictlySortedBy};
ghost use Rattle.std.specs.Ordering.{nat_cmp};
ghost use Rattle.dv_value.specs.Tree.{Field};
ghost use Rattle.dv_cursor.specs.Batch.{batch, rows_behind, can_hold};
ghost use Rattle.dv_cursor.specs.Cursors.{Cursors, added, advanced, closed, cursor_behind, free_id, without_session};
ghost use Rattle.dv_cursor.specs.Inner.Runs.{Event, IsWithinBatch, Rows, batches_joined, behind_all, changed_at, cursor_at, ids_given, opened};

/// A batch and the rows after it are the rows.
pub fn a_batch_is_a_front()
    ensures { (count : ℕ) (rows : Rows) → batch count rows ++ rows_behind count rows ≡ rows }
{}

/// A batch is within its bounds: no more rows than `count`, and if there is more than one, no more bytes than the limit. No longer
/// prefix is within them. If `count` isn't 0 and there is a row, the batch has one.
pub fn a_batch_is_full()
    ensures within { (count : ℕ) (rows : Rows) → IsWithinBatch count (batch count rows) }
    ensures longest { (count n : ℕ) (rows : Rows) → length (batch count rows) < n → n ≤ length rows → can_hold count (take n rows) ≡ false }
    ensures some { (count : ℕ) (row : List Field) (rows : Rows) → 0 < count → batch count (row ∷ rows) ≢ [] }
{}

/// A batch of at most `count` rows needs no row after the first `count`.
pub fn a_batch_needs_no_later_row()
    ensures { (count : ℕ) (rows : Rows) → batch count (take count rows) ≡ batch count rows }
{}

/// Batches that are returned one after the other, joined, are a prefix of the rows.
pub fn batches_are_a_front()
    ensures { (counts : List ℕ) (rows : Rows) → batches_joined counts rows ++ behind_all counts rows ≡ rows }
{}

/// No id is given twice: in any run of events each id that is given is greater than those before it.
pub fn ids_are_given_once()
    ensures { (events : List Event) (cursors : Cursors) → IsStrictlySortedBy nat_cmp (ids_given events cursors) }
{}

/// The cursor of a session under an id after a change: each change is of one cursor, or of those of one session, and leaves the
/// others unchanged.
pub fn a_change_leaves_other_cursors()
    ensures added { (session id other : ℕ) (namespace : List ℕ) (rows : Rows) (cursors : Cursors)
        → cursor_at session id (added other namespace rows cursors) ≡ changed_at other cursors.next (opened namespace rows) session id cursors }
    ensures advanced { (session id other number count : ℕ) (cursors : Cursors)
        → cursor_at session id (advanced other number count cursors)
        ≡ changed_at other number (cursor_behind count (cursor_at other number cursors)) session id cursors }
    ensures closed { (session id other number : ℕ) (cursors : Cursors)
        → cursor_at session id (closed other number cursors) ≡ changed_at other number None session id cursors }
    ensures ended { (session id other : ℕ) (cursors : Cursors)
        → cursor_at session id (without_session other cursors) ≡ (if session == other then None else cursor_at session id cursors) }
    ensures next { (session id count : ℕ) (cursors : Cursors) → (advanced session id count cursors).next ≡ cursors.next }
{}

/// A thousand cursors may be open, and their ids are positive int64s.
pub fn a_thousand_cursors_may_be_open()
    ensures room { (cursors : Cursors) → finite.len cursors.kept ≡ 999 → cursors.next ≡ 9223372036854775807 → free_id cursors ≡ Some 9223372036854775807 }
    ensures full { (cursors : Cursors) → finite.len cursors.kept ≡ 1000 → free_id cursors ≡ None }
    ensures last { (cursors : Cursors) → cursors.next ≡ 9223372036854775808 → free_id cursors ≡ None }
{}
