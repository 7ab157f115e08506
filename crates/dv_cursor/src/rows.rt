//! Rows, which are removed from the start.

ghost use Rattle.std.specs.Prelude.{◌≡◌, ◌+◌, ◌≤◌, ◌&&◌, ◌||◌, ◌↔◌, [], drop, length, min, nat_le, nat_lt, IfOk, IsTrue};
ghost use Rattle.dv_value.specs.Spelling.{spelling};
ghost use Rattle.dv_cursor.specs.Batch.{batch, batch_limit};

use dv_value::{Document, NoMemory, size};
use std::collections::VecDeque;
use std::marker::Model;

/// The greatest size in bytes of a batch with more than one row.
const BATCH_LIMIT: u32 = 16_777_216;

/// Rows that are not yet returned, in order. They are shared with all that hold them, and never copied.
#[derive(Debug, Drop)]
pub struct Rows {
    rows: VecDeque<Document>,
}

impl Model for Rows {
    ghost use Rattle.std.specs.Prelude as prelude;
    ghost use Rattle.dv_value.specs.Tree.{Field};
    ghost use Rattle.dv_cursor.specs.Inner.CursorsCode.{coded_batch};

    ghost Value = { prelude.List (prelude.List Field) };

    ghost coded = { coded_batch };

    ghost view = { λ r. r.rows.items };
}

impl Rows {
    /// These rows. Takes no memory.
    pub fn of(rows: Vec<Document>) -> Self
        ensures { result ≡ rows.items }
    {
        Rows {
            rows: VecDeque::from_vec(rows),
        }
    }

    /// How many rows there are.
    pub fn len(&self) -> usize
        ensures { result ≡ length self.now }
    {
        self.rows.len()
    }

    /// Whether there is no row.
    pub fn is_empty(&self) -> bool
        ensures { IsTrue result ↔ (self.now ≡ []) }
    {
        self.rows.is_empty()
    }

    /// The batch of the first rows: at most `count`, and at most 16,777,216 bytes if there is more than one. No row is removed.
    /// Fails with `NoMemory` when memory runs out.
    pub fn batch(&self, count: u64) -> Result<Vec<Document>, NoMemory>
        ensures { IfOk result (λ rows. rows.items ≡ batch count self.now) }
    {
        let most = (self.rows.len() as u64).min(count) as usize;
        let mut taken = Vec::with_capacity(*self.rows.allocator(), most)?;
        let mut bytes = 0;
        'rows: for row in self.rows.iter() {
            let more = bytes_with(bytes, row);
            if !is_taken(taken.len(), count, more) {
                break;
            }
            taken.push(row.try_clone()?)?;
            bytes = more;
        }
        Ok(taken)
    }

    /// Removes the first `count` rows, or all if there are fewer. Takes no memory.
    pub fn skip(&mut self, count: usize)
        ensures { self.new ≡ drop count self.old }
    {
        'rows: for _ in 0..count {
            let _ = self.rows.pop_front();
        }
    }
}

/// Whether one more row goes into a batch of at most `count` rows that has `taken` rows, and with this row `bytes` bytes.
fn is_taken(taken: usize, count: u64, bytes: u32) -> bool
    ensures { result ≡ (nat_lt taken count && (nat_le taken 0 || nat_le bytes batch_limit)) }
{
    (taken as u64) < count && (taken == 0 || bytes <= BATCH_LIMIT)
}

/// The number of bytes with one more row; if they are over the limit of a batch, the limit plus 1. Takes no memory.
fn bytes_with(bytes: u32, row: &Document) -> u32
    requires { bytes ≤ batch_limit + 1 }
    ensures { result ≡ min (bytes + length (spelling row.now)) (batch_limit + 1) }
{
    match size(row) {
        Some(size) if size <= BATCH_LIMIT => (bytes + size).min(BATCH_LIMIT + 1),
        _ => BATCH_LIMIT + 1,
    }
}
