//! What holds between the bytes of documents and reading them.

ghost use Rattle.std.specs.Prelude.{◌≡◌, ◌↔◌, ℕ, ◌≤◌, List, ◌++◌, length, take, None, Ok};
ghost use Rattle.dv_value.specs.Tree.{Field};
ghost use Rattle.dv_value.specs.Spelling.{Spells, Fits, IsBytes};
ghost use Rattle.dv_bson.specs.Reading.{document_at, first_fault};

pub use dv_value::laws::{
    a_document_is_valid_by_its_fields, what_a_field_adds, what_is_put_under_a_name,
    where_a_field_stands_is_no_matter,
};

/// No encoding is a prefix of another one, and each belongs to one document: so what was written is read again, whatever follows
/// it.
pub fn no_spelling_begins_another()
    ensures { (d e : List Field) (a b x y : List ℕ) → Spells d a → Spells e b → a ++ x ≡ b ++ y → (a ≡ b) × (d ≡ e) }
{}

/// If reading returns a document, the bytes begin with its encoding, and it fits.
pub fn what_is_read_is_spelled()
    ensures { (bytes : List ℕ) (d : List Field) (n : ℕ) → IsBytes bytes → document_at bytes ≡ Ok (d, n) → (n ≤ length bytes) × Spells d (take n bytes) × Fits d }
{}

/// There is a first fault exactly if the bytes begin with the encoding of no document that fits.
pub fn a_fault_where_nothing_is_spelled()
    ensures { (bytes : List ℕ) → IsBytes bytes → (first_fault bytes ≡ None) ↔ ((d : List Field) × (n : ℕ) × (n ≤ length bytes) × Spells d (take n bytes) × Fits d) }
{}
