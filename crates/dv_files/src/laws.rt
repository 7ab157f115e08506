//! What holds of files of documents.

ghost use Rattle.std.specs.Prelude.{◌<◌, ◌++◌, ◌∷◌, [], ℕ, List, length};
ghost use Rattle.dv_value.specs.Spelling.{Fits, Spells};
ghost use Rattle.dv_value.specs.Tree.{Field};
ghost use Rattle.dv_files.specs.File.{Begins, Holds};

use dv_value::laws::what_a_field_adds;

/// Bytes that are documents, and those of one more document, are all of these documents; and after a document fewer bytes are left.
pub fn documents_come_one_by_one()
    ensures more { (documents : List (List Field)) (d : List Field) (front next : List ℕ) → Holds documents front → Spells d next → Fits d
        → Holds (documents ++ d ∷ []) (front ++ next) }
    ensures fewer { (bytes : List ℕ) (d : List Field) (behind : List ℕ) → Begins bytes d behind → length behind < length bytes }
{
    what_a_field_adds();
}
