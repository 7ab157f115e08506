//! What holds of documents, whatever their bytes are.

ghost use Rattle.std.specs.Prelude.{◌≡◌, ◌↔◌, ℕ, ◌+◌, List, [], ◌∷◌, ◌++◌, length, map, true, Some, All};
ghost use Rattle.std.specs.Str.{IsUtf8};
ghost use Rattle.dv_value.specs.Tree.{Tree, Field, document, fields_of};
ghost use Rattle.dv_value.specs.Names.{AreNamed, has_name, value_under, with_value_under};
ghost use Rattle.dv_value.specs.Spelling.{payload, spelling, levels, IsValue, AreFields};

/// A document is valid if the name and the value of each field are valid, and no two names are equal.
pub fn a_document_is_valid_by_its_fields()
    ensures { (fields : List Field) → AreFields (fields_of fields) ↔ (All (λ f. IsUtf8 f.0 × IsValue f.1) fields × AreNamed fields) }
{}

/// A field adds a type byte, its name, a zero byte and its value to the encoding, whatever the other fields are.
pub fn what_a_field_adds()
    ensures nothing { length (spelling []) ≡ 5 }
    ensures more { (f : Field) (fields : List Field) → length (spelling (f ∷ fields)) ≡ length (payload f.1) + length f.0 + 2 + length (spelling fields) }
{}

/// If a field is moved to the front, the names stay distinct, and the encoding's length and the levels stay the same.
pub fn where_a_field_stands_is_no_matter()
    ensures named { (before after : List Field) (f : Field) → AreNamed (before ++ f ∷ after) → AreNamed (f ∷ (before ++ after)) }
    ensures size { (before after : List Field) (f : Field) → length (spelling (f ∷ (before ++ after))) ≡ length (spelling (before ++ f ∷ after)) }
    ensures depth { (before after : List Field) (f : Field) → levels (document (fields_of (f ∷ (before ++ after)))) ≡ levels (document (fields_of (before ++ f ∷ after))) }
{}

/// A value that is put under a name is found there, whatever was put there before; and the names stay as they are.
pub fn what_is_put_under_a_name()
    ensures there { (name : List ℕ) (v : Tree) (fields : List Field) → has_name name fields ≡ true → value_under name (with_value_under name v fields) ≡ Some v }
    ensures again { (name : List ℕ) (v w : Tree) (fields : List Field) → with_value_under name v (with_value_under name w fields) ≡ with_value_under name v fields }
    ensures names { (name : List ℕ) (v : Tree) (fields : List Field) → map (λ f. f.0) (with_value_under name v fields) ≡ map (λ f. f.0) fields }
{}
