//! What holds of documents in the order of a sort. Each law is the contract of a function that does nothing.

ghost use Rattle.std.specs.Prelude.{◌≡◌, ℕ, List, [], ◌∷◌, ◌++◌, Option, Some, min};
ghost use Rattle.std.specs.List.Sorted.{IsPermutation, IsSortedBy, IsStableBy};
ghost use Rattle.dv_value.specs.Tree.{Field};
ghost use Rattle.dv_path.specs.SortSpec.{Part};
ghost use Rattle.dv_sort.specs.Front.{with_row, front_of};
ghost use Rattle.dv_sort.specs.Sorting.{stands_before, stable, front};

/// Sorting loses no row and makes none.
#[tactic(auto, using(crate::proofs::Told::permuted))]
pub fn rows_are_the_same()
    ensures { (parts : List Part) (rows : List (List Field)) → IsPermutation rows (stable parts rows) }
{}

/// No row comes before an earlier one, and equal rows keep their order.
pub fn rows_stand_in_order()
    ensures ascending { (parts : List Part) (rows : List (List Field)) → IsSortedBy (stands_before parts) (stable parts rows) }
    ensures stable { (parts : List Part) (rows : List (List Field)) → IsStableBy (stands_before parts) rows (stable parts rows) }
{}

/// These two properties determine the result: rows that are in order, and in which equal rows have kept their order, are the
/// sorted ones.
pub fn order_is_all()
    ensures { (parts : List Part) (rows others : List (List Field)) → IsSortedBy (stands_before parts) others → IsStableBy (stands_before parts) rows others → others ≡ stable parts rows }
{}

/// Sorting twice is sorting once.
#[tactic(auto, using(crate::proofs::Told::again))]
pub fn sorting_again()
    ensures { (parts : List Part) (rows : List (List Field)) → stable parts (stable parts rows) ≡ stable parts rows }
{}

/// Without a path rows stay as they are.
#[tactic(auto, using(crate::proofs::Told::no_path))]
pub fn without_a_path()
    ensures { (rows : List (List Field)) → stable [] rows ≡ rows }
{}

/// The prefix of a prefix is the prefix of the lesser number of rows.
#[tactic(auto, using(crate::proofs::Told::lesser_front))]
pub fn front_of_a_front()
    ensures { (m n : ℕ) (rows : List (List Field)) → front (Some m) (front (Some n) rows) ≡ front (Some (min m n)) rows }
{}

/// A row that isn't in the prefix never returns to it: the prefix of a prefix and one more row is the prefix of all.
pub fn one_row_more()
    ensures { (parts : List Part) (most : Option ℕ) (rows : List (List Field)) (d : List Field) → with_row (front_of parts most rows) d ≡ front_of parts most (rows ++ d ∷ []) }
{}
