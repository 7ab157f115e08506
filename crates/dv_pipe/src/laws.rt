//! What holds of stages and of pipelines. Each law is the contract of a function that does nothing.

ghost use Rattle.std.specs.Prelude.{◌≡◌, ◌++◌, ℕ, List, false, filter, min, Ok};
ghost use Rattle.std.specs.List.{AllByRecursion};
ghost use Rattle.dv_value.specs.Spelling.{AreElements};
ghost use Rattle.dv_value.specs.Tree.{Tree, elements_of};
ghost use Rattle.dv_match.specs.Filter.{Members};
ghost use Rattle.dv_row.specs.declared.unwind.Unwind.{Unwind};
ghost use Rattle.dv_pipe.specs.Laws.{AgreeWhere, AllSpellable, AreSpellable, LeadsToNoArray, both, has_value};
ghost use Rattle.dv_pipe.specs.Sources.{Row};
ghost use Rattle.dv_pipe.specs.StageParsing.{pipeline_of};
ghost use Rattle.dv_pipe.specs.Stages.{Lists, evaluated, is_looked_into, is_read, stage, through};

use crate::stage::Stage;

/// A pipeline of two parts is one part after the other.
#[tactic(auto, using(crate::proofs::StageLaws::through_parts))]
pub fn one_part_after_the_other()
    ensures { (first second : List Stage) (source : List ℕ) (lists : Lists) (rows : List Row) → through (first ++ second) source lists rows ≡ through second source lists (through first source lists rows) }
{}

/// What is under a namespace that a pipeline doesn't read does not matter to it.
#[tactic(auto, using(crate::proofs::StageLaws::unread))]
pub fn what_is_not_read_does_not_matter()
    ensures { (stages : List Stage) (source : List ℕ) (lists others : Lists) → AgreeWhere (is_read stages source) lists others → evaluated stages source lists ≡ evaluated stages source others }
{}

/// What is under a namespace that no `$lookup` of the stages reads does not matter to the rows that they return.
#[tactic(auto, using(crate::proofs::StageLaws::through_same))]
pub fn what_is_not_looked_into_does_not_matter()
    ensures { (stages : List Stage) (source : List ℕ) (lists others : Lists) (rows : List Row) → AgreeWhere (is_looked_into stages source) lists others → through stages source lists rows ≡ through stages source others rows }
{}

/// A match of a match is the match of both filters.
#[tactic(auto, using(crate::proofs::StageLaws::match_match))]
pub fn match_of_a_match()
    ensures { (f g : Members) (rows foreign : List Row) → stage (Stage.Match g) (stage (Stage.Match f) rows foreign) foreign ≡ stage (Stage.Match (both f g)) rows foreign }
{}

/// A limit of a limit is the lesser of the two.
#[tactic(auto, using(crate::proofs::StageLaws::limit_limit))]
pub fn limit_of_a_limit()
    ensures { (m n : ℕ) (rows foreign : List Row) → stage (Stage.Limit m) (stage (Stage.Limit n) rows foreign) foreign ≡ stage (Stage.Limit (min m n)) rows foreign }
{}

/// If a path leads to an array in no row, unwinding it keeps the rows that have a value other than null there, as they are.
#[tactic(auto, using(crate::proofs::StageLaws::unwind_plain))]
pub fn unwind_without_arrays()
    ensures { (u : Unwind) (rows foreign : List Row) → u.preserve ≡ false → AllByRecursion (LeadsToNoArray u.path) rows → stage (Stage.Unwind u) rows foreign ≡ filter (has_value u.path) rows }
{}

/// What a pipeline returns for valid documents is valid, if its stages were read from valid values.
#[tactic(auto, using(crate::proofs::Valid::comes_out_valid))]
pub fn what_comes_out_is_valid()
    ensures { (list : List Tree) (stages : List Stage) (source : List ℕ) (lists : Lists) → AreElements (elements_of list) → pipeline_of list ≡ Ok stages → AllSpellable lists → AreSpellable (evaluated stages source lists) }
{}
