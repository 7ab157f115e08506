//! What is found in a collection, by its indexes.

ghost use Rattle.std.specs.Prelude.{◌≡◌, filter as kept, map, reverse, take, IfOk, IfSome};
ghost use Rattle.dv_coll.specs.Collection.{AreStanding};
ghost use Rattle.dv_match.specs.Match.{matches};
ghost use Rattle.dv_path.specs.Parts.{part};
ghost use Rattle.dv_index.specs.Inner.Ahead.{HasAllAhead};
ghost use Rattle.dv_index.specs.Inner.InDirection.{in_direction};
ghost use Rattle.dv_index.specs.Inner.Search.{documents_referred};

use crate::ahead::{Ahead, candidates_ahead, index_in_order, leads_somewhere};
use crate::indexed::IndexedCollection;
use crate::search::{all_matching, run, run_first};
use crate::walk::{is_walk, walked};
use dv_coll::laws;
use dv_keyed::{Planner, Ties, bar_behind};
use dv_match::Filter;
use dv_path::{Direction, SortPart};
use dv_value::{Document, NoMemory};

/// If the order of an index is used, at most one of this many documents is looked up: to look one up costs about as much as to read
/// this many in order.
const DOCUMENTS_PER_LOOKUP: usize = 16;

impl IndexedCollection {
    /// The documents that match the filter, in the order of their `_id`s, whatever indexes there are. Fails with `NoMemory` when
    /// memory runs out.
    pub fn find(&self, filter: &Filter) -> Result<Vec<&Document>, NoMemory>
        ensures { IfOk result (λ found. map (λ d. d.now) found.items ≡ kept (λ d. matches filter.now d) self.now.documents) }
    {
        let plan = Planner::choose(filter, self.indexes.as_slice());
        run(self.alloc, &plan, filter, &self.documents, &self.indexes)
    }

    /// The first documents that match the filter, in the order of their `_id`s, and not more than `most`. If the plan reads all
    /// documents, or a range of `_id`s, no document after the last of these is read. Fails with `NoMemory` when memory runs out.
    pub fn find_first(&self, filter: &Filter, most: usize) -> Result<Vec<&Document>, NoMemory>
        ensures { IfOk result (λ found. map (λ d. d.now) found.items ≡ take most (kept (λ d. matches filter.now d) self.now.documents)) }
    {
        let plan = Planner::choose(filter, self.indexes.as_slice());
        run_first(
            self.alloc,
            &plan,
            filter,
            &self.documents,
            &self.indexes,
            most,
        )
    }

    /// The first documents that match the filter, in a direction of their `_id`s, and not more than `most`. Fails with `NoMemory`
    /// when memory runs out.
    pub fn find_in_order(
        &self,
        filter: &Filter,
        direction: Direction,
        most: usize,
    ) -> Result<Vec<&Document>, NoMemory>
        ensures { IfOk result (λ found. map (λ d. d.now) found.items ≡ take most (in_direction direction (kept (λ d. matches filter.now d) self.now.documents))) }
    {
        match direction {
            Direction::Ascending => self.find_first(filter, most),
            Direction::Descending => self.find_last(filter, most),
        }
    }

    /// The last documents that match the filter, from the last one on, and not more than `most`.
    fn find_last(&self, filter: &Filter, most: usize) -> Result<Vec<&Document>, NoMemory>
        ensures { IfOk result (λ found. map (λ d. d.now) found.items ≡ take most (reverse (kept (λ d. matches filter.now d) self.now.documents))) }
    {
        let plan = Planner::choose(filter, self.indexes.as_slice());
        if is_walk(&plan) {
            return walked(
                self.alloc,
                filter,
                &self.documents,
                &self.indexes,
                Direction::Descending,
                most,
            );
        }
        let mut found = run(self.alloc, &plan, filter, &self.documents, &self.indexes)?;
        found.reverse();
        found.truncate(most);
        Ok(found)
    }

    /// Documents that match the filter, in the order of their `_id`s, and a bar. They include all that match and that a path sorts
    /// before the bar. They are found by the order of the index on the path. This has `least` documents before the bar, or more if
    /// ties aren't decided by `_id`s; each counts once for each of its keys, and some may not match. For a filter that is answered
    /// by a range of the path, only documents in the range are counted. `None` if the filter is answered by another index, if the
    /// path has no index except that on `_id`, if the path may lead nowhere before the bar, if there is no key after so many, and
    /// if more than one of 16 documents would be looked up. Fails with `NoMemory` when memory runs out.
    pub fn find_ahead(
        &self,
        filter: &Filter,
        by: &SortPart,
        ties: Ties,
        least: usize,
    ) -> Result<Option<Ahead<'_>>, NoMemory>
        ensures all { IfOk result (λ found. IfSome found (λ ahead. HasAllAhead (part by.now) ahead.bar filter.now (documents_referred ahead.documents.items) self.now.documents)) }
        ensures standing { IfOk result (λ found. IfSome found (λ ahead. AreStanding self.now.documents (documents_referred ahead.documents.items))) }
        ensures tied { IfOk result (λ found. IfSome found (λ ahead. IfSome ahead.bar.until (λ until. ties ≡ Ties.ById))) }
    {
        laws::documents_stand_where_they_are_found();
        let alloc = self.alloc;
        let plan = Planner::choose(filter, self.indexes.as_slice());
        let Some(index) = index_in_order(&self.indexes, &plan, &by.path) else {
            return Ok(None);
        };
        let most = self.documents.len() / DOCUMENTS_PER_LOOKUP;
        let Some(bar) = bar_behind(alloc, index, filter, by.direction, ties, least, most)? else {
            return Ok(None);
        };
        if !leads_somewhere(alloc, filter, by, &bar)? {
            return Ok(None);
        }
        let Some(candidates) = candidates_ahead(
            alloc,
            index,
            filter,
            by,
            &bar,
            most,
            &self.documents,
        )?
        else {
            return Ok(None);
        };
        let documents = all_matching(candidates, filter);
        Ok(Some(Ahead { documents, bar }))
    }
}
