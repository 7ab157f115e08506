//! Deleting documents under a namespace: all that a deletion selects, or as many as there is memory for.

ghost use Rattle.std.specs.Prelude.{◌≡◌, false};
ghost use Rattle.dv_command.specs.Inner.View.{deletion_seen};
ghost use Rattle.dv_catalog.specs.Effects.{delete_chosen};
ghost use Rattle.dv_catalog.specs.Inner.Parts.{Cuts, MakesCounted, StandBehind};
ghost use Rattle.dv_catalog.specs.State.{is_view};

use crate::catalog::Catalog;
use crate::counts::{Counted, NOTHING};
use crate::delete::{deleted, first_keys};
use crate::effect::Changes;
use crate::failure::Stopped;
use dv_command::{Deletion, Refusal};

/// How many documents are removed at most if memory runs out for all of them.
const FIRST_PART: usize = 1_048_576;

/// Memory ran out before the first change.
const UNBEGUN: Stopped = Stopped {
    refusal: Refusal::WantOfMemory,
    done: 0,
};

impl Catalog {
    /// Removes the documents of a namespace that a deletion selects. If there is not enough memory for all of them, only the first
    /// ones are removed, or none, but never all. The namespace has no view.
    pub fn delete(&mut self, namespace: &str, deletion: &Deletion) -> Result<Counted, Stopped>
        requires { is_view namespace.now self.old.state.views ≡ false }
        ensures made { MakesCounted namespace.now (delete_chosen (deletion_seen deletion.now)) self.old result self.new }
        ensures views { self.new.state.views ≡ self.old.state.views }
        ensures marks { StandBehind namespace.now (delete_chosen (deletion_seen deletion.now)) self.old result self.new.marks }
    {
        match self.delete_all(namespace, deletion) {
            Ok(counted) => Ok(counted),
            Err(stopped) => {
                if stopped.done > 0 || deletion.only_first {
                    return Err(stopped);
                }
                Err(self.delete_some(namespace, deletion))
            }
        }
    }

    /// The same, with all changes prepared before the first document is removed.
    fn delete_all(&mut self, namespace: &str, deletion: &Deletion) -> Result<Counted, Stopped>
        requires { is_view namespace.now self.old.state.views ≡ false }
        ensures made { MakesCounted namespace.now (delete_chosen (deletion_seen deletion.now)) self.old result self.new }
        ensures views { self.new.state.views ≡ self.old.state.views }
        ensures marks { StandBehind namespace.now (delete_chosen (deletion_seen deletion.now)) self.old result self.new.marks }
    {
        let effect = match self.collections.get(namespace) {
            Some(collection) => deleted(self.alloc, collection, deletion)?,
            None => return Ok(NOTHING),
        };
        self.carry_out(namespace, effect)
    }

    /// Removes the first documents that a deletion of several documents selects, but never all of them: at most `FIRST_PART`, then
    /// half as many each time that memory runs out for so many. If there is memory for none, nothing is changed.
    fn delete_some(&mut self, namespace: &str, deletion: &Deletion) -> Stopped
        requires collection { is_view namespace.now self.old.state.views ≡ false }
        requires several { deletion.now.only_first ≡ false }
        ensures { Cuts namespace.now (delete_chosen (deletion_seen deletion.now)) self.old result self.new }
    {
        let mut most = FIRST_PART;
        'halves: while most > 1 {
            let stopped = self.delete_first(namespace, deletion, most);
            if stopped.done > 0 {
                return stopped;
            }
            most /= 2;
        }
        self.delete_first(namespace, deletion, 1)
    }

    /// Removes the first `most` documents that a deletion of several documents selects, but never all of them; fewer or none if
    /// memory runs out for so many.
    fn delete_first(&mut self, namespace: &str, deletion: &Deletion, most: usize) -> Stopped
        requires collection { is_view namespace.now self.old.state.views ≡ false }
        requires several { deletion.now.only_first ≡ false }
        ensures { Cuts namespace.now (delete_chosen (deletion_seen deletion.now)) self.old result self.new }
    {
        let Some(collection) = self.collections.get(namespace) else {
            return UNBEGUN;
        };
        let Ok(keys) = first_keys(self.alloc, collection, deletion, most) else {
            return UNBEGUN;
        };
        let Ok(done) = self.make(namespace, Changes::Gone(keys)) else {
            return UNBEGUN;
        };
        Stopped {
            refusal: Refusal::WantOfMemory,
            done,
        }
    }
}
