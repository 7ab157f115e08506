//! Laws of what commands ask for and of replies, each the contract of a function that does nothing.

ghost use Rattle.std.specs.Prelude.{◌≡◌, ℕ, List, Ok, length};
ghost use Rattle.dv_value.specs.Spelling.{AreFields, IsValue, spelling};
ghost use Rattle.dv_value.specs.Tree.{Field, fields_of};
ghost use Rattle.dv_command.specs.declared.command.Command.{Command};
ghost use Rattle.dv_command.specs.Asked.{Asked, asked_by, asked_under, command_name};
ghost use Rattle.dv_command.specs.Lists.{CommandLists};
ghost use Rattle.dv_command.specs.Replies.{count};
ghost use Rattle.dv_command.specs.Entries.{Updating, updating_of};
ghost use Rattle.dv_command.specs.Inner.Needed.{needed};
ghost use Rattle.dv_command.specs.Inner.Sound.{AreValidLists, IsSoundRequest, IsSoundUpdate};

/// What a command asks for is sound if the fields of its body and the lists next to it are valid: the documents in its list and
/// their number, the names of its collections and of its indexes, its pipeline, and the ids of its cursors, of which there are no
/// more than the body has bytes.
pub fn what_is_asked_is_sound()
    ensures { (body : List Field) (lists : CommandLists) (asked : Asked) → AreFields (fields_of body) → AreValidLists lists
        → asked_under (command_name body) body lists ≡ Ok asked → IsSoundRequest (length (spelling body)) asked }
{
    dv_value::laws::what_a_field_adds();
}

/// The update that an entry asks for is that of a document with valid fields, if the entry's fields are valid.
pub fn the_update_of_an_entry_is_sound()
    ensures { (entry : List Field) (asked : Updating) → AreFields (fields_of entry) → updating_of entry ≡ Ok asked → IsSoundUpdate asked.update }
{}

/// Every number that a reply counts has an encoding.
pub fn a_count_has_a_spelling()
    ensures { (n : ℕ) → IsValue (count n) }
{}

/// A command asks for the same, or has the same refusal, with no more of its lists than it needs.
pub fn a_command_needs_no_more()
    ensures { (command : Command) → asked_by (needed command) ≡ asked_by command }
{}
