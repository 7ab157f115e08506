//! What holds of every step of the machine.

ghost use Rattle.std.specs.Prelude.{◌≡◌, ◌≤◌, ◌↔◌, ◌⊎◌, Bool, ℕ, IsSome, List, ◌∷◌, None, Ok, Err, true, false, length};
ghost use Rattle.std.specs.Str.{bytes_eq};
ghost use Rattle.dv_value.specs.Spelling.{Fits};
ghost use Rattle.dv_value.specs.Tree.{Field};
ghost use Rattle.dv_command.specs.Asked.{Aggregate, Asked, Create, Drop, Find, GetMore, aggregate, create, drop, find, asked_by};
ghost use Rattle.dv_command.specs.Asked as asking;
ghost use Rattle.dv_command.specs.Replies.{refusal_reply};
ghost use Rattle.dv_pipe.specs.Laws.{AreSpellable};
ghost use Rattle.dv_command.specs.declared.asking.WriteKind.TheVariants.{Delete};
ghost use Rattle.dv_command.specs.declared.command.Command.{Command};
ghost use Rattle.dv_refusal.specs.declared.refusal.Refusal.{Refusal};
ghost use Rattle.dv_refusal.specs.declared.refusal.Refusal.TheVariants.{LimitReached, OnView, TooLarge};
ghost use Rattle.dv_core.specs.declared.outcome.Outcome.{Outcome};
ghost use Rattle.dv_core.specs.declared.outcome.Outcome.TheVariants.{Reply, Wanting};
ghost use Rattle.dv_core.specs.Inner.Examples as examples;
ghost use Rattle.dv_core.specs.Find.{FirstIsRefused, has_too_large};
ghost use Rattle.dv_core.specs.Load.{IsLoaded, insert_alone, loaded, namespace_in};
ghost use Rattle.dv_core.specs.Marks.{HasItsMarks};
ghost use Rattle.dv_core.specs.Part.{LeavesPart};
ghost use Rattle.dv_core.specs.Sound.{HasSpelling, IsOrderly, IsSound, IsSoundCommand, IsSoundDocument, IsBounded};
ghost use Rattle.dv_catalog.specs.State.{Namespaces, is_view, rows_of};
ghost use Rattle.dv_core.specs.State.{State, empty_store_state};
ghost use Rattle.dv_core.specs.Runs.{AsksMore, LeadsTo, Move, ShowsAggregated, ShowsFound, WantLeadsTo, carries, reply_told, state_of_run};
ghost use Rattle.dv_cursor.specs.Batch.{rows_behind};
ghost use Rattle.dv_cursor.specs.Cursors.{Cursors, free_id};
ghost use Rattle.dv_core.specs.Statements.{WriteSteps, Written, carry_out, IsCutWrite};
ghost use Rattle.dv_core.specs.Step.{MemoryStep, counted_step, step, asked_write, makes, moves, indexes, end_session};
ghost use Rattle.dv_core.specs.Steps.{AnswersInsert, ChangesNothing, CollectionRefuses, EachAnswer, EachStep, IsAllowed, IsRefused, Keeps, KeepsDocuments, SaysRefused};
ghost use Rattle.dv_core.specs.Storable.{storable, is_within_limits};

/// A command that is refused, with `ok: 0` in its reply, changed nothing, also if memory ran out; but stale views that are needed
/// for what it reads may have been recomputed.
pub fn a_refused_command_changes_nothing()
    ensures plain { (reply : List Field) → SaysRefused reply → ChangesNothing (Reply reply) }
    ensures wanting { (reply : List Field) → SaysRefused reply → ChangesNothing (Wanting reply) }
{}

/// Only insert, update, delete, create, drop, createIndexes and dropIndexes change collections, or which indexes and views there
/// are; no other command does, whatever its reply is. Only find, aggregate, getMore and killCursors change cursors. A command that
/// is refused when it is parsed changes nothing. Writes, createIndexes and dropIndexes leave the views unchanged. Create,
/// createIndexes and dropIndexes leave the documents of each namespace unchanged, and a drop leaves those of every other namespace
/// unchanged.
pub fn only_writes_change_documents()
    ensures others { (asked : Asked) → asked_write asked ≡ None → makes asked ≡ false → Keeps (Ok asked) (λ state. state.catalog) }
    ensures cursors { (asked : Asked) → moves asked ≡ false → Keeps (Ok asked) (λ state. state.cursors) }
    ensures refused { (refusal : Refusal) → Keeps (Err refusal) (λ state. state) }
    ensures views { (asked : Asked) → makes asked ≡ false → Keeps (Ok asked) (λ state. state.catalog.views) }
    ensures created { (asked : Create) (namespace : List ℕ) → KeepsDocuments (Ok (create asked)) namespace }
    ensures dropped { (asked : Drop) (namespace : List ℕ) → bytes_eq asked.namespace namespace ≡ false → KeepsDocuments (Ok (drop asked)) namespace }
    ensures indexed { (asked : Asked) → indexes asked ≡ true
        → Keeps (Ok asked) (λ state. state.catalog.views) × ((namespace : List ℕ) → KeepsDocuments (Ok asked) namespace) }
{}

/// The step in which memory never runs out, and live views count all of its work, is one of the steps that are allowed.
pub fn the_counted_step_is_allowed()
    ensures { (state : State) (session : ℕ) (command : Command) → IsAllowed state session command (counted_step state session command) }
{}

/// Each view has its mark, and there are no other marks. This holds before the first command, and after each command, each load and
/// each end of a session.
pub fn each_view_has_its_mark()
    ensures before { HasItsMarks empty_store_state }
    ensures after { (old new : State) (session : ℕ) (command : Command) (outcome : Outcome) → HasItsMarks old
        → MemoryStep old session command outcome new → HasItsMarks new }
    ensures loaded { (old new : State) (namespace : List ℕ) (d : List Field) → HasItsMarks old → IsLoaded namespace d old new → HasItsMarks new }
    ensures ended { (session : ℕ) (state : State) → HasItsMarks state → HasItsMarks (end_session session state) }
{}

/// A delete leaves some of the documents of each namespace, in their order, whatever its reply is.
pub fn a_delete_leaves_a_part()
    ensures { (asked : asking.Write) → asked.kind ≡ Delete → EachStep (Ok (asking.write asked)) LeavesPart }
{}

/// What holds in every store, whatever commands and loads bring: the documents of each namespace are in the order of their `_id`s,
/// no two of which are equal, whatever the width of their integers; each is within the limits for documents; and no key of a unique
/// index is in two of them. This holds before the first command, and after each command, each load and each end of a session.
pub fn states_stay_orderly()
    ensures before { IsOrderly empty_store_state }
    ensures after { (old new : State) (session : ℕ) (command : Command) (outcome : Outcome) → IsOrderly old
        → MemoryStep old session command outcome new → IsOrderly new }
    ensures loaded { (old new : State) (namespace : List ℕ) (d : List Field) → IsOrderly old → IsLoaded namespace d old new → IsOrderly new }
    ensures ended { (session : ℕ) (state : State) → IsOrderly state → IsOrderly (end_session session state) }
{
    dv_coll::laws::inserted_documents_ascend();
    dv_coll::laws::inserted_documents_begin_with_ids();
    dv_coll::laws::removed_documents_ascend();
    dv_coll::laws::removed_documents_begin_with_ids();
    dv_coll::laws::replaced_documents_ascend();
    dv_coll::laws::replaced_documents_begin_with_ids();
    dv_update::laws::the_id_stays();
    dv_update::laws::what_comes_out_fits();
    dv_index::laws::an_insert_without_a_clash_breaks_nothing();
    dv_index::laws::a_replacement_without_a_clash_breaks_nothing();
    dv_index::laws::a_removal_breaks_nothing();
    dv_index::laws::nothing_is_broken_by_no_document();
    dv_index::laws::fewer_indexes_break_no_more();
    dv_index::laws::indexes_break_one_by_one();
}

/// Every state that is reached is sound, if the documents of commands and loads are. In a sound state the documents of each
/// namespace are in the order of their `_id`s, valid and within the limits; the names of indexes are valid; no key of a unique
/// index is in two documents; the stages of views were parsed from valid values; and the rows that cursors have not returned yet
/// are valid and within the limits. This holds before the first command, and after each command, each load and each end of a
/// session.
pub fn states_stay_sound()
    ensures before { IsSound empty_store_state }
    ensures after { (old new : State) (session : ℕ) (command : Command) (outcome : Outcome) → IsSoundCommand command → IsSound old
        → MemoryStep old session command outcome new → IsSound new }
    ensures loaded { (old new : State) (namespace : List ℕ) (d : List Field) → IsSoundDocument d → IsSound old → loaded namespace d old ≡ Ok new → IsSound new }
    ensures ended { (session : ℕ) (state : State) → IsSound state → IsSound (end_session session state) }
{
    dv_coll::laws::inserted_documents_ascend();
    dv_coll::laws::inserted_documents_begin_with_ids();
    dv_coll::laws::removed_documents_ascend();
    dv_coll::laws::removed_documents_begin_with_ids();
    dv_coll::laws::replaced_documents_ascend();
    dv_coll::laws::replaced_documents_begin_with_ids();
    dv_update::laws::the_id_stays();
    dv_update::laws::what_comes_out_fits();
    dv_update::laws::what_comes_out_is_valid();
    dv_command::laws::what_is_asked_is_sound();
    dv_command::laws::the_update_of_an_entry_is_sound();
    dv_cursor::laws::a_batch_is_a_front();
    dv_cursor::laws::a_change_leaves_other_cursors();
    dv_index::laws::an_insert_without_a_clash_breaks_nothing();
    dv_index::laws::a_replacement_without_a_clash_breaks_nothing();
    dv_index::laws::a_removal_breaks_nothing();
    dv_index::laws::nothing_is_broken_by_no_document();
    dv_index::laws::fewer_indexes_break_no_more();
    dv_index::laws::indexes_break_one_by_one();
    dv_pipe::laws::what_comes_out_is_valid();
}

/// Replies can be encoded: the reply to a command that is not refused when it is parsed, if the command's documents and the state
/// are sound, since the rows under each namespace are valid then; the reply to a command that ran out of memory, also if it was cut
/// in one of its statements, if the command's documents are sound; and the reply to a refused one, if the place of a fault in bytes
/// is below 2^64.
pub fn replies_have_a_spelling()
    ensures answered { (state : State) (session : ℕ) (command : Command) (asked : Asked) → IsSoundCommand command → IsSound state
        → asked_by command ≡ Ok asked → HasSpelling (step state session command).reply }
    ensures wanting { (old new : State) (session : ℕ) (command : Command) (reply : List Field) → IsSoundCommand command
        → MemoryStep old session command (Wanting reply) new → HasSpelling reply }
    ensures rows { (state : State) → IsSound state → (namespace : List ℕ) → AreSpellable (rows_of namespace state.catalog) }
    ensures refused { (refusal : Refusal) → IsBounded refusal → HasSpelling (refusal_reply refusal) }
{
    dv_command::laws::what_is_asked_is_sound();
    dv_command::laws::a_count_has_a_spelling();
    dv_cursor::laws::a_batch_is_a_front();
    dv_cursor::laws::a_batch_is_full();
    dv_pipe::laws::what_comes_out_is_valid();
}

/// An ordered write reports at most one error; and if it is cut, only the error of the statement that ran out of memory.
pub fn an_ordered_write_ends_at_its_first_error()
    ensures whole { (write : WriteSteps) (old : Namespaces) → write.ordered ≡ true → length (carry_out write old).errors ≤ 1 }
    ensures cut { (write : WriteSteps) (old : Namespaces) (left : Written) → write.ordered ≡ true → IsCutWrite write old left → length left.errors ≡ 1 }
{}

/// What the replies of a run return of a cursor's rows, even if a reply is missing: the first batch and the batches of later
/// getMores, joined, are a prefix of the rows at the moment of the find or the aggregate, whatever other sessions do in between.
/// They are all of these rows once a reply says, by the id 0, that none is left, unless the first batch was to be the only one.
/// What counts here as the rows and the id of a getMore is what its reply has. What a command leads to, also if memory runs out, is
/// what an event of a run leads to, once the marks of the views are set.
pub fn a_cursors_batches_are_a_front()
    ensures find { (before : List Move) (asked : Find) → let state = state_of_run before in
        EachAnswer state (find asked) (ShowsFound asked state) }
    ensures pipeline { (before : List Move) (asked : Aggregate) → let state = state_of_run before in
        EachAnswer state (aggregate asked) (ShowsAggregated asked state) }
    ensures replies { (state : State) (session id : ℕ) (command : Command) (asked : GetMore) → AsksMore session id command asked state
        → (step state session command).reply ≡ reply_told session id command asked state }
    ensures moves { (old new : State) (session : ℕ) (command : Command) (outcome : Outcome) → MemoryStep old session command outcome new
        → LeadsTo (carries session command) old new ⊎ WantLeadsTo old new }
{
    dv_cursor::laws::a_batch_is_a_front();
    dv_cursor::laws::a_change_leaves_other_cursors();
}

/// The end of a session leaves all but its cursors.
pub fn the_end_of_a_session_leaves_documents()
    ensures { (session : ℕ) (state : State) → (end_session session state).catalog ≡ state.catalog }
{}

/// Loading a document is what an insert of only that document does, in whichever session: it leaves the same state. If the load is
/// refused because there is a view, so is the insert; if it is refused for another reason, the insert reports that error of its
/// statement. The text that names a namespace is the namespace.
pub fn a_load_is_an_insert_of_one_document()
    ensures stored { (state new : State) (asked : asking.Write) (d : List Field) → insert_alone asked.namespace d state ≡ Ok new
        → AnswersInsert state asked d (Ok new) }
    ensures refused { (state : State) (asked : asking.Write) (d : List Field) (refusal : Refusal)
        → CollectionRefuses refusal asked.namespace d state → AnswersInsert state asked d (Err refusal) }
    ensures on_view { (state : State) (asked : asking.Write) (d : List Field) → is_view asked.namespace state.catalog.views ≡ true
        → (insert_alone asked.namespace d state ≡ Err OnView) × IsRefused state (asking.write asked) OnView }
    ensures named { (text namespace : List ℕ) → namespace_in text ≡ Ok namespace → namespace ≡ text }
{}

/// What is stored is within the limits: 16,777,216 bytes and 100 levels.
pub fn stored_documents_fit()
    ensures { (d stored : List Field) → storable d ≡ Ok stored → Fits stored }
{}

/// The limits for what is stored are those for what is read.
pub fn limits_are_those_of_reading()
    ensures { (d : List Field) → (is_within_limits d ≡ true) ↔ Fits d }
{}

/// What inserts answer and leave, by worked examples.
pub fn inserts_by_example()
    ensures { examples.InsertExamples }
{}

/// What loads leave, and why they are refused, by worked examples.
pub fn loads_by_example()
    ensures { examples.LoadExamples }
{}

/// What deletes answer and leave, by worked examples.
pub fn deletes_by_example()
    ensures { examples.DeleteExamples }
{}

/// What finds answer, by worked examples.
pub fn finds_by_example()
    ensures { examples.FindExamples }
{}

/// The replies of creates, drops, finds and aggregates with views, by worked examples.
pub fn views_by_example()
    ensures { examples.ViewExamples }
{}

/// The states of views after commands, and what is reported of them, by worked examples.
pub fn marks_by_example()
    ensures { examples.MarkExamples }
{}

/// What a greeting, a ping and a find of all documents answer, by worked examples.
pub fn reads_by_example()
    ensures { examples.ReadExamples }
{}

/// What is refused, and with which code, by worked examples.
pub fn refusals_by_example()
    ensures { examples.RefusalExamples }
{}

/// What is reported when memory runs out, by worked examples.
pub fn wants_by_example()
    ensures { examples.WantExamples }
{}

/// If a row is over the limits, the command is refused, wherever the row is, also after the first batch. If there is no room for
/// the cursor that the command needs, that is reported first.
pub fn each_row_is_within_the_limits()
    ensures refused { (count : ℕ) (single : Bool) (rows : List (List Field)) (cursors : Cursors) → has_too_large rows ≡ true → IsSome (free_id cursors)
        → FirstIsRefused TooLarge count single rows cursors }
    ensures behind { (count : ℕ) (row : List Field) (rows rest : List (List Field)) (cursors : Cursors) → rows_behind count rows ≡ row ∷ rest
        → free_id cursors ≡ None → FirstIsRefused LimitReached count false rows cursors }
{}
