//! What holds of streams and of sessions, however their bytes come.

ghost use Rattle.std.specs.Prelude.{◌≡◌, ◌≢◌, ◌↔◌, ℕ, suc, true, List, [], ◌++◌, Result, Ok, Err, length};
ghost use Rattle.dv_value.specs.Spelling.{IsBytes};
ghost use Rattle.dv_core.specs.Sound.{IsSound};
ghost use Rattle.dv_core.specs.State.{State};
ghost use Rattle.dv_wire.specs.Inner.Examples as examples;
ghost use Rattle.dv_host.specs.Schedule.{Step};
ghost use Rattle.dv_wire.specs.Hosted.{AreSchedule, PlaysSteps};
ghost use Rattle.dv_wire.specs.Sound.{IsNumbered, IsSoundWorld};
ghost use Rattle.dv_message.specs.declared.fault.CloseFault.{CloseFault};
ghost use Rattle.dv_wire.specs.declared.fault.HubFault.{HubFault};
ghost use Rattle.dv_wire.specs.declared.hub.Fed.{Fed};
ghost use Rattle.dv_wire.specs.declared.hub.Fed.TheVariants as fed;
ghost use Rattle.dv_wire.specs.declared.hub.SessionId.{SessionId};
ghost use Rattle.dv_wire.specs.declared.events.Event.{Event};
ghost use Rattle.dv_wire.specs.declared.events.Said.{Said};
ghost use Rattle.dv_message.specs.Message as wire;
ghost use Rattle.dv_wire.specs.Order.{ComeToSame, IsInOrder, IsPlain, answers, order_of, plain_play, replies_behind, state_in_order};
ghost use Rattle.dv_wire.specs.Playing.{ComesInTwo, ComesWhole, CutPiece, Plays, PlaysBy, PlaysInTurn, events_of_session, said_of_session};
ghost use Rattle.dv_wire.specs.Schedule.{EachPiece, Feeds, FeedsAll, FeedsRun, GoesOn, HasSameConversation, IsClosed, IsReading, IsUnknown, Opens, Run, SaysOnly, World, done_unanswered, end, plain_bytes, stream_of, world_of};
ghost use Rattle.dv_wire.specs.Service.{IsSession};
ghost use Rattle.dv_wire.specs.Standing.{AreAllLive, IsInOrderButMarks, IsPlainButMarks, LiveStep, NoneAsksStats};
ghost use Rattle.dv_wire.specs.Wants.{NoneSaysWant};

pub use dv_message::laws::{
    bytes_bring_bytes, headers_by_example, messages_are_no_more_than_bytes, messages_are_spelled,
    sections_by_example, splitting_goes_on, streams_split_by_their_fronts,
};

/// It doesn't matter how a session's bytes are cut: whatever the pieces are, and however many, they may do together what
/// all their bytes as one piece may do, and nothing else.
pub fn cuts_do_not_matter()
    ensures { (old new : World) (session : ℕ) (piece : List ℕ) (pieces : List (List ℕ)) (bytes : List ℕ) (answer : Fed)
        → Feeds old session (stream_of piece pieces) bytes answer new ↔ FeedsAll old session piece pieces bytes answer new }
{
    splitting_goes_on();
}

/// Wherever in a schedule a piece of a session's bytes is cut in two, the same may be answered, event by event, and the same world
/// left: the whole piece may answer what its two parts may answer one after the other, and what is said of the second part may be
/// said of the whole.
pub fn a_piece_may_come_in_two()
    ensures { (old new : World) (cut : CutPiece) → length cut.before ≡ length cut.answers → ComesWhole old cut new ↔ ComesInTwo old cut new }
{
    splitting_goes_on();
}

/// A schedule in two parts is a schedule: what may be said of the first, and after it of the second, is what may be said of both as
/// one, and nothing else. So the calls that a program makes one after the other are one play of all their events.
pub fn schedules_may_be_joined()
    ensures { (old new : World) (first second : List Event) (all : List Said)
        → Plays old (first ++ second) all new ↔ PlaysInTurn old first second all new }
{}

/// What is done to a hub's sessions for many connections at once, step by step, is a schedule of events, with the same replies to
/// each session. So what holds of schedules holds of these steps.
pub fn steps_are_a_schedule()
    ensures { (old new : World) (steps : List Step) → PlaysSteps old steps new → AreSchedule old steps new }
{}

/// A whole session is a schedule: it is opened, its bytes come, and it ends. What is reported of its bytes and of its end is what
/// its messages lead to.
pub fn a_whole_session_is_a_schedule()
    ensures { (old new : World) (bytes : List ℕ) (run : Run) → IsNumbered old → (whole : IsSession old bytes run new)
        → Plays old (events_of_session whole.session bytes) (said_of_session whole.session run) new }
{}

/// If memory never runs out, only the order counts in which sessions are opened and end and their messages become whole: the state
/// that a schedule leaves, and its replies to each session, are those of a machine that takes one message after the other in that
/// order, and ends the cursors of each session that ends. So two schedules with the same order give the same replies to each
/// session and leave the same state, however their bytes are cut and interleaved. Such a run is one of those that are allowed.
pub fn only_the_order_counts()
    ensures state { (world : World) (all : List Event) → (plain_play world all).world.state ≡ state_in_order world all }
    ensures answers { (session : ℕ) (world : World) (all : List Event)
        → answers session all (plain_play world all).said ≡ replies_behind session world.state (order_of world all) }
    ensures equal { (world : World) (one two : List Event) → order_of world one ≡ order_of world two → ComeToSame world one two }
    ensures allowed { (world : World) (all : List Event) → Plays world all (plain_play world all).said (plain_play world all).world }
{
    dv_core::laws::the_counted_step_is_allowed();
}

/// A play in which memory never runs out, not even for a view, is the plain one. If nothing that is reported says that memory ran
/// out (no session is refused or closed for it, and no reply reports it), and each step leaves all views live, then exactly what
/// the plain run reports is reported, and the world that is left is the plain run's. So the state, and the replies to each session,
/// are those of the machine that takes one message after the other. The plain run itself is such a play, if views are live before
/// it.
pub fn a_play_without_want_of_memory_is_the_plain_one()
    ensures plain { (old new : World) (all : List Event) (told : List Said) → PlaysBy LiveStep old all told new → NoneSaysWant told
        → IsPlain old all told new }
    ensures order { (old new : World) (all : List Event) (told : List Said) → PlaysBy LiveStep old all told new → NoneSaysWant told
        → IsInOrder old all told new.state }
    ensures such { (world : World) (all : List Event) → AreAllLive world.state.marks
        → PlaysBy LiveStep world all (plain_play world all).said (plain_play world all).world }
{
    dv_core::laws::the_counted_step_is_allowed();
}

/// The states of views matter only to viewStats. A view for which memory ran out becomes stale without a reply that reports it. But
/// if nothing that is reported says that memory ran out, and no message asks viewStats, then exactly what the plain run reports is
/// reported, and the world that is left is the plain run's, except that views may be in other states.
pub fn how_views_stand_matters_to_view_stats_alone()
    ensures plain { (old new : World) (all : List Event) (told : List Said) → Plays old all told new → NoneSaysWant told → NoneAsksStats old all
        → IsPlainButMarks old all told new }
    ensures order { (old new : World) (all : List Event) (told : List Said) → Plays old all told new → NoneSaysWant told → NoneAsksStats old all
        → IsInOrderButMarks old all told new.state }
{}

/// The plain run is allowed: whatever the pieces are, an open session may get the replies of the steps of its messages, one after
/// the other, without those that moreToCome leaves out, and it may then be in the state that its stream leads to.
pub fn the_plain_run_is_allowed()
    ensures { (world : World) (session : ℕ) (kept piece : List ℕ) (pieces : List (List ℕ)) → IsReading session kept world
        → FeedsRun world session piece pieces (plain_bytes session world.state (kept ++ stream_of piece pieces)) }
{
    splitting_goes_on();
    dv_core::laws::the_counted_step_is_allowed();
}

/// What moreToCome leaves unanswered was done: if a session goes on after such a message, the message was carried out by its step,
/// and nothing is answered. The states of views after it are left open here, as memory may have run out for one.
pub fn what_is_untold_is_done()
    ensures { (session : ℕ) (old : State) (message : wire.Message) (kept : List ℕ) (run : Run) → message.more_to_come ≡ true
        → GoesOn session old message kept run → run ≡ done_unanswered session old message kept run.state.marks }
{}

/// No number is used again: sessions ascend by their numbers, which are below the next one. This holds before the first session is
/// opened, and after each event. The next number grows by 1 if a session is opened, and otherwise stays.
pub fn numbers_are_never_used_again()
    ensures before { (state : State) → IsNumbered (world_of state) }
    ensures opened { (old new : World) (session : SessionId) → IsNumbered old → Opens old (Ok session) new
        → IsNumbered new × (session.number ≡ old.next) × (new.next ≡ suc old.next) }
    ensures refused { (old new : World) (fault : HubFault) → Opens old (Err fault) new → new ≡ old }
    ensures fed { (old : World) (session : ℕ) → IsNumbered old → EachPiece old session (λ bytes answer new. IsNumbered new × (new.next ≡ old.next)) }
    ensures ended { (old : World) (session : ℕ) → IsNumbered old → IsNumbered (end session old) × ((end session old).next ≡ old.next) }
{}

/// A session exists from when it is opened, without any bytes, until it ends.
pub fn sessions_come_and_go()
    ensures opened { (old new : World) (session : SessionId) → IsNumbered old → Opens old (Ok session) new
        → IsUnknown session.number old × IsReading session.number [] new }
    ensures ended { (old : World) (session : ℕ) → IsNumbered old → IsUnknown session (end session old) }
{}

/// What happens to a session leaves the others unchanged.
pub fn sessions_keep_to_themselves()
    ensures opened { (old new : World) (session : SessionId) (other : ℕ) → Opens old (Ok session) new → session.number ≢ other
        → HasSameConversation other old new }
    ensures fed { (old : World) (session other : ℕ) → session ≢ other → EachPiece old session (λ bytes answer new. HasSameConversation other old new) }
    ensures ended { (old : World) (session other : ℕ) → session ≢ other → HasSameConversation other old (end session old) }
{}

/// Documents change only when an open session takes its bytes. They don't change when a session is opened or ends, which changes
/// nothing except its cursors; nor when bytes come for a session that is closed, which stays closed by the same fault, or that
/// doesn't exist.
pub fn only_open_sessions_change_documents()
    ensures opened { (old new : World) (result : Result SessionId HubFault) → Opens old result new → new.state ≡ old.state }
    ensures ended { (old : World) (session : ℕ) → (end session old).state.catalog ≡ old.state.catalog }
    ensures closed { (old : World) (session : ℕ) (fault : CloseFault) → IsClosed session fault old → EachPiece old session (λ bytes answer new.
        SaysOnly (fed.Closed fault) bytes answer × (new.state ≡ old.state) × IsClosed session fault new) }
    ensures unknown { (old : World) (session : ℕ) → IsUnknown session old
        → EachPiece old session (λ bytes answer new. SaysOnly fed.Unknown bytes answer × (new ≡ old)) }
{}

/// Worlds stay sound. They are sound before the first session is opened, if the store is sound, and after each event, since what is
/// read from bytes is sound.
pub fn worlds_stay_sound()
    ensures before { (state : State) → IsSound state → IsSoundWorld (world_of state) }
    ensures opened { (old new : World) (session : SessionId) → IsSoundWorld old → Opens old (Ok session) new → IsSoundWorld new }
    ensures fed { (old new : World) (session : ℕ) (piece bytes : List ℕ) (answer : Fed) → IsSoundWorld old → IsBytes piece
        → Feeds old session piece bytes answer new → IsSoundWorld new }
    ensures ended { (old : World) (session : ℕ) → IsSoundWorld old → IsSoundWorld (end session old) }
{
    bytes_bring_bytes();
    dv_bson::laws::what_is_read_is_spelled();
    dv_core::laws::states_stay_sound();
}

/// How sessions are opened and end, and what is answered to a message, by worked examples.
pub fn sessions_by_example()
    ensures { examples.SessionExamples }
{}

/// What is sent if memory runs out, by worked examples.
pub fn want_of_memory_by_example()
    ensures { examples.WantOverBytes }
{}
