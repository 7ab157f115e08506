//! What holds of scripts.

ghost use Rattle.std.specs.Prelude.{ℕ, List};
ghost use Rattle.std.specs.List.{slice_split};
ghost use Rattle.dv_scripts.specs.Events.{ArePlayed, IsPlayed};
ghost use Rattle.dv_scripts.specs.Script.{DoesOneLine, Runs, OpenSessions, is_lf};
ghost use Rattle.dv_words.specs.declared.said.Line.{Line};

/// A script is a schedule: a line is a play of its events, and it writes what these answer. So what a script does to its hub is one
/// play of the events of its lines, joined in the lines' order, and its text is what they write.
pub fn a_script_is_a_schedule()
    ensures line { (old new : OpenSessions) (line : Line) (text : List ℕ) → DoesOneLine old line text new → IsPlayed old line text new }
    ensures script { (old new : OpenSessions) (script text : List ℕ) → (runs : Runs old script text new)
        → ArePlayed old new (slice_split is_lf script) text runs }
{
    dv_wire::laws::schedules_may_be_joined();
}
