//! The sessions of a script, by their numbers in it.

ghost use Rattle.std.specs.Prelude.{◌≡◌, ◌<◌, None, replicate, slice_get, slice_set};

use dv_wire::SessionId;
use dv_words::line::NUMBERS;

/// How many places the table has: one for each number.
const PLACES: usize = NUMBERS as usize;

/// What is under a number of the script.
#[derive(Clone, Copy)]
pub(crate) struct Session {
    /// The session's number in the hub.
    pub(crate) id: SessionId,
    pub(crate) is_closed: bool,
}

/// The sessions that were opened and haven't ended, by their numbers in the script.
#[derive(Drop)]
pub(crate) struct Sessions {
    places: [Option<Session>; PLACES],
}

impl Sessions {
    pub(crate) fn new() -> Self
        ensures { result.places ≡ replicate 1000 None }
    {
        Sessions {
            places: [None; PLACES],
        }
    }

    /// The session under a number.
    pub(crate) fn get(&self, number: u32) -> Option<Session>
        requires { number < 1000 }
        ensures { slice_get self.now.places number ≡ Some result }
    {
        self.places[number as usize]
    }

    /// Puts a session, or none, under a number.
    pub(crate) fn set(&mut self, number: u32, session: Option<Session>)
        requires { number < 1000 }
        ensures { self.new.places ≡ slice_set self.old.places number session }
    {
        self.places[number as usize] = session;
    }
}
