//! Laws of how connections end, and of schedules. Each is the contract of a function that does nothing.

ghost use Rattle.std.specs.Prelude.{◌≡◌, ℕ, ◌∷◌, [], List, None, Option, Some};
ghost use Rattle.dv_host.specs.Channel.{Takes};
ghost use Rattle.dv_host.specs.Host.{Settles, fate_of, refused};
ghost use Rattle.dv_host.specs.Inner.Examples.{link_with, two_sessions};
ghost use Rattle.dv_host.specs.Schedule.{answers, closing, heard, may_wait, open_behind};
ghost use Rattle.dv_host.specs.declared.channel.Taken.TheVariants.{Later};
ghost use Rattle.dv_host.specs.declared.link.Fate.TheVariants as fates;

/// A connection has not ended while bytes of it are left, while replies are unsent, or after a fault closed its session. After a
/// fault it is closed by that fault and by no other, and without a fault by none. A connection that was refused a session failed.
#[tactic(auto, using(crate::proofs::Fates::not_read, crate::proofs::Fates::not_taken, crate::proofs::Fates::not_told, crate::proofs::Fates::other_fault, crate::proofs::Fates::no_fault))]
pub fn endings_by_example()
    ensures not_read { Settles fates.Ended (link_with (1 ∷ []) [] None) → ⊥ }
    ensures not_taken { Settles fates.Ended (link_with [] (8 ∷ []) None) → ⊥ }
    ensures not_told { Settles fates.Ended (link_with [] [] (Some 6)) → ⊥ }
    ensures other_fault { Settles (fates.Closed 5) (link_with [] [] (Some 6)) → ⊥ }
    ensures no_fault { Settles (fates.Closed 6) (link_with [] [] None) → ⊥ }
    ensures refused { (left taken : Option (List ℕ)) → fate_of (refused left taken) ≡ fates.Failed }
{}

/// A connection that has no bytes yet may still have some left.
pub fn a_pause_is_no_end()
    ensures { (piece : List ℕ) → Takes Later (Some (1 ∷ [])) (Some (1 ∷ [])) piece }
{}

/// Each session has its own pieces, replies and fault. After a piece without replies, at most 65,536 bytes may be unsent.
pub fn schedules_by_example()
    ensures heard { heard 3 two_sessions ≡ 1 ∷ 2 ∷ 3 ∷ [] }
    ensures answered { answers 4 two_sessions ≡ 7 ∷ 7 ∷ 7 ∷ [] }
    ensures closed { closing 4 None two_sessions ≡ Some 2 }
    ensures still_open { closing 3 None two_sessions ≡ None }
    ensures waits { may_wait 3 0 two_sessions ≡ 65536 }
    ensures waits_longer { may_wait 4 0 two_sessions ≡ 65539 }
    ensures both_open { open_behind 0 two_sessions ≡ 2 }
{}
