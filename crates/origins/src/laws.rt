//! What holds of searches. Each function's contract is a law, and its body is empty.

ghost use Rattle.std.specs.Prelude.{◌≡◌, ℕ, List, Some, None};
ghost use Rattle.cap_bounds.specs.CapValue.{CapValue, is_tagged};
ghost use Rattle.steps.specs.Event.{after};
ghost use Rattle.steps.specs.State.{State};
ghost use Rattle.steps.specs.declared.event.Event.{Event};
ghost use Rattle.origins.specs.declared.place.Place.{Place};
ghost use Rattle.steps.specs.IsState.{IsState};
ghost use Rattle.machine.specs.Run.{run_after};
ghost use Rattle.machine.specs.Stretch.{AreEvents};
ghost use Rattle.origins.specs.Kept.{AreThere, HoldsTheSame};
ghost use Rattle.origins.specs.Made.{made_at};
ghost use Rattle.origins.specs.Making.{IsMade, IsWithinSource, source};
ghost use Rattle.origins.specs.Places.{IsThere, held};
ghost use Rattle.origins.specs.Search.{IsLast, NoneDoes, last};
ghost use Rattle.origins.specs.Tags.{all_hold, tag_asked};
ghost use Rattle.origins.specs.declared.making.Making.{Making};
ghost use Rattle.origins.specs.declared.search.Found.{Found};
ghost use Rattle.origins.specs.declared.search.Sought.{Sought};

/// What a search over a history finds is the last event that does what is sought; where it finds none, none does.
pub fn the_last_is_found()
    ensures found { (sought : Sought) (place : Place) (events : List Event) (s : State) (found : Found)
        → last sought place events s ≡ Some found → IsLast sought place events s found }
    ensures none { (sought : Sought) (place : Place) (events : List Event) (s : State)
        → last sought place events s ≡ None → NoneDoes sought place events s }
{}

/// What is made of a value is within its rights; where its seal may be opened, within those that it has unsealed.
pub fn values_are_within_their_sources()
    ensures { (s : State) (making : Making) (v : CapValue) → IsState s → AreThere making s → IsMade making s v
        → IsWithinSource making (source making) s v }
{}

/// What is made in a way is tagged exactly where all conditions of that way hold.
pub fn tags_stand_by_their_conditions()
    ensures { (making : Making) (s : State) (v : CapValue) → IsMade making s v → is_tagged v ≡ all_hold (tag_asked making s) }
{}

/// An event writes a place in the way that is said of it, or leaves what the place holds; what it is made of is there before the event.
pub fn steps_write_what_is_made()
    ensures made { (place : Place) (event : Event) (s : State) (making : Making) → IsState s → IsThere place s
        → made_at place event s ≡ Some making → IsMade making s (held place (after event s)) }
    ensures kept { (place : Place) (event : Event) (s : State) → IsState s → IsThere place s
        → made_at place event s ≡ None → HoldsTheSame place s (after event s) }
    ensures there { (place : Place) (event : Event) (s : State) → IsState s → IsThere place s → IsThere place (after event s) }
    ensures sources { (place : Place) (event : Event) (s : State) (making : Making) → IsState s
        → made_at place event s ≡ Some making → AreThere making s }
{}

/// A place that no event of a run writes holds at its end what it held; of PCC the address may be another.
pub fn nothing_between_writes_it()
    ensures { (events : List Event) (place : Place) (s : State) → IsState s → AreEvents events → IsThere place s
        → NoneDoes Sought.Written place events s → HoldsTheSame place s (run_after events s) }
{}
