//! What holds of the events of commands. Each function's contract is a law, and its body is empty.
ghost use Rattle.std.specs.Prelude.{◌≡◌, ℕ, List, [], ◌∷◌, ◌++◌, Option, replicate};
ghost use Rattle.steps.specs.declared.event.Event.TheVariants as event;
ghost use Rattle.hart.specs.Opening.{opening};
ghost use Rattle.machine.specs.Run.{run_after};
ghost use Rattle.past.specs.declared.given.Given.{Given};
ghost use Rattle.past.specs.declared.given.Given.TheVariants.{Steps, Ticks, Byte};
ghost use Rattle.past.specs.Given.{CountsEvents, FirstAreFirst, PastState, count_of, events_of, first_of, past_events, position_at};
ghost use Rattle.past.specs.Given.{position_of, state_at};
ghost use Rattle.past.specs.Position.{Position, beginning, events_from, position_after};
ghost use Rattle.past.specs.Replay.{ReplayState};

/// The first events are those of the first commands, the last of them cut.
pub fn first_are_first()
    ensures { FirstAreFirst }
{}

/// There are as many events as are counted.
pub fn events_are_counted()
    ensures { CountsEvents }
{}

/// What one more command gives comes after all that was given before it, and the session's steps go on where they stand.
pub fn steps_are_appended()
    ensures steps { (given : List Given) (n : ℕ) (p : Position)
        → events_of (given ++ Steps n ∷ []) p ≡ events_of given p ++ events_from n (position_of given p) }
    ensures ticks { (given : List Given) (n : ℕ) (p : Position)
        → events_of (given ++ Ticks n ∷ []) p ≡ events_of given p ++ replicate n event.Tick }
    ensures byte { (given : List Given) (b : ℕ) (p : Position)
        → events_of (given ++ Byte b ∷ []) p ≡ events_of given p ++ event.Byte b ∷ [] }
    ensures all { (given more : List Given) (p : Position)
        → events_of (given ++ more) p ≡ events_of given p ++ events_of more (position_of given p) }
    ensures position { (given more : List Given) (p : Position)
        → position_of (given ++ more) p ≡ position_of more (position_of given p) }
    ensures after_steps { (given : List Given) (n : ℕ) (p : Position)
        → position_of (given ++ Steps n ∷ []) p ≡ position_after n (position_of given p) }
{}

/// After as many events as there are a session stands where all of them lead.
pub fn positions_are_after()
    ensures given { (given : List Given) → first_of (count_of given) given ≡ given }
    ensures position { (past : PastState) (replay : Option ReplayState)
        → position_at (count_of past.given) past replay ≡ position_of past.given (beginning replay) }
    ensures state { (past : PastState) (replay : Option ReplayState)
        → state_at (count_of past.given) past replay ≡ run_after (past_events past replay) (opening past.image) }
{}
