//! What `why` and a line of a trace show is what the state has, before the step and after it: each function's contract is a law, and its
//! body is empty.
ghost use Rattle.text_laws.specs.After.{ShowsTheStateAfter, ShowsTheWord, CsrsKeepWhatIsShown, DevicesAreGivenWhatIsShown};
ghost use Rattle.explain.specs.Asked.{TrapsByItsStages};
ghost use Rattle.text_laws.specs.Says.{ConditionsSayWhatIsAsked};
ghost use Rattle.text_laws.specs.Shown.{RegistersAreShown, LinesSayWhatIsHeld, StagesShowWhatTheyAsk, TrapsByTheShown};

/// `why` shows the state: registers by their names, conditions as they are true of what those hold, and the one that traps as the last.
pub fn why_shows_the_state()
    ensures registers { RegistersAreShown }
    ensures conditions { ConditionsSayWhatIsAsked }
    ensures lines { LinesSayWhatIsHeld }
    ensures stages { StagesShowWhatTheyAsk }
    ensures traps { TrapsByTheShown }
{}

/// Unless an interrupt is taken, the next step is the trap by the first false condition of its stages, or what the instruction does.
pub fn step_traps_by_its_stages()
    ensures { TrapsByItsStages }
{}

/// What is shown of a step's effect, in a trace and by `why`, is what the state after it has.
pub fn effects_show_the_state_after()
    ensures text { ShowsTheStateAfter }
    ensures word { ShowsTheWord }
    ensures csrs { CsrsKeepWhatIsShown }
    ensures devices { DevicesAreGivenWhatIsShown }
{}
