//! Sessions on a schedule: their steps are those of the run on it.
ghost use Rattle.std.specs.Prelude.{◌≡◌, ℕ, ◌+◌, false, true, All, List, Some};
ghost use Rattle.debug_commands.specs.declared.command.Command.TheVariants.{Gives};
ghost use Rattle.debug_commands.specs.declared.command.Events.{Events};
ghost use Rattle.hart.specs.Opening.{opening};
ghost use Rattle.image.specs.Image.{Image};
ghost use Rattle.steps.specs.State.{State};
ghost use Rattle.machine.specs.Run.{run_after};
ghost use Rattle.schedules.specs.declared.schedule.Schedule.{Schedule};
ghost use Rattle.schedules.specs.Schedule.{first_steps, is_halted, steps_in, up_to_halt};
ghost use Rattle.symbols.specs.Symbols.{Symbol};
ghost use Rattle.debugger.specs.OnSchedule.{IsOnSchedule, are_whole_steps, session_after_all, steps_of_all};
ghost use Rattle.debugger.specs.Reply.{given_in, session_after};
ghost use Rattle.debugger.specs.SessionState.{SessionState, session_of_image};

/// After commands `step`, `until`, `trap` and `go` that gave so many steps the machine of a session is where as many steps of the run on
/// its schedule lead, with the bytes before them and the ticks after them; and where a stop was found after the byte before the next step,
/// that byte came too. So it is from the opening state of an image on, where a session with a past begins.
pub fn steps_are_those_of_the_run()
    ensures begins { (image : Image) (symbols : List Symbol) (schedule : Schedule) (input : List ℕ)
        → IsOnSchedule (opening image) schedule input 0 (session_of_image image symbols (Some schedule) input) }
    ensures one { (start : State) (schedule : Schedule) (input : List ℕ) (done : ℕ) (events : Events) (s : SessionState)
        → is_halted start ≡ false → are_whole_steps events ≡ true → IsOnSchedule start schedule input done s
        → IsOnSchedule start schedule input (done + steps_in (given_in events s)) (session_after (Gives events) s) }
    ensures all { (image : Image) (symbols : List Symbol) (schedule : Schedule) (input : List ℕ) (commands : List Events)
        → All (λ events. are_whole_steps events ≡ true) commands
        → IsOnSchedule (opening image) schedule input (steps_of_all commands (session_of_image image symbols (Some schedule) input))
        (session_after_all commands (session_of_image image symbols (Some schedule) input)) }
    // Where no stop was found after a byte, that is the run of those steps.
    ensures run { (start : State) (schedule : Schedule) (input : List ℕ) (done : ℕ) (s : SessionState)
        → (on : IsOnSchedule start schedule input done s) → on.replay.brought ≡ false
        → s.machine ≡ run_after (up_to_halt (first_steps schedule input done) start) start }
{}
