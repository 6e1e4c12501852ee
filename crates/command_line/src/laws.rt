//! What holds of the table of commands: each function's contract is a law, and its body is empty. The definitions take the table from the
//! code, and a table that says something else is refused here.

ghost use Rattle.std.specs.Prelude.{◌≡◌, ◌∷◌, [], codes, Some, None};
ghost use Rattle.command_line.specs.CommandLine.{argument, commands, entry, run_limits, run_lines};
ghost use Rattle.command_line.specs.declared.table.Stands.TheVariants.{Operand, Optional, Named, Required, Flag, FlagOrAll};
ghost use Rattle.command_line.specs.declared.table.Takes.TheVariants.{Nothing, Ends, Read, ReadBeside, Written, Count, Start, Number};

/// The commands with their arguments: of each its id, how it stands, what it takes and its default value.
#[tactic(auto, unfolding(crate::specs::CommandLine::commands))]
pub fn commands_and_arguments()
    ensures { commands ≡ (entry (codes "asm") (argument (codes "IN") Operand Read None
        ∷ argument (codes "OUT") Operand Written None ∷ argument (codes "symbols") Named Written None
        ∷ argument (codes "lines") Named Written None
        ∷ argument (codes "quiet") Flag Nothing None ∷ []))
        ∷ (entry (codes "image") (argument (codes "FLAT") Operand Read None
        ∷ argument (codes "OUT") Operand Written None ∷ argument (codes "at") Named Number None
        ∷ argument (codes "entry") Named Number None ∷ argument (codes "pages") Named Number None
        ∷ argument (codes "mode") Named Number None ∷ argument (codes "flat-elf") Flag Nothing None
        ∷ argument (codes "quiet") Flag Nothing None ∷ []))
        ∷ (entry (codes "go") (argument (codes "FILE") Operand Read None
        ∷ argument (codes "steps") Named (Count 1 10000000000) (Some (codes "10000000000"))
        ∷ argument (codes "times") Named (Count 1 10000) (Some (codes "1"))
        ∷ argument (codes "input") Named Read None
        ∷ argument (codes "gap") Named (Count 1 1000000) (Some (codes "1000"))
        ∷ argument (codes "tick") Named (Count 0 1000000) (Some (codes "100"))
        ∷ argument (codes "quiet") Flag Nothing None ∷ argument (codes "why") FlagOrAll Ends None
        ∷ argument (codes "profile") Named Written None ∷ argument (codes "calls") Named Written None
        ∷ argument (codes "json") Flag Nothing None ∷ argument (codes "trace") Named Written None
        ∷ argument (codes "trace-from") Named (Start 1 100000000000000) None
        ∷ argument (codes "trace-last") Named (Count 1 1000000) None ∷ argument (codes "policy") Named Read None
        ∷ argument (codes "symbols") Named Read None ∷ argument (codes "lines") Named Read None ∷ []))
        ∷ (entry (codes "run") (argument (codes "IMAGE") Operand Read None
        ∷ argument (codes "STEPS") Operand (Count 1 100000000) None
        ∷ argument (codes "times") Named (Count 1 1000000) (Some (codes "1"))
        ∷ argument (codes "input") Named Read None
        ∷ argument (codes "gap") Named (Count 1 1000000) (Some (codes "1000"))
        ∷ argument (codes "tick") Named (Count 0 1000000) (Some (codes "100"))
        ∷ argument (codes "quiet") Flag Nothing None ∷ argument (codes "why") FlagOrAll Ends None
        ∷ argument (codes "profile") Named Written None ∷ argument (codes "calls") Named Written None
        ∷ argument (codes "json") Flag Nothing None ∷ argument (codes "trace") Named Written None
        ∷ argument (codes "trace-from") Named (Start 1 100000000000000) None
        ∷ argument (codes "trace-last") Named (Count 1 1000000) None ∷ argument (codes "policy") Named Read None
        ∷ argument (codes "symbols") Named Read None ∷ argument (codes "lines") Named Read None ∷ []))
        ∷ (entry (codes "audit") (argument (codes "IMAGE") Operand Read None
        ∷ argument (codes "STEPS") Operand (Count 1 100000000) None
        ∷ argument (codes "times") Named (Count 1 1000000) (Some (codes "1"))
        ∷ argument (codes "input") Named Read None
        ∷ argument (codes "gap") Named (Count 1 1000000) (Some (codes "1000"))
        ∷ argument (codes "tick") Named (Count 0 1000000) (Some (codes "100"))
        ∷ argument (codes "quiet") Flag Nothing None ∷ argument (codes "json") Flag Nothing None
        ∷ argument (codes "trace") Named Written None
        ∷ argument (codes "trace-from") Named (Start 1 100000000000000) None
        ∷ argument (codes "trace-last") Named (Count 1 1000000) None ∷ argument (codes "policy") Named Read None
        ∷ argument (codes "symbols") Named Read None ∷ argument (codes "lines") Named Read None ∷ []))
        ∷ (entry (codes "prove") (argument (codes "IMAGE") Operand Read None
        ∷ argument (codes "policy") Required Read None ∷ argument (codes "symbols") Named Read None
        ∷ argument (codes "lines") Named Read None
        ∷ argument (codes "steps") Named (Count 1 1000000000) (Some (codes "1000000"))
        ∷ argument (codes "quiet") Flag Nothing None ∷ []))
        ∷ (entry (codes "dis") (argument (codes "IMAGE") Operand Read None
        ∷ argument (codes "symbols") Named Read None ∷ argument (codes "header") Flag Nothing None
        ∷ argument (codes "quiet") Flag Nothing None ∷ []))
        ∷ (entry (codes "debug") (argument (codes "IMAGE") Operand ReadBeside None
        ∷ argument (codes "symbols") Named ReadBeside None ∷ argument (codes "lines") Named ReadBeside None
        ∷ argument (codes "input") Named ReadBeside None
        ∷ argument (codes "gap") Named (Count 1 1000000) None
        ∷ argument (codes "tick") Named (Count 0 1000000) None ∷ argument (codes "quiet") Flag Nothing None ∷ []))
        ∷ (entry (codes "bounds") (argument (codes "BASE") Operand Number None
        ∷ argument (codes "LENGTH") Optional Number None ∷ argument (codes "address") Named Number None
        ∷ argument (codes "json") Flag Nothing None ∷ []))
        ∷ (entry (codes "word") (argument (codes "HIGH") Operand Number None
        ∷ argument (codes "LOW") Operand Number None ∷ argument (codes "memory") Flag Nothing None
        ∷ argument (codes "json") Flag Nothing None ∷ []))
        ∷ [] }
{}

/// How far the numbers of a run go.
pub fn limits_of_a_run()
    ensures { run_limits ≡ (codes "STEPS", (1, 100000000)) ∷ (codes "times", (1, 1000000))
        ∷ (codes "steps", (1, 10000000000)) ∷ (codes "times", (1, 10000)) ∷ (codes "gap", (1, 1000000))
        ∷ (codes "tick", (0, 1000000)) ∷ [] }
{}

/// The arguments that `go`, `run` and `audit` share, as the table has them.
#[tactic(auto, unfolding(crate::specs::CommandLine::run_lines))]
pub fn arguments_of_a_run()
    ensures { run_lines ≡ (argument (codes "input") Named Read None)
        ∷ argument (codes "gap") Named (Count 1 1000000) (Some (codes "1000"))
        ∷ argument (codes "tick") Named (Count 0 1000000) (Some (codes "100"))
        ∷ argument (codes "quiet") Flag Nothing None ∷ argument (codes "trace") Named Written None
        ∷ argument (codes "trace-from") Named (Start 1 100000000000000) None
        ∷ argument (codes "trace-last") Named (Count 1 1000000) None ∷ argument (codes "policy") Named Read None
        ∷ argument (codes "symbols") Named Read None ∷ argument (codes "lines") Named Read None ∷ [] }
{}
