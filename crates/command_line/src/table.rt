//! The commands of the program and their arguments, a line each: what clap reads, the help, the limits and the definitions come of them.

use crate::misfit::MISSING;

/// What is said where a file of `debug` is standard input.
const BESIDE: &str = "debug reads its commands from standard input, so - cannot be a file of it";

/// How an argument stands among the words.
#[derive(Clone, Copy)]
pub(crate) enum Stands {
    /// A word at its place, which must be there.
    Operand,
    /// A word at its place, which need not be there.
    Optional,
    /// `--ID VALUE`.
    Named,
    /// `--ID VALUE`, which must be there.
    Required,
    /// `--ID`.
    Flag,
    /// `--ID`; where the words have `--ID=all`, `--ID VALUE`, so that `--ID` alone takes no other word as its value.
    FlagOrAll,
}

/// What an argument takes.
#[derive(Clone, Copy)]
pub(crate) enum Takes {
    /// Nothing.
    Nothing,
    /// Which ends of a run are explained: nothing, or `all`.
    Ends,
    /// The name of a file that is read; `-` is standard input.
    Read,
    /// The name of a file that is read by a command which reads standard input besides; so it is not `-`.
    ReadBeside,
    /// The name of a file that is written.
    Written,
    /// A number from the first to the second, in decimal digits or after `0x` in hexadecimal ones, with `_` between digits or not.
    Count(u64, u64),
    /// The same, and the first where the argument isn't used.
    Start(u64, u64),
    /// A number of 64 bits, typed the same way.
    Number,
}

/// An argument: its id, how it stands, what it takes, the text of its value where it isn't used, and what is shown of it: the name of its
/// value, its help, and what is said of a value that it does not take.
pub(crate) type Line<'t> = (
    &'t str,
    Stands,
    Takes,
    Option<&'t str>,
    (&'t str, &'t str, &'t str),
);

/// One of the program.
pub(crate) type Argument = Line<'static>;

/// A command: its name, what it does, and its arguments.
pub(crate) type CommandRow = (&'static str, &'static str, &'static [Argument]);

// An argument by what its line says; where the line says limits, the help ends with them and what comes after.
macro_rules! argument {
    ($id:literal $stands:ident $takes:ident $least:literal to $most:literal, $value:literal, $default:expr, $help:literal $end:literal) => {
        ($id, Stands::$stands, Takes::$takes($least, $most), $default,
            ($value, concat!($help, ", ", $least, " to ", $most, $end), MISSING))
    };
    ($id:literal $stands:ident ReadBeside, $value:literal, $help:literal) => {
        ($id, Stands::$stands, Takes::ReadBeside, None, ($value, $help, BESIDE))
    };
    ($id:literal $stands:ident Number, $value:literal, $takes:expr, $help:literal) => {
        ($id, Stands::$stands, Takes::Number, None, ($value, $help, $takes))
    };
    ($id:literal $stands:ident $takes:ident, $value:literal, $help:literal) => {
        ($id, Stands::$stands, Takes::$takes, None, ($value, $help, MISSING))
    };
}

// What is said where an argument is no number of 64 bits.
macro_rules! misfit {
    ($what:literal) => {
        concat!($what, " a number of 0 to 18446744073709551615")
    };
}

// Files that are read, and files that are written.
pub(crate) const IN: Argument = argument!("IN" Operand Read, "", "The file with the text");

pub(crate) const FLAT: Argument = argument!("FLAT" Operand Read, "", "The file with the bytes");

pub(crate) const FILE: Argument = argument!("FILE" Operand Read, "",
    "The file with the text, if its name ends in .s, or else with the image");

pub(crate) const IMAGE: Argument = argument!("IMAGE" Operand Read, "",
    "The file with the image, or with a text, if its name ends in .s");

pub(crate) const DEBUG_IMAGE: Argument = argument!("IMAGE" Operand ReadBeside, "",
    "The file with the image, or with a text, if its name ends in .s");

pub(crate) const INPUT: Argument =
    argument!("input" Named Read, "FILE", "The file whose bytes come on the console");

pub(crate) const DEBUG_INPUT: Argument =
    argument!("input" Named ReadBeside, "FILE", "The file whose bytes come on the console");

pub(crate) const POLICY: Argument = argument!("policy" Named Read, "FILE",
    "The file with the policy that the run is watched by");

pub(crate) const PROVE_POLICY: Argument = argument!("policy" Required Read, "FILE",
    "The file with the policy that every run is to keep to");

pub(crate) const RUN_LABELS: Argument = argument!("symbols" Named Read, "FILE",
    "A file with labels, which stand after addresses, and which the policy may name");

pub(crate) const RUN_LINES: Argument = argument!("lines" Named Read, "FILE",
    "A file with lines of a source, which stand after the addresses of instructions");

pub(crate) const DEBUG_LINES: Argument = argument!("lines" Named ReadBeside, "FILE",
    "A file with lines of a source, which stand after the addresses of instructions");

pub(crate) const DIS_LABELS: Argument = argument!("symbols" Named Read, "FILE",
    "A file with labels, which the listing shows");

pub(crate) const DEBUG_LABELS: Argument = argument!("symbols" Named ReadBeside, "FILE",
    "A file with labels, which stand for their addresses in commands");

pub(crate) const OUT: Argument =
    argument!("OUT" Operand Written, "", "The file that the image is written to");

pub(crate) const ASM_LABELS: Argument = argument!("symbols" Named Written, "FILE",
    "The file that the labels are written to");

pub(crate) const ASM_LINES: Argument = argument!("lines" Named Written, "FILE",
    "The file that the line of each placed instruction is written to");

pub(crate) const TRACE: Argument = argument!("trace" Named Written, "FILE",
    "The file that a line for each step is written to");

pub(crate) const PROFILE: Argument = argument!("profile" Named Written, "FILE",
    "The file that the count of steps at each label is written to");

pub(crate) const CALLS: Argument = argument!("calls" Named Written, "FILE",
    "The file that calls and returns are written to, indented by depth");

// Numbers with limits.
pub(crate) const STEPS: Argument = argument!("STEPS" Operand Count 1 to 100000000, "", None,
    "The most steps that are done" "");

pub(crate) const GO_STEPS: Argument = argument!("steps" Named Count 1 to 10000000000, "N",
    Some("10000000000"), "The most steps that are done" "");

pub(crate) const GO_TIMES: Argument = argument!("times" Named Count 1 to 10000, "N", Some("1"),
    "How many times so many steps are done at most" "");

pub(crate) const TIMES: Argument = argument!("times" Named Count 1 to 1000000, "N", Some("1"),
    "How many times STEPS steps are done at most" "");

pub(crate) const PROVE_STEPS: Argument = argument!("steps" Named Count 1 to 1000000000, "N",
    Some("1000000"), "The most steps of the image's own code that are done" "");

pub(crate) const RUN_GAP: Argument = argument!("gap" Named Count 1 to 1000000, "N", Some("1000"),
    "Steps from one byte of the input to the next" "");

pub(crate) const RUN_TICK: Argument = argument!("tick" Named Count 0 to 1000000, "N", Some("100"),
    "Steps from one tick of the timer to the next" "; at 0 there is none");

pub(crate) const GAP: Argument = argument!("gap" Named Count 1 to 1000000, "N", None,
    "Steps from one byte of the input to the next" "");

pub(crate) const TICK: Argument = argument!("tick" Named Count 0 to 1000000, "N", None,
    "Steps from one tick of the timer to the next" "; at 0 there is none");

pub(crate) const TRACE_FROM: Argument =
    argument!("trace-from" Named Start 1 to 100000000000000, "N", None,
    "The first step that --trace writes a line for" "; by default 1");

pub(crate) const TRACE_LAST: Argument = argument!("trace-last" Named Count 1 to 1000000, "N", None,
    "Writes only the last N lines that --trace has" "");

// Numbers of 64 bits.
pub(crate) const AT: Argument = argument!("at" Named Number, "ADDRESS", misfit!("--at takes"),
    "The address of the first byte, by default 0x80000000");

pub(crate) const ENTRY: Argument =
    argument!("entry" Named Number, "ADDRESS", misfit!("--entry takes"),
    "The address of the first instruction, by default that of the first byte");

pub(crate) const PAGES: Argument =
    argument!("pages" Named Number, "N", "--pages takes a number of 1 to 65536",
    "Pages of 4096 bytes of RAM, 1 to 65536; by default 256, or as many more as hold the bytes");

pub(crate) const MODE: Argument = argument!("mode" Named Number, "M", "--mode takes 0 or 1",
    "0 for integer mode, the default, and 1 for capability mode");

pub(crate) const BOUNDS_BASE: Argument = argument!("BASE" Operand Number, "", misfit!("BASE is"),
    "The first address that is asked for; a number alone is LENGTH");

pub(crate) const LENGTH: Argument = argument!("LENGTH" Optional Number, "", misfit!("LENGTH is"),
    "How many bytes are asked for");

pub(crate) const ADDRESS: Argument =
    argument!("address" Named Number, "ADDRESS", misfit!("--address takes"),
    "An address to be placed against the bounds");

pub(crate) const HIGH: Argument = argument!("HIGH" Operand Number, "", misfit!("HIGH is"),
    "The upper half: permissions, object type, flag and bounds");

pub(crate) const LOW: Argument = argument!("LOW" Operand Number, "", misfit!("LOW is"),
    "The lower half: the address");

// Flags.
pub(crate) const ALONE: Argument = argument!("quiet" Flag Nothing, "",
    "Leaves out what is told of a fault but its text");

pub(crate) const STATUS: Argument = argument!("quiet" Flag Nothing, "",
    "Leaves out what is told of a run but its status");

pub(crate) const WHY: Argument = argument!("why" FlagOrAll Ends, "WHICH",
    "Explains where the run ended if no instruction could be fetched; --why=all each end, --why=double a trap while one is open");

pub(crate) const RUN_JSON: Argument = argument!("json" Flag Nothing, "",
    "Tells the end, an explained trap, a breach of the policy and the lines of --trace as objects of JSON");

pub(crate) const AUDIT_JSON: Argument = argument!("json" Flag Nothing, "",
    "Tells each finding as an object of JSON, on one line");

pub(crate) const JSON: Argument = argument!("json" Flag Nothing, "",
    "Answers with an object of JSON, on one line");

pub(crate) const FLAT_ELF: Argument = argument!("flat-elf" Flag Nothing, "",
    "Takes the bytes of an ELF as they stand, where it would be refused");

pub(crate) const HEADER: Argument = argument!("header" Flag Nothing, "",
    "Begin with the image's header and capabilities, as comments");

pub(crate) const MEMORY: Argument = argument!("memory" Flag Nothing, "",
    "The halves are those of the word as it stands in memory");

/// The commands, in the order of the help.
pub(crate) const COMMANDS: [CommandRow; 10] = [
    (
        "asm",
        "Assembles a text into an image",
        &[IN, OUT, ASM_LABELS, ASM_LINES, ALONE],
    ),
    (
        "image",
        "Makes an image of a file's bytes; numbers are decimal, or hexadecimal behind 0x",
        &[FLAT, OUT, AT, ENTRY, PAGES, MODE, FLAT_ELF, ALONE],
    ),
    (
        "go",
        "Runs a text or an image until it halts; what it sends goes to standard output",
        &[
            FILE, GO_STEPS, GO_TIMES, INPUT, RUN_GAP, RUN_TICK, STATUS, WHY, PROFILE, CALLS,
            RUN_JSON, TRACE, TRACE_FROM, TRACE_LAST, POLICY, RUN_LABELS, RUN_LINES,
        ],
    ),
    (
        "run",
        "Runs an image, and writes the bytes that it sends to standard output",
        &[
            IMAGE, STEPS, TIMES, INPUT, RUN_GAP, RUN_TICK, STATUS, WHY, PROFILE, CALLS, RUN_JSON,
            TRACE, TRACE_FROM, TRACE_LAST, POLICY, RUN_LABELS, RUN_LINES,
        ],
    ),
    (
        "audit",
        "Runs an image, and lists what breaks a policy, or what a policy would have to allow",
        &[
            IMAGE, STEPS, TIMES, INPUT, RUN_GAP, RUN_TICK, STATUS, AUDIT_JSON, TRACE, TRACE_FROM,
            TRACE_LAST, POLICY, RUN_LABELS, RUN_LINES,
        ],
    ),
    (
        "prove",
        "Shows of every run of an image, with any code where the policy says so, that it keeps to it",
        &[
            IMAGE,
            PROVE_POLICY,
            RUN_LABELS,
            RUN_LINES,
            PROVE_STEPS,
            STATUS,
        ],
    ),
    (
        "dis",
        "Lists an image as instructions",
        &[IMAGE, DIS_LABELS, HEADER, ALONE],
    ),
    (
        "debug",
        "Debugs an image: commands from standard input, replies to standard output",
        &[
            DEBUG_IMAGE,
            DEBUG_LABELS,
            DEBUG_LINES,
            DEBUG_INPUT,
            GAP,
            TICK,
            ALONE,
        ],
    ),
    (
        "bounds",
        "Says what setting bounds gives; numbers are decimal, or hexadecimal behind 0x",
        &[BOUNDS_BASE, LENGTH, ADDRESS, JSON],
    ),
    (
        "word",
        "Says what the word of a capability means; numbers are decimal, or hexadecimal behind 0x",
        &[HIGH, LOW, MEMORY, JSON],
    ),
];
