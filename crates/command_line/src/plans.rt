use crate::layout::Layout;

/// Which ends of a run are explained.
#[derive(Clone, Copy, Debug, PartialEq, Eq)]
pub enum Why {
    /// Those where an instruction was not fetched.
    Unfetched,
    /// All.
    All,
    /// Those before a trap while another is open.
    Double,
}

/// A run of an image that is asked for.
#[derive(Clone, Copy)]
pub struct RunRequest<'a> {
    /// The file with the image, or with the text that is assembled into it.
    pub image: &'a str,
    /// The most steps that are done, where `times` is 1: 1 to 10000000000.
    pub steps: u64,
    /// How many times as many are done at most, 1 to 1000000; together at most 100000000000000.
    pub times: u64,
    /// Steps from one byte of the input to the next, 1 to 1000000.
    pub gap: u64,
    /// Steps from one tick of the timer to the next, at most 1000000; at 0 there is no tick.
    pub tick: u64,
    /// The file whose bytes come on the console, if one is named.
    pub input: Option<&'a str>,
    /// Whether the lines that say where a run ended are left out, and of an audit all that it tells.
    pub quiet: bool,
    /// Whether its end, an explained trap, what breaks a policy and the lines of its trace are told as objects.
    pub json: bool,
    /// The file that a line for each step is written to, if one is named.
    pub trace: Option<&'a str>,
    /// The first step that has a line there, 1 to 100000000000000.
    pub trace_from: u64,
    /// How many of the lines are left there in the end, the last ones, 1 to 1000000; else all are.
    pub trace_last: Option<u64>,
    /// The file with the policy that the run keeps to or is audited by, if one is named.
    pub policy: Option<&'a str>,
    /// The file with labels, if one is named: they stand after the addresses that are told, and the policy may name them.
    pub symbols: Option<&'a str>,
    /// The file with lines of a source, if one is named: they stand after the addresses of instructions that are told.
    pub lines: Option<&'a str>,
}

/// What is written of a run to files of their own, besides its trace.
#[derive(Clone, Copy)]
pub struct Reports<'a> {
    /// The file that its profile is written to, if one is named.
    pub profile: Option<&'a str>,
    /// The file that its calls and returns are written to, if one is named.
    pub calls: Option<&'a str>,
}

/// An image that is asked about, and the policy.
#[derive(Clone, Copy)]
pub struct ProveRequest<'a> {
    /// The file with the image, or with the text that is assembled into it.
    pub image: &'a str,
    /// The file with the policy.
    pub policy: &'a str,
    /// The file with labels, if one is named: they stand after the addresses that are told, and the policy may name them.
    pub symbols: Option<&'a str>,
    /// The file with lines of a source, if one is named: they stand after the addresses of instructions that are told.
    pub lines: Option<&'a str>,
    /// The most steps of the image's own code that are done: 1 to 1000000000.
    pub steps: u64,
    /// Whether nothing is told but by the status.
    pub quiet: bool,
}

/// What the command line asks for.
#[derive(Clone, Copy)]
pub enum Plan<'a> {
    /// Assemble a text into an image.
    Asm {
        /// The file with the text.
        input: &'a str,
        /// The file that the image is written to.
        output: &'a str,
        /// The file that the labels are written to, if one is named.
        symbols: Option<&'a str>,
        /// The file that the line of each placed instruction is written to, if one is named.
        lines: Option<&'a str>,
        /// Whether of a fault its text alone is told.
        quiet: bool,
    },
    /// Make an image of a file's bytes.
    Image {
        /// The file with the bytes.
        flat: &'a str,
        /// The file that the image is written to.
        output: &'a str,
        /// Where the bytes go.
        layout: Layout,
        /// Whether of a fault its text alone is told.
        quiet: bool,
    },
    /// Run a text or an image until it halts.
    Go {
        /// Which run.
        request: RunRequest<'a>,
        /// Which ends are explained, if any; with a policy none is.
        why: Option<Why>,
        /// The files that are written of it besides.
        reports: Reports<'a>,
    },
    /// Run an image.
    Run {
        /// Which run.
        request: RunRequest<'a>,
        /// Which ends are explained, if any; with a policy none is.
        why: Option<Why>,
        /// The files that are written of it besides.
        reports: Reports<'a>,
    },
    /// List what breaks a policy in a run of an image, or the policy that the run keeps to.
    Audit(RunRequest<'a>),
    /// Show of every run of an image that it keeps to a policy.
    Prove(ProveRequest<'a>),
    /// List an image.
    Dis {
        /// The file with the image, or with the text that is assembled into it.
        image: &'a str,
        /// The file with its labels, if one is named.
        symbols: Option<&'a str>,
        /// Whether the image's header and capabilities come first.
        header: bool,
        /// Whether of a fault its text alone is told.
        quiet: bool,
    },
    /// Debug an image.
    Debug {
        /// The file with the image, or with the text that is assembled into it.
        image: &'a str,
        /// The file with its labels, if one is named.
        symbols: Option<&'a str>,
        /// The file with lines of a source, if one is named.
        lines: Option<&'a str>,
        /// The file whose bytes come on the console, if one is named.
        input: Option<&'a str>,
        /// Steps from one byte of the input to the next, 1 to 1000000, where it is said.
        gap: Option<u64>,
        /// Steps from one tick of the timer to the next, at most 1000000, where it is said.
        tick: Option<u64>,
        /// Whether of a fault its text alone is told.
        quiet: bool,
    },
    /// Say what setting bounds gives, or how a length is rounded where no base is named.
    Bounds {
        /// The address from which they are asked, if one is named.
        base: Option<u64>,
        /// How many bytes they are asked to hold.
        length: u64,
        /// An address to be placed against them, if one is named.
        address: Option<u64>,
        /// Whether that is an object.
        json: bool,
    },
    /// Say what the word of a capability means.
    Word {
        /// The upper half: its permissions, object type, flag and bounds.
        high: u64,
        /// The lower half: its address.
        low: u64,
        /// Whether these are the halves of the word as it stands in memory.
        memory: bool,
        /// Whether that is an object.
        json: bool,
    },
    /// Run the first image, which the program holds itself.
    First,
}
