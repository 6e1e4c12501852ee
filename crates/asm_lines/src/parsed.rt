use crate::fault::LineFault;
use isa_rows::Insn;

/// A number, or a name with a number added to it. The name `.` is the statement's own place.
#[derive(Clone, Copy, Debug, PartialEq, Eq)]
pub struct Expression<'a> {
    /// The name, if there is one.
    pub name: Option<&'a [u8]>,
    /// The number that is added, or that the expression is: above -2^64 and below 2^64 where it was read from a text.
    pub offset: i128,
}

/// What a line says beside its label.
#[derive(Clone, Copy, Debug, PartialEq, Eq)]
pub enum Statement<'a> {
    /// One instruction or two.
    Instruction(Instruction<'a>),
    /// What holds for the whole image.
    Setting(Setting<'a>),
    /// `.org`: a new section, and the address where it begins.
    Origin(u64),
    /// Bytes that are no instruction's.
    Data(Data<'a>),
}

/// What places instructions.
#[derive(Clone, Copy, Debug, PartialEq, Eq)]
pub enum Instruction<'a> {
    /// One instruction, and the address that it jumps to where it is written with one (its immediate is 0 until that is known).
    Row(Insn, Option<Expression<'a>>),
    /// `la` or, where `capability` says so, `cla`: the two instructions that put a value into a register, 0 to 31.
    Load {
        capability: bool,
        rd: u8,
        value: Expression<'a>,
    },
}

/// What is set for the whole image, once.
#[derive(Clone, Copy, Debug, PartialEq, Eq)]
pub enum Setting<'a> {
    /// `.pages`: RAM's size in pages, 1 to the most; 0 where the number is out of range.
    Pages(u32),
    /// `.mode`: whether the first instruction is done in capability mode.
    Mode(bool),
    /// `.entry`: where the first instruction is.
    Entry(Expression<'a>),
}

/// A directive that places zeros, by a number.
#[derive(Clone, Copy, Debug, PartialEq, Eq)]
pub enum Fill {
    /// `.align`: up to a multiple of two to the power of its number.
    Align,
    /// `.zero`: so many as its number says.
    Zero,
}

/// A directive that places bytes.
#[derive(Clone, Copy, Debug, PartialEq, Eq)]
pub enum Directive {
    /// Zeros, by a number.
    Zeros(Fill),
    /// `.byte`, `.half`, `.word`, `.dword`: values of so many bytes (1, 2, 4 or 8), expressions with commas between.
    Values(u8),
    /// `.ascii`: the bytes of a text between quotes.
    Ascii,
    /// `.cap`: a capability, by its base, length, permissions and flag, expressions with commas between; zeros until it is put there.
    Capability,
}

/// What places bytes that are no instruction's: a directive and its operands.
#[derive(Clone, Copy, Debug, PartialEq, Eq)]
pub struct Data<'a> {
    pub directive: Directive,
    /// The number of a directive that places zeros, at most that of its row; 0 after another directive.
    pub number: u64,
    /// The operands of a directive that has no number; of a text, what stands between the quotes, with its escapes.
    pub text: &'a [u8],
}

/// What one line says.
#[derive(Clone, Copy, Debug, PartialEq, Eq)]
pub struct Parsed<'a> {
    /// The name that the line defines.
    pub label: Option<&'a [u8]>,
    /// The statement, unless the line has none, or a fault leaves none: A1, A2, A8, A9, and A3 of `.org` and of a [`Fill`].
    pub statement: Option<Statement<'a>>,
    /// The first fault that the line alone decides.
    pub fault: Option<LineFault>,
}
