/// What is wrong with a line, whatever stands in the others. A8 and A9 come before the rest; of the rest, A1, A2, A3 in this order.
#[derive(Clone, Copy, Debug, PartialEq, Eq)]
pub enum LineFault {
    /// An unknown mnemonic.
    A1,
    /// Operands that are not of the statement's form.
    A2,
    /// A number out of range.
    A3,
    /// A byte of 128 or more, or a control byte other than tab, line feed and carriage return.
    A8,
    /// More than 255 bytes.
    A9,
}
