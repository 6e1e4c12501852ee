use policy::Ban;

/// A part of a rule that is broken, by the first member of the reach that breaks it.
#[derive(Clone, Copy, Debug, PartialEq, Eq)]
pub struct Finding {
    /// The place of the rule.
    pub rule: usize,
    /// The part of the rule.
    pub ban: Ban,
    /// The number of the member, as the reach of the state numbers them.
    pub member: usize,
}

/// Before which step something is found: its number, counted from 1, and PCC's address.
#[derive(Clone, Copy)]
pub(crate) struct Moment {
    pub step: u64,
    pub pc: u64,
}
