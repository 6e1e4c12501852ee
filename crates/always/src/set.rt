//! Sets of states.
ghost use Rattle.steps.specs.State.{State};

/// A set of states, over which the laws of `laws` hold. A type that has one has nothing else.
pub trait StateSet {
    /// Which states are members.
    ghost has: { State → Type 0 };
}
