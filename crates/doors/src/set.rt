ghost use Rattle.cap_bounds.specs.CapValue.{CapValue};
ghost use Rattle.steps.specs.State.{State};

/// A set of capabilities for each state, over which the laws of `laws` hold. A type that has one has nothing else.
pub trait CapSet {
    /// Which values are members of the set that belongs to a state.
    ghost has: { State → CapValue → Type 0 };
}
