/// The numbers from `from` on and below `to`: addresses, or object types.
#[derive(Clone, Copy, Debug, PartialEq, Eq)]
pub struct Range {
    pub from: u64,
    pub to: u128,
}
