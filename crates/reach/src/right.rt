/// What a capability lets code do with the numbers in its bounds: the bytes at these addresses, or these object types.
#[derive(Clone, Copy, Debug, PartialEq, Eq)]
pub enum Right {
    /// Data is stored.
    Store,
    /// Data is loaded.
    Load,
    /// Instructions are fetched.
    Execute,
    /// Capabilities are loaded with their tags.
    Capabilities,
    /// Capabilities are stored, those without Global too: what is lent is kept.
    Keep,
    /// Values are sealed with the object type.
    Seal,
    /// Values that are sealed with the object type are unsealed.
    Unseal,
}
