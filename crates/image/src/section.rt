ghost use Rattle.std.specs.Prelude.{◌≡◌, IfOk};

use std::alloc::{AllocError, Global};
use std::marker::Model;

/// Bytes that RAM holds from an address on.
#[derive(Drop, Debug)]
pub struct Section {
    address: u64,
    bytes: Vec<u8>,
}

impl Model for Section {
    ghost use Rattle.image.specs.Image as spec;

    ghost Value = { spec.Section };

    ghost view = { λ s. record { address = s.address; bytes = s.bytes.items } };
}

impl Section {
    /// A section of these bytes.
    pub(crate) fn new(address: u64, bytes: Vec<u8>) -> Self
        ensures address { result.address ≡ address }
        ensures bytes { result.bytes ≡ bytes.items }
    {
        Section { address, bytes }
    }

    /// A section with a copy of these bytes.
    pub(crate) fn copied(alloc: Global, address: u64, bytes: &[u8]) -> Result<Self, AllocError>
        ensures address { IfOk result (λ s. s.address ≡ address) }
        ensures bytes { IfOk result (λ s. s.bytes ≡ bytes.now) }
    {
        Ok(Section {
            address,
            bytes: Vec::from_slice(alloc, bytes)?,
        })
    }

    /// Where its first byte lies.
    pub fn address(&self) -> u64
        ensures { result ≡ self.now.address }
    {
        self.address
    }

    /// Its bytes.
    pub fn bytes(&self) -> &[u8]
        ensures { result.now ≡ self.now.bytes }
    {
        &self.bytes
    }
}
