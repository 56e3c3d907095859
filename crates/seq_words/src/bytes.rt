// A list of bytes.
ghost use Rattle.std.specs.Prelude.{◌≡◌, [], OnOk, OnErr, ◌++◌, ◌∷◌, ◌<◌, IfOk, length, slice_set};

use std::alloc::Global;
use std::marker::Model;

/// Want of memory: an allocation was refused.
#[derive(Clone, Copy, Debug, PartialEq, Eq)]
pub struct NoMemory;

/// A growing list of bytes. Contracts see it as the list.
#[derive(Drop)]
pub struct Bytes {
    pub items: Vec<u8>,
}

impl Model for Bytes {
    ghost use Rattle.std.specs.Prelude.{List, ℕ};

    ghost Value = { List ℕ };

    ghost view = { λ b. b.items.items };
}

impl Bytes {
    /// No byte yet. It takes no memory.
    pub fn new(alloc: Global) -> Self
        ensures { result ≡ [] }
    {
        Bytes {
            items: Vec::new(alloc),
        }
    }

    /// A copy of `bytes`.
    pub fn copy_of(alloc: Global, bytes: &[u8]) -> Result<Self, NoMemory>
        ensures { IfOk result (λ b. b ≡ bytes.now) }
    {
        match bytes.to_vec(alloc) {
            Ok(items) => Ok(Bytes { items }),
            Err(_) => Err(NoMemory),
        }
    }

    /// The bytes, in order.
    pub fn as_slice(&self) -> &[u8]
        ensures { result.now ≡ self.now }
    {
        &self.items
    }

    /// Sets the byte at a place.
    pub fn set(&mut self, place: usize, byte: u8)
        requires { place < length self.old }
        ensures { self.new ≡ slice_set self.old place byte }
    {
        self.items[place] = byte;
    }

    /// Adds a byte at the end.
    pub fn push(&mut self, byte: u8) -> Result<(), NoMemory>
        ensures ok { OnOk result (self.new ≡ self.old ++ byte ∷ []) }
        ensures err { OnErr result (self.new ≡ self.old) }
    {
        match self.items.push(byte) {
            Ok(()) => Ok(()),
            Err(_) => Err(NoMemory),
        }
    }

    /// Adds all of `bytes` at the end, or none of them.
    pub fn append(&mut self, bytes: &[u8]) -> Result<(), NoMemory>
        ensures ok { OnOk result (self.new ≡ self.old ++ bytes.now) }
        ensures err { OnErr result (self.new ≡ self.old) }
    {
        match self.items.extend_from_slice(bytes) {
            Ok(()) => Ok(()),
            Err(_) => Err(NoMemory),
        }
    }
}
