//! A list that a contract sees as a list.
//!
//! A `Vec` shows its capacity and its place in memory to a contract, so two equal lists in two
//! vectors are two values there. `Sequence` is a `Vec` of which a contract sees the items alone. The
//! public types above hold their lists so, and can be compared with what a definition says.
ghost use Rattle.std.specs.Prelude.{◌≡◌, List, IfOk};

use std::alloc::{AllocError, Global};
use std::marker::Model;

/// The items of a `Vec`, in their order.
#[derive(Drop)]
pub struct Sequence<T> {
    items: Vec<T>,
}

impl<T> Model for Sequence<T> {
    ghost Value = { List T };

    ghost view = { λ s. s.items.items };
}

impl<T> Sequence<T> {
    /// Takes the items over. It takes no memory.
    pub fn new(items: Vec<T>) -> Self
        ensures { result ≡ items.items }
    {
        Sequence { items }
    }

    /// The items.
    pub fn as_slice(&self) -> &[T]
        ensures { result.now ≡ self.now }
    {
        &self.items
    }

    /// The allocator of the items.
    pub fn allocator(&self) -> Global {
        *self.items.allocator()
    }

    /// Gives the items back. It takes no memory.
    pub fn into_vec(self) -> Vec<T>
        ensures { result.items ≡ self }
    {
        self.items
    }
}

impl<T: Copy> Sequence<T> {
    /// A sequence of equal items.
    pub fn copy(&self) -> Result<Sequence<T>, AllocError>
        ensures { IfOk result (λ copy. copy ≡ self.now) }
    {
        let items = Vec::from_slice(self.allocator(), &self.items)?;
        Ok(Sequence { items })
    }
}
