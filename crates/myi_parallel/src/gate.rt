//! `KeyGate`: what is told when a worker begins and ends with a key.

/// What is told when a worker begins and ends with a key, by the key's number, from 1. It may wait.
pub trait KeyGate: Sync {
    /// A worker is about to lay the tree of a key.
    fn pass(&self, key: u8);

    /// The tree of a key is laid, or there was no memory for it.
    fn done(&self, key: u8);
}

/// A gate that holds up nobody.
pub struct OpenGate;

impl KeyGate for OpenGate {
    fn pass(&self, _key: u8) {}

    fn done(&self, _key: u8) {}
}
