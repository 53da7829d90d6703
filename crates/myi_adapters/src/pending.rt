//! `Pending`: bytes for one file that are not written yet.
ghost use Rattle.std.specs.Prelude.{◌≡◌, ◌+◌, ◌++◌, ◌<◌};
ghost use Rattle.std.specs.Prelude.{[], length, IsTrue, OnOk, OnErr, string_bytes};
ghost use Rattle.myi_base.specs.Numbers.{AreBytes};

use myi_base::slices_are_bytes;
use std::alloc::{AllocError, Global};

// So many gathered bytes are written before more are taken.
const GATHERED: usize = 1 << 20;

/// Whether bytes are not gathered: there are none, or as many as one write is to have.
pub(crate) fn goes_alone(bytes: &[u8]) -> bool
    ensures { bytes.now ≡ [] → IsTrue result }
{
    bytes.is_empty() || bytes.len() >= GATHERED
}

/// Bytes for one file from a place on. Where there are none, nothing is to be written.
pub struct Pending {
    pub(crate) name: String,
    pub(crate) at: u64,
    pub(crate) bytes: Vec<u8>,
    ghost are_bytes: { AreBytes bytes.items },
}

impl Drop for Pending {
    fn drop(self) {
        let Pending {
            name: _,
            at: _,
            bytes: _,
        } = self;
    }
}

impl Pending {
    pub(crate) fn new(alloc: Global) -> Self
        ensures { result.bytes.items ≡ [] }
    {
        Pending {
            name: String::new(alloc),
            at: 0,
            bytes: Vec::new(alloc),
        }
    }

    /// Whether a write goes on where these bytes end, and there is room for it.
    pub(crate) fn takes(&self, name: &str, at: u64) -> bool
        ensures name { IsTrue result → string_bytes self.now.name ≡ name.now }
        ensures end { IsTrue result → self.now.at + length self.now.bytes.items ≡ at }
    {
        let end = self.at.checked_add(self.bytes.len() as u64);
        self.bytes.len() < GATHERED && end == Some(at) && self.name.as_str() == name
    }

    /// Bytes for another place come next.
    pub(crate) fn begin(&mut self, name: &str, at: u64) -> Result<(), AllocError>
        ensures bytes { self.new.bytes.items ≡ self.old.bytes.items }
        ensures name { OnOk result (string_bytes self.new.name ≡ name.now) }
        ensures at { OnOk result (self.new.at ≡ at) }
    {
        self.name = String::from_str(*self.bytes.allocator(), name)?;
        self.at = at;
        Ok(())
    }

    pub(crate) fn append(&mut self, bytes: &[u8]) -> Result<(), AllocError>
        ensures name { string_bytes self.new.name ≡ string_bytes self.old.name }
        ensures at { self.new.at ≡ self.old.at }
        ensures ok { OnOk result (self.new.bytes.items ≡ self.old.bytes.items ++ bytes.now) }
        ensures err { OnErr result (self.new.bytes.items ≡ self.old.bytes.items) }
    {
        slices_are_bytes(bytes);
        self.bytes.extend_from_slice(bytes)?;
        Ok(())
    }

    /// The bytes are written.
    pub(crate) fn clear(&mut self)
        ensures { self.new.bytes.items ≡ [] }
    {
        self.bytes.clear();
    }
}
