//! `RowTest`: the test of what packs a row of a table, which a scan keeps.
ghost use Rattle.std.specs.Prelude.{◌≡◌, IfOk};
ghost use Rattle.myi_defs.specs.Sound.{IsSound};

use myi_chain::Accepts;
use myi_defs::{Defs, RowFormat};
use myi_pack::view;
use std::alloc::{AllocError, Global};
use std::marker::Model;

/// The definitions of a table; bytes pass that pack a row of it.
#[derive(Drop)]
pub(crate) struct RowTest {
    defs: Defs,
}

impl Model for RowTest {
    ghost use Rattle.myi_defs.specs.declared.types.Defs.{Defs};
    ghost use Rattle.myi_defs.specs.Sound.{IsSound};

    ghost Value = { Defs };

    ghost view = { λ s. s.defs };

    ghost invariant = { λ s. IsSound s.defs };
}

impl RowTest {
    /// The test of a table with equal definitions.
    pub(crate) fn new(defs: &Defs) -> Result<RowTest, AllocError>
        requires { IsSound defs.now }
        ensures { IfOk result (λ test. test ≡ defs.now) }
    {
        let defs = defs.copy()?;
        Ok(RowTest { defs })
    }

    /// An equal test.
    pub(crate) fn copy(&self) -> Result<RowTest, AllocError>
        ensures { IfOk result (λ test. test ≡ self.now) }
    {
        RowTest::new(&self.defs)
    }

    pub(crate) fn format(&self) -> RowFormat
        ensures { result ≡ self.now.format }
    {
        self.defs.format
    }

    pub(crate) fn slot_length(&self) -> u32
        ensures { result ≡ self.now.slot_length }
    {
        self.defs.slot_length
    }

    pub(crate) fn allocator(&self) -> Global {
        self.defs.raw.allocator()
    }
}

impl Accepts for RowTest {
    ghost use Rattle.myi_data.specs.Readable.{packs};

    ghost accepts_gives = { packs };

    fn accepts(&self, packed: &[u8]) -> bool {
        view(&self.defs, packed).is_some()
    }
}
