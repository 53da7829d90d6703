//! `ReaderFiles`: two reader objects (`Opened`, each with the name and the length of its file) seen as
//! files that may not be changed.
ghost use Rattle.std.specs.Prelude.{◌≡◌, ◌+◌, ◌^◌, ℕ, false, Some, Ok, Err, IfOk, string_bytes};
ghost use Rattle.myi_base.specs.Holding.{IfTold, Measures};
ghost use Rattle.myi_io.specs.declared.files.FileErr.TheVariants.{Failed};
ghost use Rattle.myi_adapters.specs.TwoReaders.{two_told, two_told_bytes, told_by, kept_length, refusing};
ghost use Rattle.myi_io.specs.Counts.{raised};

use myi_io::{FileErr, FileReader, Files};

/// A file that was opened to be read, with the length that it had.
#[derive(Drop)]
pub struct Opened<R: FileReader> {
    pub name: String,
    pub length: u64,
    pub reader: R,
}

/// The two files of one table, each by its reader. They may not be changed: a changing call is refused
/// and counted. What they hold is told where both readers tell it, the names differ, and each length
/// is the one that was kept.
#[derive(Drop)]
pub struct ReaderFiles<R: FileReader> {
    pub rows: Opened<R>,
    pub index: Opened<R>,
    /// How many changing calls were refused; 0 at first.
    pub refused: u64,
}

// Counts a changing call, and says that it is refused.
fn refuse(refused: &mut u64) -> FileErr
    ensures failed { result ≡ Failed }
    ensures counted { refused.new ≡ raised refused.old }
{
    *refused = refused.saturating_add(1);
    FileErr::Failed
}

impl<R: FileReader> Files for ReaderFiles<R> {
    type Reader = R;

    ghost holds = { λ s.
        two_told (string_bytes s.rows.name) s.rows.length (R.holds s.rows.reader)
        (string_bytes s.index.name) s.index.length (R.holds s.index.reader) };

    ghost faults = { λ s. R.faults s.rows.reader + R.faults s.index.reader };

    ghost reads = { λ s. R.reads s.rows.reader + R.reads s.index.reader };

    ghost writable = { false };

    // The length that was kept, also where the readers tell nothing.
    fn length(&mut self, name: &str) -> Result<Option<u64>, FileErr>
        ensures kept { result ≡ Ok (kept_length self.old name.now) }
        ensures same { self.new ≡ self.old }
        ensures told { IfOk result (λ size.
            IfTold (told_by R.holds self.old) (λ m. Measures (m name.now) size)) }
    {
        if name == self.rows.name.as_str() {
            return Ok(Some(self.rows.length));
        }
        if name == self.index.name.as_str() {
            return Ok(Some(self.index.length));
        }
        Ok(None)
    }

    fn read_at(&mut self, name: &str, at: u64, into: &mut [u8]) -> Result<usize, FileErr> {
        if name == self.rows.name.as_str() {
            return self.rows.reader.read_at(at, into);
        }
        if name == self.index.name.as_str() {
            return self.index.reader.read_at(at, into);
        }
        Ok(0)
    }

    fn write_at(&mut self, _name: &str, _at: u64, _bytes: &[u8]) -> Result<(), FileErr>
        ensures failed { result ≡ Err Failed }
        ensures counted { self.new ≡ refusing self.old }
    {
        Err(refuse(&mut self.refused))
    }

    fn cut(&mut self, _name: &str, _length: u64) -> Result<(), FileErr>
        ensures failed { result ≡ Err Failed }
        ensures counted { self.new ≡ refusing self.old }
    {
        Err(refuse(&mut self.refused))
    }

    fn rename(&mut self, _from: &str, _to: &str) -> Result<(), FileErr>
        ensures failed { result ≡ Err Failed }
        ensures counted { self.new ≡ refusing self.old }
    {
        Err(refuse(&mut self.refused))
    }

    fn remove(&mut self, _name: &str) -> Result<(), FileErr>
        ensures failed { result ≡ Err Failed }
        ensures counted { self.new ≡ refusing self.old }
    {
        Err(refuse(&mut self.refused))
    }

    // Another thread has no reader of these.
    fn reader(&mut self, _name: &str) -> Result<R, FileErr>
        ensures failed { result ≡ Err Failed }
        ensures counted { self.new ≡ refusing self.old }
    {
        Err(refuse(&mut self.refused))
    }

    fn fault_count(&self) -> u64 {
        let rows = self.rows.reader.fault_count();
        rows.saturating_add(self.index.reader.fault_count())
    }

    ghost told_bytes = { λ s m told.
        two_told_bytes _ _ _ _ _ _ m
        (R.told_bytes s.rows.reader) (R.told_bytes s.index.reader) told };
}
