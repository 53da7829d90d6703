//! `Gathering`: files whose small writes that follow one another are gathered into large ones.
//!
//! It tells what the files below it hold with the gathered writes done, and has the contract of
//! `Files` over any files that may be changed. The gathered writes are done before a write elsewhere,
//! before their file is read, measured or handed to a reader, before any file is cut or renamed, and
//! by `flush`. Where doing them fails they stay gathered. Those to a file that is removed are given up.
ghost use Rattle.std.specs.Prelude.{◌≡◌, ◌≢◌, ◌+◌};
ghost use Rattle.std.specs.Prelude.{[], true, length, IsTrue, OnOk, OnErr, string_bytes};
ghost use Rattle.myi_base.specs.Holding.{Keeps, Removes, Writes};
ghost use Rattle.myi_base.specs.Causes.{HasCause};
ghost use Rattle.myi_io.specs.declared.files.FileErr.TheVariants.{Failed};
ghost use Rattle.myi_adapters.specs.Gathering.{IsNext, Does, Carries};

use crate::pending::{Pending, goes_alone};
use myi_io::{FileErr, Files};
use std::alloc::{AllocError, Global};

/// Files that may be changed, and what `Gathering` does with them. An impl gives nothing of its own.
pub trait Writable: Files {
    ghost use Rattle.std.specs.Prelude.{◌≡◌, IsTrue, OnOk, OnErr};
    ghost use Rattle.myi_base.specs.Causes.{HasCause};
    ghost use Rattle.myi_io.specs.declared.files.FileErr.TheVariants.{Failed};
    ghost use Rattle.myi_adapters.specs.Gathering.{SameShown, HasNone, HasSome, IsDone, IsNext, IsFor};

    /// Does the writes. Where that fails they stay.
    fn write_out(&mut self, pending: &mut Pending) -> Result<(), FileErr>
        requires { IsTrue Self.writable }
        ensures shows { SameShown pending.old (Self.holds self.old)
            pending.new (Self.holds self.new) }
        ensures done { OnOk result (IsDone pending.new) }
        ensures some { OnErr result (HasSome pending.old) }
        ensures reads { Self.reads self.new ≡ Self.reads self.old }
        ensures cause { HasCause Failed (Self.faults self.old) (Self.faults self.new) result }
    {
        if pending.bytes.is_empty() {
            return Ok(());
        }
        self.write_at(pending.name.as_str(), pending.at, &pending.bytes)?;
        pending.clear();
        Ok(())
    }

    /// Does the writes to one file.
    fn write_out_file(&mut self, pending: &mut Pending, name: &str) -> Result<(), FileErr>
        requires { IsTrue Self.writable }
        ensures shows { SameShown pending.old (Self.holds self.old)
            pending.new (Self.holds self.new) }
        ensures apart { OnOk result (HasNone pending.new name.now) }
        ensures met { OnErr result (IsFor pending.old name.now) }
        ensures reads { Self.reads self.new ≡ Self.reads self.old }
        ensures cause { HasCause Failed (Self.faults self.old) (Self.faults self.new) result }
    {
        if pending.name.as_str() == name {
            self.write_out(pending)?;
        }
        Ok(())
    }

    /// Lets bytes for a place be the next ones.
    fn write_out_before(
        &mut self,
        pending: &mut Pending,
        name: &str,
        at: u64,
    ) -> Result<(), FileErr>
        requires { IsTrue Self.writable }
        ensures shows { SameShown pending.old (Self.holds self.old)
            pending.new (Self.holds self.new) }
        ensures next { OnOk result (IsNext pending.new name.now at) }
        ensures reads { Self.reads self.new ≡ Self.reads self.old }
        ensures cause { HasCause Failed (Self.faults self.old) (Self.faults self.new) result }
    {
        if pending.takes(name, at) {
            return Ok(());
        }
        self.write_out(pending)?;
        Ok(())
    }
}

/// Files below, and the writes to them that are gathered.
#[derive(Drop)]
pub struct Gathering<F: Writable + Drop> {
    /// The files below, which may lack what is gathered.
    pub files: F,
    pending: Pending,
    faults: u64,
    ghost can_write: { IsTrue F.writable },
}

// Gives up the writes to a file that was removed.
fn forget(pending: &mut Pending, name: &str)
    ensures { Carries (Removes name.now) pending.old pending.new }
{
    if pending.name.as_str() == name {
        pending.clear();
    }
}

// Where nothing is gathered, this is the next place.
fn begin_where_empty(pending: &mut Pending, name: &str, at: u64) -> Result<(), AllocError>
    requires { IsNext pending.old name.now at }
    ensures same { Does Keeps pending.old pending.new }
    ensures file { OnOk result (string_bytes pending.new.name ≡ name.now) }
    ensures end { OnOk result (pending.new.at + length pending.new.bytes.items ≡ at) }
{
    if pending.bytes.is_empty() {
        pending.begin(name, at)?;
    }
    Ok(())
}

// Takes bytes behind those that are gathered, or as the first ones.
fn gather(pending: &mut Pending, name: &str, at: u64, bytes: &[u8]) -> Result<(), AllocError>
    requires next { IsNext pending.old name.now at }
    requires some { bytes.now ≢ [] }
    ensures ok { OnOk result (Does (Writes name.now at bytes.now) pending.old pending.new) }
    ensures err { OnErr result (Does Keeps pending.old pending.new) }
{
    begin_where_empty(pending, name, at)?;
    pending.append(bytes)?;
    Ok(())
}

impl<F: Writable + Drop> Gathering<F> {
    ghost use Rattle.myi_adapters.specs.GatheringFiles.{own_faults, SameOwn};

    /// Nothing is gathered yet.
    pub fn new(alloc: Global, files: F) -> Self
        requires { IsTrue F.writable }
        ensures below { result.files ≡ files }
        ensures holds { ⟦<Gathering<F> as Files>⟧.holds result ≡ F.holds files }
        ensures faults { ⟦<Gathering<F> as Files>⟧.faults result ≡ F.faults files }
        ensures reads { ⟦<Gathering<F> as Files>⟧.reads result ≡ F.reads files }
        ensures own { own_faults result ≡ 0 }
    {
        Gathering {
            files,
            pending: Pending::new(alloc),
            faults: 0,
        }
    }

    /// Does the gathered writes. A program calls it before it ends. Where it fails they stay.
    pub fn flush(&mut self) -> Result<(), FileErr>
        ensures holds { ⟦<Gathering<F> as Files>⟧.holds self.new
            ≡ ⟦<Gathering<F> as Files>⟧.holds self.old }
        ensures done { OnOk result
            (F.holds self.new.files ≡ ⟦<Gathering<F> as Files>⟧.holds self.new) }
        ensures reads { F.reads self.new.files ≡ F.reads self.old.files }
        ensures cause { HasCause Failed (⟦<Gathering<F> as Files>⟧.faults self.old)
            (⟦<Gathering<F> as Files>⟧.faults self.new) result }
        ensures own { SameOwn self.old self.new }
    {
        self.files.write_out(&mut self.pending)?;
        Ok(())
    }
}

/// Beside the clauses of the trait: a fault of its own, beside those of the files below, is counted by
/// a read alone, for whose file writes are gathered, where doing them wants memory (`own`).
impl<F: Writable + Drop> Files for Gathering<F> {
    type Reader = F::Reader;

    ghost use Rattle.std.specs.Prelude.{◌≡◌, ◌≤◌, ◌+◌, ◌-◌, ◌^◌};
    ghost use Rattle.std.specs.Prelude.{None, true, length, min, OnOk, OnErr, IfOk, IfErr};
    ghost use Rattle.myi_base.specs.Holding.{IfTold, Told, Gives, Fills, Shows, Writes};
    ghost use Rattle.myi_base.specs.Holding.{WritesPart, Cuts, CutsOrKeeps, Renames};
    ghost use Rattle.myi_base.specs.Holding.{Removes, Keeps, Measures, blocks};
    ghost use Rattle.myi_base.specs.Causes.{HasCause};
    ghost use Rattle.myi_io.specs.declared.files.FileErr.TheVariants.{Failed};
    ghost use Rattle.myi_adapters.specs.Gathering.{pending_done, pending_shown, pending_bytes};
    ghost use Rattle.myi_adapters.specs.GatheringFiles.{told_with, faults_with, own_faults, SameOwn};
    ghost use Rattle.myi_adapters.specs.GatheringFiles.{CountsOwn};
    ghost use Rattle.myi_io.specs.Told.{shown_bytes};

    ghost holds = { λ s. pending_shown s.pending (F.holds s.files) };

    ghost faults = { λ s. F.faults s.files + s.faults };

    ghost reads = { λ s. F.reads s.files };

    ghost writable = { true };

    fn length(&mut self, name: &str) -> Result<Option<u64>, FileErr>
        ensures told { IfOk result (λ size.
            IfTold (told_with self.old (F.holds self.old.files))
            (λ m. Measures (m name.now) size)) }
        ensures holds { told_with self.new (F.holds self.new.files)
            ≡ told_with self.old (F.holds self.old.files) }
        ensures reads { F.reads self.new.files ≡ F.reads self.old.files }
        ensures cause { HasCause Failed (faults_with self.old (F.faults self.old.files))
            (faults_with self.new (F.faults self.new.files)) result }
        ensures own { SameOwn self.old self.new }
    {
        self.files.write_out_file(&mut self.pending, name)?;
        let size = self.files.length(name)?;
        Ok(size)
    }

    fn read_at(&mut self, name: &str, at: u64, into: &mut [u8]) -> Result<usize, FileErr>
        ensures bound { IfOk result (λ count. count ≤ length into.new) }
        ensures told { IfOk result (λ count.
            IfTold (told_with self.old (F.holds self.old.files))
            (Gives name.now at into.old count)) }
        ensures bytes { OnOk result
            (IfTold (told_with self.old (F.holds self.old.files))
            (Fills name.now at into.old into.new)) }
        ensures failed { IfErr result (λ e. e ≡ Failed) }
        ensures holds { told_with self.new (F.holds self.new.files)
            ≡ told_with self.old (F.holds self.old.files) }
        ensures reads { F.reads self.old.files ≤ F.reads self.new.files }
        ensures few { F.reads self.new.files ≤ F.reads self.old.files + blocks (length into.old) }
        ensures cause { HasCause Failed (faults_with self.old (F.faults self.old.files))
            (faults_with self.new (F.faults self.new.files)) result }
        ensures own { CountsOwn self.old name.now self.new }
        ensures read { OnOk result (SameOwn self.old self.new) }
    {
        match self.files.write_out_file(&mut self.pending, name) {
            Ok(()) => {
                let count = self.files.read_at(name, at, into)?;
                Ok(count)
            }
            Err(FileErr::Failed) => Err(FileErr::Failed),
            // Want of memory is a fault here.
            Err(FileErr::Memory) => {
                self.faults = self.faults.saturating_add(1);
                Err(FileErr::Failed)
            }
        }
    }

    fn write_at(&mut self, name: &str, at: u64, bytes: &[u8]) -> Result<(), FileErr>
        ensures ok { OnOk result (Told (told_with self.old (F.holds self.old.files))
            (told_with self.new (F.holds self.new.files)) (Writes name.now at bytes.now)) }
        ensures err { OnErr result (Told (told_with self.old (F.holds self.old.files))
            (told_with self.new (F.holds self.new.files)) (WritesPart name.now at bytes.now)) }
        ensures reads { F.reads self.new.files ≡ F.reads self.old.files }
        ensures cause { HasCause Failed (faults_with self.old (F.faults self.old.files))
            (faults_with self.new (F.faults self.new.files)) result }
        ensures own { SameOwn self.old self.new }
    {
        if goes_alone(bytes) {
            self.files.write_out(&mut self.pending)?;
            self.files.write_at(name, at, bytes)?;
            return Ok(());
        }
        self.files.write_out_before(&mut self.pending, name, at)?;
        gather(&mut self.pending, name, at, bytes)?;
        Ok(())
    }

    fn cut(&mut self, name: &str, length: u64) -> Result<(), FileErr>
        ensures ok { OnOk result (Told (told_with self.old (F.holds self.old.files))
            (told_with self.new (F.holds self.new.files)) (Cuts name.now length)) }
        ensures err { OnErr result (Told (told_with self.old (F.holds self.old.files))
            (told_with self.new (F.holds self.new.files)) (CutsOrKeeps name.now length)) }
        ensures reads { F.reads self.new.files ≡ F.reads self.old.files }
        ensures cause { HasCause Failed (faults_with self.old (F.faults self.old.files))
            (faults_with self.new (F.faults self.new.files)) result }
        ensures own { SameOwn self.old self.new }
    {
        self.files.write_out(&mut self.pending)?;
        self.files.cut(name, length)?;
        Ok(())
    }

    fn rename(&mut self, from: &str, to: &str) -> Result<(), FileErr>
        ensures ok { OnOk result (Told (told_with self.old (F.holds self.old.files))
            (told_with self.new (F.holds self.new.files)) (Renames from.now to.now)) }
        ensures err { OnErr result (Told (told_with self.old (F.holds self.old.files))
            (told_with self.new (F.holds self.new.files)) Keeps) }
        ensures reads { F.reads self.new.files ≡ F.reads self.old.files }
        ensures cause { HasCause Failed (faults_with self.old (F.faults self.old.files))
            (faults_with self.new (F.faults self.new.files)) result }
        ensures own { SameOwn self.old self.new }
    {
        self.files.write_out(&mut self.pending)?;
        self.files.rename(from, to)?;
        Ok(())
    }

    fn remove(&mut self, name: &str) -> Result<(), FileErr>
        ensures ok { OnOk result (Told (told_with self.old (F.holds self.old.files))
            (told_with self.new (F.holds self.new.files)) (Removes name.now)) }
        ensures err { OnErr result (Told (told_with self.old (F.holds self.old.files))
            (told_with self.new (F.holds self.new.files)) Keeps) }
        ensures failed { IfErr result (λ e. e ≡ Failed) }
        ensures reads { F.reads self.new.files ≡ F.reads self.old.files }
        ensures cause { HasCause Failed (faults_with self.old (F.faults self.old.files))
            (faults_with self.new (F.faults self.new.files)) result }
        ensures own { SameOwn self.old self.new }
    {
        self.files.remove(name)?;
        forget(&mut self.pending, name);
        Ok(())
    }

    fn reader(&mut self, name: &str) -> Result<F::Reader, FileErr>
        ensures told { IfOk result (λ r. IfTold (told_with self.old (F.holds self.old.files))
            (Shows name.now (F.Reader.holds r))) }
        ensures untold { IfOk result (λ r. told_with self.old (F.holds self.old.files) ≡ None
            → F.Reader.holds r ≡ None) }
        ensures fresh { IfOk result (λ r. F.Reader.faults r ≡ 0) }
        ensures holds { told_with self.new (F.holds self.new.files)
            ≡ told_with self.old (F.holds self.old.files) }
        ensures reads { F.reads self.new.files ≡ F.reads self.old.files }
        ensures cause { HasCause Failed (faults_with self.old (F.faults self.old.files))
            (faults_with self.new (F.faults self.new.files)) result }
        ensures own { SameOwn self.old self.new }
    {
        self.files.write_out_file(&mut self.pending, name)?;
        let reader = self.files.reader(name)?;
        Ok(reader)
    }

    fn fault_count(&self) -> u64 {
        self.files.fault_count().saturating_add(self.faults)
    }

    ghost told_bytes = { λ s.
        shown_bytes (pending_done s.pending) (F.holds s.files)
        (pending_bytes s.pending) (F.told_bytes s.files) };
}
