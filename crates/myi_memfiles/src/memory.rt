//! `MemFiles`: files in memory, which fail at the calls that a list names.
//!
//! The files are a map from names to bytes. Each call counts itself, fails where its number is in the
//! list, and else does its work on the map; what the map holds is what the files tell. A reader has a
//! copy of the bytes of one file.
ghost use Rattle.std.specs.Prelude.{◌≡◌, ◌+◌, ◌-◌, ◌≤◌, ℕ, List, ◌++◌, length, take, drop};
ghost use Rattle.std.specs.Prelude.{replicate, vec_len, OnOk, OnErr, IfOk, IfErr, Some};
ghost use Rattle.std.specs.Option.{option_map};
ghost use Rattle.myi_base.specs.Holding.{HoldsBytes, bytes_of, resized, overwritten};
ghost use Rattle.myi_base.specs.Holding.{Sets, Writes, Cuts, Removes, Renames};
ghost use Rattle.myi_memfiles.specs.Stored.{held, given};

use crate::failures::Failures;
use crate::memory_reader::{MemReader, copy_from};
use myi_adapters::Writable;
use myi_base::slices_are_bytes;
use myi_io::{FileErr, Files};
use std::alloc::{AllocError, Global};
use std::collections::BTreeMap;

// A file that would end past this is want of memory.
const MAX_LENGTH: u64 = (1 << 63) - 1;

type Stored = BTreeMap<String, Vec<u8>>;

fn found<'a>(files: &'a Stored, name: &str) -> &'a [u8]
    ensures { result.now ≡ bytes_of name.now (held files.now) }
{
    match files.get(name) {
        Some(bytes) => bytes.as_slice(),
        None => &[],
    }
}

// Makes the bytes exactly that long, with zeros added.
fn resize(bytes: &mut Vec<u8>, length: u64) -> Result<(), FileErr>
    ensures ok { OnOk result (bytes.new.items ≡ resized length bytes.old.items) }
    ensures err { OnErr result (bytes.new.items ≡ bytes.old.items) }
    ensures memory { IfErr result (λ e. e ≡ FileErr.Memory) }
{
    if length > MAX_LENGTH {
        return Err(FileErr::Memory);
    }
    bytes.resize(length as usize, 0)?;
    Ok(())
}

// Makes the bytes at least that long, with zeros added.
fn grow(bytes: &mut Vec<u8>, length: usize) -> Result<(), AllocError>
    ensures ok { OnOk result
        (bytes.new.items ≡ bytes.old.items ++ replicate (length - vec_len bytes.old) 0) }
    ensures err { OnErr result (bytes.new.items ≡ bytes.old.items) }
{
    if bytes.len() < length {
        bytes.resize(length, 0)?;
    }
    Ok(())
}

fn put(into: &mut [u8], at: usize, bytes: &[u8])
    requires { at + length bytes.now ≤ length into.old }
    ensures { into.new ≡ take at into.old ++ (bytes.now ++ drop (at + length bytes.now) into.old) }
{
    into[at..at + bytes.len()].copy_from_slice(bytes);
}

fn overwrite(bytes: &mut Vec<u8>, at: u64, more: &[u8]) -> Result<(), FileErr>
    ensures ok { OnOk result (bytes.new.items ≡ overwritten at more.now bytes.old.items) }
    ensures err { OnErr result (bytes.new.items ≡ bytes.old.items) }
    ensures memory { IfErr result (λ e. e ≡ FileErr.Memory) }
{
    if at > MAX_LENGTH || more.len() as u64 > MAX_LENGTH - at {
        return Err(FileErr::Memory);
    }
    let start = at as usize;
    grow(bytes, start + more.len())?;
    put(bytes, start, more);
    Ok(())
}

// Puts a file that is not there.
fn add(alloc: Global, files: &mut Stored, name: &str, bytes: Vec<u8>) -> Result<(), AllocError>
    ensures ok { OnOk result (Sets name.now bytes.items (held files.old) (held files.new)) }
    ensures err { OnErr result (held files.new ≡ held files.old) }
{
    let key = String::from_str(alloc, name)?;
    files.insert(key, bytes)?;
    Ok(())
}

fn write(alloc: Global, files: &mut Stored, name: &str, at: u64, more: &[u8]) -> Result<(), FileErr>
    ensures ok { OnOk result (Writes name.now at more.now (held files.old) (held files.new)) }
    ensures err { OnErr result (held files.new ≡ held files.old) }
    ensures memory { IfErr result (λ e. e ≡ FileErr.Memory) }
{
    if let Some(bytes) = files.get_mut(name) {
        return overwrite(bytes, at, more);
    }
    let mut bytes = Vec::new(alloc);
    overwrite(&mut bytes, at, more)?;
    add(alloc, files, name, bytes)?;
    Ok(())
}

fn cut(alloc: Global, files: &mut Stored, name: &str, length: u64) -> Result<(), FileErr>
    ensures ok { OnOk result (Cuts name.now length (held files.old) (held files.new)) }
    ensures err { OnErr result (held files.new ≡ held files.old) }
    ensures memory { IfErr result (λ e. e ≡ FileErr.Memory) }
{
    if let Some(bytes) = files.get_mut(name) {
        return resize(bytes, length);
    }
    let mut bytes = Vec::new(alloc);
    resize(&mut bytes, length)?;
    add(alloc, files, name, bytes)?;
    Ok(())
}

fn stored(alloc: Global, files: Vec<(String, Vec<u8>)>) -> Result<Stored, AllocError>
    ensures given { IfOk result (λ stored. (q : List ℕ) → held stored q ≡ given files.items q) }
    ensures bytes { IfOk result (λ stored. HoldsBytes (held stored)) }
{
    let mut stored = BTreeMap::new(alloc);
    for (name, bytes) in files {
        slices_are_bytes(&bytes);
        stored.insert(name, bytes)?;
    }
    Ok(stored)
}

fn remove_file(files: &mut Stored, name: &str)
    ensures { Removes name.now (held files.old) (held files.new) }
{
    let _ = files.remove(name);
}

fn move_to(alloc: Global, files: &mut Stored, from: &str, to: &str) -> Result<(), AllocError>
    ensures ok { OnOk result (Renames from.now to.now (held files.old) (held files.new)) }
    ensures err { OnErr result (held files.new ≡ held files.old) }
{
    match files.get(from) {
        None => Ok(()),
        Some(bytes) => {
            let bytes = bytes.to_vec(alloc)?;
            add(alloc, files, to, bytes)?;
            if from != to {
                remove_file(files, from);
            }
            Ok(())
        }
    }
}

/// Files in memory, which fail at the calls that a list names. A call on a name that is not there is
/// no failure. A file that would end past 2^63 - 1 is want of memory.
pub struct MemFiles {
    alloc: Global,
    files: Stored,
    failures: Failures,
    readers_fail: Vec<u64>,
    reads: u64,
    ghost bytes: { HoldsBytes (held files) },
}

impl Drop for MemFiles {
    fn drop(self) {
        let MemFiles {
            alloc: _,
            files: _,
            failures: _,
            readers_fail: _,
            reads: _,
        } = self;
    }
}

impl MemFiles {
    ghost use Rattle.std.specs.Prelude.{[]};
    ghost use Rattle.myi_memfiles.specs.Failures.{fresh};
    ghost use Rattle.myi_memfiles.specs.MemFiles.{files_held, files_failing, files_reads, readers_fail};

    /// These files, of which the last of a name counts. The calls with these numbers fail, counted
    /// from 1 over all calls of the object.
    pub fn new(
        alloc: Global,
        files: Vec<(String, Vec<u8>)>,
        fail: Vec<u64>,
    ) -> Result<MemFiles, AllocError>
        ensures held { IfOk result (λ all. (q : List ℕ) → files_held all q ≡ given files.items q) }
        ensures failures { IfOk result (λ all. files_failing all ≡ fresh fail.items) }
        ensures readers { IfOk result (λ all. readers_fail all ≡ []) }
        ensures reads { IfOk result (λ all. files_reads all ≡ 0) }
    {
        Ok(MemFiles {
            alloc,
            files: stored(alloc, files)?,
            failures: Failures::new(fail),
            readers_fail: Vec::new(alloc),
            reads: 0,
        })
    }

    /// Each reader that is made afterwards fails at its own calls with these numbers, counted from 1.
    pub fn fail_readers(&mut self, fail: Vec<u64>)
        ensures readers { readers_fail self.new ≡ fail.items }
        ensures held { files_held self.new ≡ files_held self.old }
        ensures failures { files_failing self.new ≡ files_failing self.old }
        ensures reads { files_reads self.new ≡ files_reads self.old }
    {
        self.readers_fail = fail;
    }
}

impl MemFiles {
    ghost use Rattle.std.specs.Prelude.{◌≡◌};
    ghost use Rattle.std.specs.Option.{option_map};
    ghost use Rattle.myi_memfiles.specs.MemFiles.{files_held};

    /// The bytes of a file, and None where no file has the name.
    pub fn get(&self, name: &str) -> Option<&[u8]>
        ensures { option_map (λ bytes. bytes.now) result ≡ files_held self.now name.now }
    {
        self.files.get(name).map(|bytes| bytes.as_slice())
    }
}

/// Beside the clauses of the trait: which calls fail (`exact`), and that a read counts once.
impl Files for MemFiles {
    type Reader = MemReader;

    ghost use Rattle.std.specs.Prelude.{◌≡◌, ◌≤◌, ◌+◌, ◌-◌, ◌^◌};
    ghost use Rattle.std.specs.Prelude.{true, length, min, OnOk, OnErr, IfOk, IfErr, Some, None};
    ghost use Rattle.myi_base.specs.Holding.{Gives, Fills, Shows, Writes};
    ghost use Rattle.myi_base.specs.Holding.{WritesPart, Cuts, CutsOrKeeps, Renames};
    ghost use Rattle.myi_base.specs.Holding.{Removes, Keeps, Measures, blocks};
    ghost use Rattle.myi_base.specs.Causes.{HasCause};
    ghost use Rattle.myi_io.specs.declared.files.FileErr.TheVariants.{Failed};
    ghost use Rattle.myi_memfiles.specs.Stored.{held};
    ghost use Rattle.myi_io.specs.Told.{same_told};
    ghost use Rattle.myi_io.specs.Counts.{raised};
    ghost use Rattle.myi_memfiles.specs.Failures.{IsCall, fresh};
    ghost use Rattle.myi_memfiles.specs.MemFiles.{files_faults, files_reads, files_failing};
    ghost use Rattle.myi_memfiles.specs.MemFiles.{readers_fail, MemTold, IfMemTold, MemSame};
    ghost use Rattle.myi_memfiles.specs.MemReader.{reader_bytes, reader_failing, reader_reads};

    ghost holds = { λ s. Some (held s.files) };

    ghost faults = { λ s. s.failures.faults };

    ghost reads = { λ s. s.reads };

    ghost writable = { true };

    fn length(&mut self, name: &str) -> Result<Option<u64>, FileErr>
        ensures told { IfOk result (λ size. IfMemTold self.old (λ m. Measures (m name.now) size)) }
        ensures holds { MemSame self.old self.new }
        ensures reads { files_reads self.new ≡ files_reads self.old }
        ensures cause { HasCause Failed (files_faults self.old) (files_faults self.new) result }
        ensures exact { IsCall Failed (files_failing self.old) result (files_failing self.new) }
        ensures readers { readers_fail self.new ≡ readers_fail self.old }
    {
        if self.failures.next_fails() {
            return Err(FileErr::Failed);
        }
        Ok(self.files.get(name).map(|bytes| bytes.len() as u64))
    }

    fn read_at(&mut self, name: &str, at: u64, into: &mut [u8]) -> Result<usize, FileErr>
        ensures bound { IfOk result (λ count. count ≤ length into.new) }
        ensures told { IfOk result (λ count.
            IfMemTold self.old (Gives name.now at into.old count)) }
        ensures bytes { OnOk result (IfMemTold self.old (Fills name.now at into.old into.new)) }
        ensures failed { IfErr result (λ e. e ≡ Failed) }
        ensures holds { MemSame self.old self.new }
        ensures reads { files_reads self.old ≤ files_reads self.new }
        ensures few { files_reads self.new ≤ files_reads self.old + blocks (length into.old) }
        ensures cause { HasCause Failed (files_faults self.old) (files_faults self.new) result }
        ensures exact { IsCall Failed (files_failing self.old) result (files_failing self.new) }
        ensures readers { readers_fail self.new ≡ readers_fail self.old }
        ensures one { files_reads self.new ≡ raised (files_reads self.old) }
    {
        self.reads = self.reads.saturating_add(1);
        if self.failures.next_fails() {
            return Err(FileErr::Failed);
        }
        Ok(copy_from(found(&self.files, name), at, into))
    }

    fn write_at(&mut self, name: &str, at: u64, bytes: &[u8]) -> Result<(), FileErr>
        ensures ok { OnOk result (MemTold self.old self.new (Writes name.now at bytes.now)) }
        ensures err { OnErr result (MemTold self.old self.new (WritesPart name.now at bytes.now)) }
        ensures reads { files_reads self.new ≡ files_reads self.old }
        ensures cause { HasCause Failed (files_faults self.old) (files_faults self.new) result }
        ensures exact { IsCall Failed (files_failing self.old) result (files_failing self.new) }
        ensures readers { readers_fail self.new ≡ readers_fail self.old }
    {
        if self.failures.next_fails() {
            return Err(FileErr::Failed);
        }
        slices_are_bytes(bytes);
        write(self.alloc, &mut self.files, name, at, bytes)?;
        Ok(())
    }

    fn cut(&mut self, name: &str, length: u64) -> Result<(), FileErr>
        ensures ok { OnOk result (MemTold self.old self.new (Cuts name.now length)) }
        ensures err { OnErr result (MemTold self.old self.new (CutsOrKeeps name.now length)) }
        ensures reads { files_reads self.new ≡ files_reads self.old }
        ensures cause { HasCause Failed (files_faults self.old) (files_faults self.new) result }
        ensures exact { IsCall Failed (files_failing self.old) result (files_failing self.new) }
        ensures readers { readers_fail self.new ≡ readers_fail self.old }
    {
        if self.failures.next_fails() {
            return Err(FileErr::Failed);
        }
        cut(self.alloc, &mut self.files, name, length)?;
        Ok(())
    }

    fn rename(&mut self, from: &str, to: &str) -> Result<(), FileErr>
        ensures ok { OnOk result (MemTold self.old self.new (Renames from.now to.now)) }
        ensures err { OnErr result (MemTold self.old self.new Keeps) }
        ensures reads { files_reads self.new ≡ files_reads self.old }
        ensures cause { HasCause Failed (files_faults self.old) (files_faults self.new) result }
        ensures exact { IsCall Failed (files_failing self.old) result (files_failing self.new) }
        ensures readers { readers_fail self.new ≡ readers_fail self.old }
    {
        if self.failures.next_fails() {
            return Err(FileErr::Failed);
        }
        move_to(self.alloc, &mut self.files, from, to)?;
        Ok(())
    }

    fn remove(&mut self, name: &str) -> Result<(), FileErr>
        ensures ok { OnOk result (MemTold self.old self.new (Removes name.now)) }
        ensures err { OnErr result (MemTold self.old self.new Keeps) }
        ensures failed { IfErr result (λ e. e ≡ Failed) }
        ensures reads { files_reads self.new ≡ files_reads self.old }
        ensures cause { HasCause Failed (files_faults self.old) (files_faults self.new) result }
        ensures exact { IsCall Failed (files_failing self.old) result (files_failing self.new) }
        ensures readers { readers_fail self.new ≡ readers_fail self.old }
    {
        if self.failures.next_fails() {
            return Err(FileErr::Failed);
        }
        remove_file(&mut self.files, name);
        Ok(())
    }

    fn reader(&mut self, name: &str) -> Result<MemReader, FileErr>
        ensures told { IfOk result (λ r.
            IfMemTold self.old (Shows name.now (Some (reader_bytes r)))) }
        ensures untold { IfOk result (λ r. Some (held self.old.files) ≡ None
            → Some (reader_bytes r) ≡ None) }
        ensures holds { MemSame self.old self.new }
        ensures reads { files_reads self.new ≡ files_reads self.old }
        ensures cause { HasCause Failed (files_faults self.old) (files_faults self.new) result }
        ensures exact { IsCall Failed (files_failing self.old) result (files_failing self.new) }
        ensures readers { readers_fail self.new ≡ readers_fail self.old }
        ensures fails { IfOk result (λ r. reader_failing r ≡ fresh (readers_fail self.old)) }
        ensures none { IfOk result (λ r. reader_reads r ≡ 0) }
    {
        if self.failures.next_fails() {
            return Err(FileErr::Failed);
        }
        let bytes = found(&self.files, name).to_vec(self.alloc)?;
        let fail = Vec::from_slice(self.alloc, &self.readers_fail)?;
        Ok(MemReader::new(bytes, fail))
    }

    fn fault_count(&self) -> u64 {
        self.failures.faults
    }

    ghost told_bytes = { λ s m told. same_told (held s.files) m s.bytes told };
}

impl Writable for MemFiles {}
