//! `KeyCache`: the pages of one file.
//!
//! The pages stand in `Blocks`, which keeps the lists. Here they are read, put and written: a page that is not
//! there is read into a buffer, then the page that is to leave is written, and only then is the new one taken in,
//! so that a refusal leaves the lists.
ghost use Rattle.std.specs.Prelude.{◌≡◌, ◌≤◌, ◌<◌, ◌⊎◌, ◌+◌, ◌^◌, ℕ, true, Some, None, length, position};
ghost use Rattle.std.specs.Prelude.{nat_le, vec_len, IfErr, IsSome, OnOk, OnErr, IsOk, IsTrue};
ghost use Rattle.myi_base.specs.Holding.{IfTold};
ghost use Rattle.myi_base.specs.Causes.{HasCause};
ghost use Rattle.myi_keycache.specs.declared.setup.CacheFault.TheVariants.{Short, File, Memory};
ghost use Rattle.myi_keycache.specs.Kept.{is_kept, AllWritten, WrittenUpTo};
ghost use Rattle.myi_keycache.specs.Lent.{Has};
ghost use Rattle.myi_keycache.specs.Caching.{due, WritesOne};
ghost use Rattle.myi_keycache.specs.Flushing.{FlushWrites};
ghost use Rattle.myi_keycache.specs.Order.{contents_of, unwritten_at, due_in, counts_one, has_name, cache_of, IsAt};
ghost use Rattle.myi_keycache.specs.Order.{Pairs, Differ, Split, with_page, as_written, IsFirstWritten};
ghost use Rattle.myi_keycache.specs.Order.{PagesStay, WritesOnly, WroteOut, Finds, Stores};

use crate::blocks::{Blocks, PageName};
use crate::setup::{CacheFault, CacheSetup, Counters};
use myi_io::Files;
use std::alloc::{AllocError, Global};
use std::marker::Model;

// Fills the slice with the bytes of a file from a place on.
fn fill<F: Files>(files: &mut F, name: &str, at: u64, into: &mut [u8]) -> Result<(), CacheFault>
    requires { length into.old ≤ 16384 }
    ensures page { OnOk result (IfTold (F.holds files.old)
        (Has name.now at (length into.old) (Some into.new))) }
    ensures short { IfErr result (λ e. (p : ℕ) → e ≡ Short p
        → (p ≡ at) × IfTold (F.holds files.old) (Has name.now at (length into.old) None)) }
    ensures holds { F.holds files.new ≡ F.holds files.old }
    ensures cause { HasCause File (F.faults files.old) (F.faults files.new) result }
    ensures reads { F.reads files.old ≤ F.reads files.new }
    ensures once { F.reads files.new ≤ F.reads files.old + 1 }
{
    let size = into.len();
    let count = files.read_at(name, at, into)?;
    if count < size {
        return Err(CacheFault::Short { at });
    }
    Ok(())
}

// Reads the page of a place and a length into a buffer, which is then that page.
fn read_page<F: Files>(
    files: &mut F,
    name: &str,
    at: u64,
    size: usize,
    into: &mut Vec<u8>,
) -> Result<(), CacheFault>
    requires { size ≤ 16384 }
    ensures page { OnOk result (IfTold (F.holds files.old)
        (Has name.now at size (Some into.new.items))) }
    ensures long { OnOk result (vec_len into.new ≡ size) }
    ensures short { IfErr result (λ e. (p : ℕ) → e ≡ Short p
        → (p ≡ at) × IfTold (F.holds files.old) (Has name.now at size None)) }
    ensures holds { F.holds files.new ≡ F.holds files.old }
    ensures cause { HasCause File (F.faults files.old) (F.faults files.new) result }
    ensures reads { F.reads files.old ≤ F.reads files.new }
    ensures once { F.reads files.new ≤ F.reads files.old + 1 }
{
    into.resize(size, 0)?;
    fill(files, name, at, into)?;
    Ok(())
}

// Writes a page of a cache, where it is unwritten.
fn write_page<F: Files>(
    files: &mut F,
    name: &str,
    blocks: &mut Blocks,
    counters: &mut Counters,
    page: PageName,
) -> Result<(), CacheFault>
    requires kept { IsSome (position (has_name page.at page.size) blocks.old.pages) }
    requires writable { IsTrue F.writable ⊎ AllWritten (contents_of blocks.old.pages) }
    requires writes { counters.old.writes < 2 ^ 64 }
    ensures ok { OnOk result ((i : ℕ) → IsAt blocks.old page i → (s : Split blocks.old.pages i)
        → blocks.new ≡ record blocks.old { pages = with_page s (as_written s.page) }) }
    ensures err { OnErr result (blocks.new ≡ blocks.old) }
    ensures stay { PagesStay blocks.old blocks.new }
    ensures writes { WritesOnly (F.holds files.old) (F.holds files.new)
        (cache_of name.now blocks.old counters.old) (cache_of name.now blocks.new counters.new) }
    ensures one { (i : ℕ) → IsAt blocks.old page i
        → WritesOne (F.holds files.old) (F.holds files.new) name.now
        (unwritten_at blocks.old i) result }
    ensures quiet { (i : ℕ) → IsAt blocks.old page i
        → unwritten_at blocks.old i ≡ None → files.new ≡ files.old }
    ensures counted { OnOk result ((i : ℕ) → IsAt blocks.old page i
        → counters.new ≡ counts_one (unwritten_at blocks.old i) counters.old) }
    ensures uncounted { OnErr result (counters.new ≡ counters.old) }
    ensures faults { IfErr result (λ e. (e ≡ File) ⊎ (e ≡ Memory)) }
    ensures cause { HasCause File (F.faults files.old) (F.faults files.new) result }
    ensures reads { F.reads files.new ≡ F.reads files.old }
{
    if !blocks.is_unwritten(page) {
        return Ok(());
    }
    files.write_at(name, page.at, blocks.page(page))?;
    blocks.set_written(page);
    counters.count_write();
    Ok(())
}

// Writes the page of a cache that leaves next, where all blocks are used.
fn make_room<F: Files>(
    files: &mut F,
    name: &str,
    blocks: &mut Blocks,
    counters: &mut Counters,
) -> Result<(), CacheFault>
    requires writable { IsTrue F.writable ⊎ AllWritten (contents_of blocks.old.pages) }
    requires writes { counters.old.writes < 2 ^ 64 }
    ensures ok { OnOk result (nat_le blocks.new.setup.blocks (length blocks.new.pages) ≡ true
        → IsFirstWritten (contents_of blocks.new.pages)) }
    ensures err { OnErr result (blocks.new ≡ blocks.old) }
    ensures wrote { OnOk result (WroteOut (due_in blocks.old)
        (contents_of blocks.old.pages) (contents_of blocks.new.pages)) }
    ensures uncounted { OnErr result (counters.new ≡ counters.old) }
    ensures stay { PagesStay blocks.old blocks.new }
    ensures writes { WritesOnly (F.holds files.old) (F.holds files.new)
        (cache_of name.now blocks.old counters.old) (cache_of name.now blocks.new counters.new) }
    ensures one { WritesOne (F.holds files.old) (F.holds files.new) name.now
        (due_in blocks.old) result }
    ensures quiet { due_in blocks.old ≡ None → files.new ≡ files.old }
    ensures counted { OnOk result (counters.new ≡ counts_one (due_in blocks.old) counters.old) }
    ensures faults { IfErr result (λ e. (e ≡ File) ⊎ (e ≡ Memory)) }
    ensures cause { HasCause File (F.faults files.old) (F.faults files.new) result }
    ensures reads { F.reads files.new ≡ F.reads files.old }
{
    if blocks.is_full() {
        let first = blocks.first();
        write_page(files, name, blocks, counters, first)?;
    }
    Ok(())
}

// A get of a page that is not kept: reads it, and takes it in.
fn load<F: Files>(
    files: &mut F,
    name: &str,
    blocks: &mut Blocks,
    buffer: &mut Vec<u8>,
    counters: &mut Counters,
    page: PageName,
) -> Result<(), CacheFault>
    requires limit { page.size ≤ 16384 }
    requires none { position (has_name page.at page.size) blocks.old.pages ≡ None }
    requires differ { Pairs Differ (contents_of blocks.old.pages) }
    requires writable { IsTrue F.writable ⊎ AllWritten (contents_of blocks.old.pages) }
    requires writes { counters.old.writes < 2 ^ 64 }
    ensures finds { Finds (F.holds files.old) (F.holds files.new) page.at page.size result
        (cache_of name.now blocks.old counters.old) (cache_of name.now blocks.new counters.new) }
    ensures cause { HasCause File (F.faults files.old) (F.faults files.new) result }
    ensures reads { F.reads files.old ≤ F.reads files.new }
    ensures once { F.reads files.new ≤ F.reads files.old + 1 }
{
    read_page(files, name, page.at, page.size, buffer)?;
    make_room(files, name, blocks, counters)?;
    blocks.take_in(page.at, buffer, false)?;
    counters.count_get(true);
    Ok(())
}

// A get of a page, which is then kept.
fn find<F: Files>(
    files: &mut F,
    name: &str,
    blocks: &mut Blocks,
    buffer: &mut Vec<u8>,
    counters: &mut Counters,
    page: PageName,
) -> Result<(), CacheFault>
    requires limit { page.size ≤ 16384 }
    requires writable { IsTrue F.writable ⊎ AllWritten (contents_of blocks.old.pages) }
    requires writes { counters.old.writes < 2 ^ 64 }
    ensures finds { Finds (F.holds files.old) (F.holds files.new) page.at page.size result
        (cache_of name.now blocks.old counters.old) (cache_of name.now blocks.new counters.new) }
    ensures hit { is_kept (contents_of blocks.old.pages) page.at page.size ≡ true
        → IsOk result × (files.new ≡ files.old) }
    ensures cause { HasCause File (F.faults files.old) (F.faults files.new) result }
    ensures reads { F.reads files.old ≤ F.reads files.new }
    ensures once { F.reads files.new ≤ F.reads files.old + 1 }
{
    if !blocks.is_kept(page) {
        return load(files, name, blocks, buffer, counters, page);
    }
    blocks.hit(page);
    counters.count_get(false);
    Ok(())
}

// A put of the page in the buffer, which is not kept: takes it in.
fn store<F: Files>(
    files: &mut F,
    name: &str,
    blocks: &mut Blocks,
    buffer: &mut Vec<u8>,
    counters: &mut Counters,
    at: u64,
) -> Result<(), CacheFault>
    requires none { position (has_name at (length buffer.old.items)) blocks.old.pages ≡ None }
    requires differ { Pairs Differ (contents_of blocks.old.pages) }
    requires writable { IsTrue F.writable }
    requires writes { counters.old.writes < 2 ^ 64 }
    ensures quiet { due (cache_of name.now blocks.old counters.old) at
        (length buffer.old.items) ≡ None → files.new ≡ files.old }
    ensures stores { Stores (F.holds files.old) (F.holds files.new) at buffer.old.items result
        (cache_of name.now blocks.old counters.old) (cache_of name.now blocks.new counters.new) }
    ensures faults { IfErr result (λ e. (e ≡ File) ⊎ (e ≡ Memory)) }
    ensures cause { HasCause File (F.faults files.old) (F.faults files.new) result }
    ensures reads { F.reads files.new ≡ F.reads files.old }
{
    make_room(files, name, blocks, counters)?;
    blocks.take_in(at, buffer, true)?;
    counters.count_put();
    Ok(())
}

// Writes all unwritten pages of a cache, in order of place.
fn write_all<F: Files>(
    files: &mut F,
    name: &str,
    blocks: &mut Blocks,
    counters: &mut Counters,
) -> Result<(), CacheFault>
    requires writable { IsTrue F.writable }
    requires writes { counters.old.writes < 2 ^ 64 }
    ensures written { OnOk result (AllWritten (contents_of blocks.new.pages)) }
    ensures in_order { OnErr result
        (WrittenUpTo (contents_of blocks.old.pages) (contents_of blocks.new.pages)) }
    ensures stay { PagesStay blocks.old blocks.new }
    ensures writes { WritesOnly (F.holds files.old) (F.holds files.new)
        (cache_of name.now blocks.old counters.old) (cache_of name.now blocks.new counters.new) }
    ensures turns { FlushWrites (F.holds files.old) (F.holds files.new) result
        (cache_of name.now blocks.old counters.old) (cache_of name.now blocks.new counters.new) }
    ensures quiet { AllWritten (contents_of blocks.old.pages) → files.new ≡ files.old }
    ensures faults { IfErr result (λ e. (e ≡ File) ⊎ (e ≡ Memory)) }
    ensures cause { HasCause File (F.faults files.old) (F.faults files.new) result }
    ensures reads { F.reads files.new ≡ F.reads files.old }
{
    let found = blocks.unwritten()?;
    for i in 0..found.len() {
        write_page(files, name, blocks, counters, found[i])?;
    }
    Ok(())
}

/// A cache of pages of one file.
pub struct KeyCache {
    name: String,
    blocks: Blocks,
    /// A buffer for the next page.
    buffer: Vec<u8>,
    counters: Counters,
}

impl Drop for KeyCache {
    fn drop(self) {
        let KeyCache {
            name: _,
            blocks: _,
            buffer: _,
            counters: _,
        } = self;
    }
}

impl Model for KeyCache {
    ghost use Rattle.std.specs.Prelude.{◌≤◌, ◌<◌, ◌^◌, take, drop, string_bytes};
    ghost use Rattle.myi_keycache.specs.Caching.{Caching};

    ghost Value = { Caching };

    ghost view = { λ c. record {
      name = string_bytes c.name;
      setup = c.blocks.setup;
      warm = take c.blocks.warm c.blocks.pages;
      hot = drop c.blocks.warm c.blocks.pages;
      accesses = c.blocks.accesses;
      counters = c.counters;
    } };

    ghost invariant = { λ c.
        (c.counters.reads ≤ c.counters.read_requests) × (c.counters.writes < 2 ^ 64) };
}

impl KeyCache {
    ghost use Rattle.std.specs.Prelude.{◌≡◌, ◌≤◌, ◌⊎◌, ◌+◌, ℕ, [], Some, None, true, length};
    ghost use Rattle.std.specs.Prelude.{IfOk, IfErr, IsOk, IsTrue, OnOk, OnErr};
    ghost use Rattle.std.specs.Option.{option_len};
    ghost use Rattle.std.specs.Borrow.{sem};
    ghost use Rattle.std.specs.Io.BufRead.{Rests};
    ghost use Rattle.myi_base.specs.Holding.{Holding, IfTold, Told, OthersStay};
    ghost use Rattle.myi_base.specs.Causes.{HasCause};
    ghost use Rattle.myi_keycache.specs.declared.setup.CacheFault.TheVariants.{Short, File, Memory};
    ghost use Rattle.myi_keycache.specs.Setup.{IsSetup};
    ghost use Rattle.myi_keycache.specs.Kept.{kept, is_kept, is_unwritten, AddsOnly, SameKept};
    ghost use Rattle.myi_keycache.specs.Kept.{KeepsOthers, KeepsOtherFlags, ChangesNone, AllWritten};
    ghost use Rattle.myi_keycache.specs.Kept.{WrittenUpTo};
    ghost use Rattle.myi_keycache.specs.Counts.{no_counts, raised, puts_counted, flushes_counted};
    ghost use Rattle.myi_keycache.specs.Midpoint.{AreLists};
    ghost use Rattle.myi_keycache.specs.Caching.{pages_of, lists_of, IsAccess, IsLent, IsRead, IsCurrent};
    ghost use Rattle.myi_keycache.specs.Caching.{CanPut, Puts, Stays, Flushes, Gets, due, WritesOne, AllOrNone};
    ghost use Rattle.myi_keycache.specs.Flushing.{FlushWrites};
    ghost use Rattle.myi_keycache.specs.contracts.cache.KeyCache.{the_row};

    /// A cache of the file of that name, which keeps no page yet. Any file is current for it.
    pub fn new(alloc: Global, name: &str, setup: CacheSetup) -> Result<KeyCache, AllocError>
        requires { IsSetup setup }
        ensures name { IfOk result (λ cache. cache.name ≡ name.now) }
        ensures setup { IfOk result (λ cache. cache.setup ≡ setup) }
        ensures pages { IfOk result (λ cache. pages_of cache ≡ []) }
        ensures accesses { IfOk result (λ cache. cache.accesses ≡ 0) }
        ensures counters { IfOk result (λ cache. cache.counters ≡ no_counts) }
        ensures current { IfOk result (λ cache. (m : Holding) → IsCurrent cache m) }
    {
        Ok(KeyCache {
            name: String::from_str(alloc, name)?,
            blocks: Blocks::new(alloc, setup)?,
            buffer: Vec::new(alloc),
            counters: Counters::none(),
        })
    }

    /// The page of a place and a length in bytes, lent as the file with all earlier puts has it: the bytes that
    /// are kept for it, or else those that the file has. `Short` says that it is not kept, and that the file
    /// ends before its end. After a refusal the same is lent as before, and nothing was counted but what was
    /// written. What is said of bytes that are lent holds where the file is as the last call of this cache left
    /// it and no other unwritten page meets the range. At any answer no page but the one that leaves changes
    /// its flag, and after a refusal that one was written whole and counted, or is unwritten as before.
    pub fn get<F: Files>(
        &mut self,
        files: &mut F,
        at: u64,
        size: usize,
    ) -> Result<&[u8], CacheFault>
        requires limit { size ≤ 16384 }
        requires writable { IsTrue F.writable ⊎ AllWritten (pages_of self.old) }
        ensures page { IfOk result (λ page. IfTold (F.holds files.old)
            (IsLent self.old at size (Some page.now))) }
        ensures long { IfOk result (λ page. length page.now ≡ size) }
        ensures short { IfErr result (λ e. (p : ℕ) → e ≡ Short p
            → (p ≡ at) × IfTold (F.holds files.old) (IsLent self.old at size None)) }
        ensures read { IfOk result (λ page.
            IsRead (F.holds files.old) self.old at size (Some page.now)) }
        ensures ended { IfErr result (λ e. (p : ℕ) → e ≡ Short p
            → IsRead (F.holds files.old) self.old at size None) }
        ensures clean { AllWritten (pages_of self.old) → F.holds files.new ≡ F.holds files.old }
        ensures hit { is_kept (pages_of self.old) at size ≡ true
            → IsOk result × (files.new ≡ files.old) }
        ensures one { WritesOne (F.holds files.old) (F.holds files.new) self.old.name
            (due self.old at size) result }
        ensures read_first { IfErr result (λ e. (p : ℕ) → e ≡ Short p
            → F.holds files.new ≡ F.holds files.old) }
        ensures cause { HasCause File (F.faults files.old) (F.faults files.new) result }
        ensures reads { F.reads files.old ≤ F.reads files.new }
        ensures once { F.reads files.new ≤ F.reads files.old + 1 }
        ensures* after { sem 𝓛 (Rests the_row self.entry
            (Gets (F.holds files.old) (F.holds files.new) at size result self.old)) }
    {
        let page = PageName { at, size };
        find(
            files,
            self.name.as_str(),
            &mut self.blocks,
            &mut self.buffer,
            &mut self.counters,
            page,
        )?;
        Ok(self.blocks.page(page))
    }

    /// Puts these bytes as the page of a place, whose length is theirs, and keeps it. Of other pages no bytes
    /// change, and none but the one that leaves changes its flag. After a refusal the same is lent as before, the
    /// same pages are kept, and that one was written whole and counted, or is unwritten as before. What is said of bytes that are lent holds where the file is as the last call of this cache left it
    /// and no other page that is kept meets the range.
    pub fn put<F: Files>(&mut self, files: &mut F, at: u64, bytes: &[u8]) -> Result<(), CacheFault>
        requires limit { length bytes.now ≤ 16384 }
        requires writable { IsTrue F.writable }
        ensures ok { OnOk result (Told (F.holds files.old) (F.holds files.new)
            (λ m n. CanPut self.old m at (length bytes.now)
            → Puts at bytes.now self.old self.new m n)) }
        ensures err { OnErr result (Told (F.holds files.old) (F.holds files.new)
            (λ m n. IsCurrent self.old m → Stays self.old self.new m n)) }
        ensures others { Told (F.holds files.old) (F.holds files.new) (OthersStay self.old.name) }
        ensures kept { OnErr result (SameKept (pages_of self.old) (pages_of self.new)) }
        ensures added { AddsOnly at (length bytes.now) (pages_of self.old) (pages_of self.new) }
        ensures there { OnOk result
            (kept (pages_of self.new) at (length bytes.now) ≡ Some bytes.now) }
        ensures to_write { OnOk result
            (is_unwritten (pages_of self.new) at (length bytes.now) ≡ true) }
        ensures keeps { KeepsOthers at (length bytes.now)
            (pages_of self.old) (pages_of self.new) }
        ensures unwritten { OnErr result (ChangesNone (pages_of self.old) (pages_of self.new)) }
        ensures name { self.new.name ≡ self.old.name }
        ensures setup { self.new.setup ≡ self.old.setup }
        ensures access { IsAccess result at (length bytes.now) self.old self.new }
        ensures counters { self.new.counters ≡ puts_counted result at (length bytes.now)
            (pages_of self.old) (pages_of self.new) self.old.counters }
        ensures written { OnOk result (self.new.counters.writes
            ≡ raised (option_len (due self.old at (length bytes.now))) self.old.counters.writes) }
        ensures one { WritesOne (F.holds files.old) (F.holds files.new) self.old.name
            (due self.old at (length bytes.now)) result }
        ensures flags { KeepsOtherFlags (due self.old at (length bytes.now)) at (length bytes.now)
            (pages_of self.old) (pages_of self.new) }
        ensures refusal { OnErr result (AllOrNone (F.holds files.old) (F.holds files.new)
            (due self.old at (length bytes.now)) self.old self.new) }
        ensures quiet { due self.old at (length bytes.now) ≡ None → files.new ≡ files.old }
        ensures hit { is_kept (pages_of self.old) at (length bytes.now) ≡ true
            → IsOk result × (files.new ≡ files.old) }
        ensures faults { IfErr result (λ e. (e ≡ File) ⊎ (e ≡ Memory)) }
        ensures cause { HasCause File (F.faults files.old) (F.faults files.new) result }
        ensures reads { F.reads files.new ≡ F.reads files.old }
    {
        let page = PageName {
            at,
            size: bytes.len(),
        };
        if !self.blocks.is_kept(page) {
            self.buffer.clear();
            self.buffer.extend_from_slice(bytes)?;
            store(
                files,
                self.name.as_str(),
                &mut self.blocks,
                &mut self.buffer,
                &mut self.counters,
                at,
            )?;
            return Ok(());
        }
        self.blocks.overwrite(page, bytes);
        self.blocks.hit(page);
        self.counters.count_put();
        Ok(())
    }

    /// Writes all unwritten pages in order of place and nothing else, so that the file has what was put. After a
    /// refusal a first part of them is written and no more than a part of the next, the pages are still kept, and
    /// the rest is still unwritten. That the same is lent, and that the file has all that was put, holds where the
    /// file is as the last call of this cache left it. Pages of one place may be written in any order, also where
    /// the files tell what they hold.
    pub fn flush<F: Files>(&mut self, files: &mut F) -> Result<(), CacheFault>
        requires writable { IsTrue F.writable }
        ensures ok { OnOk result (Told (F.holds files.old) (F.holds files.new)
            (λ m n. IsCurrent self.old m → Flushes self.old self.new m n)) }
        ensures err { OnErr result (Told (F.holds files.old) (F.holds files.new)
            (λ m n. IsCurrent self.old m → Stays self.old self.new m n)) }
        ensures others { Told (F.holds files.old) (F.holds files.new) (OthersStay self.old.name) }
        ensures written { OnOk result (AllWritten (pages_of self.new)) }
        ensures in_order { OnErr result (WrittenUpTo (pages_of self.old) (pages_of self.new)) }
        ensures writes { FlushWrites (F.holds files.old) (F.holds files.new) result
            self.old self.new }
        ensures quiet { AllWritten (pages_of self.old) → files.new ≡ files.old }
        ensures kept { SameKept (pages_of self.old) (pages_of self.new) }
        ensures unwritten { ChangesNone (pages_of self.old) (pages_of self.new) }
        ensures lists { lists_of self.new ≡ lists_of self.old }
        ensures clean { AllWritten (pages_of self.old) → F.holds files.new ≡ F.holds files.old }
        ensures name { self.new.name ≡ self.old.name }
        ensures setup { self.new.setup ≡ self.old.setup }
        ensures counters { self.new.counters
            ≡ flushes_counted (pages_of self.old) (pages_of self.new) self.old.counters }
        ensures faults { IfErr result (λ e. (e ≡ File) ⊎ (e ≡ Memory)) }
        ensures cause { HasCause File (F.faults files.old) (F.faults files.new) result }
        ensures reads { F.reads files.new ≡ F.reads files.old }
    {
        write_all(
            files,
            self.name.as_str(),
            &mut self.blocks,
            &mut self.counters,
        )?;
        Ok(())
    }

    /// How often the cache was asked, and how often it went to the file. On the lists of a cache no page stands
    /// twice, and there are no more than it may keep.
    pub fn counters(&self) -> Counters
        ensures counters { result ≡ self.now.counters }
        ensures fewer { result.reads ≤ result.read_requests }
        ensures lists { AreLists self.now.setup (lists_of self.now) }
    {
        self.blocks.are_ordered();
        self.counters
    }
}
