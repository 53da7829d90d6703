//! Changes of a table: each is a step of it, or breaks it where it is cut off. A refused one leaves the data file.
use crate::fault::{Cause, ChangeFault};
use crate::table::Table;
use myi_io::Files;
use myi_keyedrows::KeyedFault;
use myi_pack::Row;

impl Table {
    ghost use Rattle.std.specs.Prelude.{◌≡◌, true, IfOk, IfErr, OnOk, OnErr, IsTrue};
    ghost use Rattle.myi_base.specs.Causes.{HasCause};
    ghost use Rattle.myi_base.specs.Holding.{Told};
    ghost use Rattle.myi_pack.specs.Spelling.{fits};
    ghost use Rattle.myi_search.specs.Counting.{CountsOn};
    ghost use Rattle.myi_state.specs.Changes.{insert, insert_at_end, delete, update};
    ghost use Rattle.myi_slots.specs.SlotFile.{Adds, AddsNew, Never};
    ghost use Rattle.myi_rows.specs.Refusals.{LacksRoom, LacksEnd, LacksOther, LacksReach};
    ghost use Rattle.myi_rowtrees.specs.Duplicates.{MayRepeat};
    ghost use Rattle.myi_keyedrows.specs.KeyedRows.{IsLeft};
    ghost use Rattle.myi_keyedrows.specs.Refusals.{FindsNoneAt};
    ghost use Rattle.myi_table.specs.declared.fault.ChangeFault.TheVariants.{File};
    ghost use Rattle.myi_table.specs.Faults.{of_rows, broken_by_fault, broken_after};
    ghost use Rattle.myi_table.specs.Refusals.{ByCause};
    ghost use Rattle.myi_table.specs.Table.{defs_in, IsKept, StillHolds, Makes, Refuses, IfReply, IsBroken, IsSame, KeepsRows, ChangesItsOwn};

    // Refuses a table that a change was cut off from.
    pub(crate) fn refuse_broken(&self) -> Result<(), ChangeFault>
        ensures whole { OnOk result (self.now.broken ≡ None) }
        ensures broken { IfErr result (λ f. (cause : Cause) × (self.now.broken ≡ Some cause)
            × (f ≡ ChangeFault.Broken cause)) }
    {
        match self.broken {
            Some(cause) => Err(ChangeFault::Broken(cause)),
            None => Ok(()),
        }
    }

    // Breaks the table where a change was cut off, and tells the fault.
    fn broken_by(&mut self, faults: u64, fault: KeyedFault) -> ChangeFault
        ensures told { result ≡ of_rows fault }
        ensures left { self.new ≡ record self.old {
          broken = broken_by_fault result faults self.old.broken;
        } }
    {
        match fault {
            KeyedFault::File => self.broken = Some(Cause::File(faults)),
            KeyedFault::Memory => self.broken = Some(Cause::Memory),
            _ => {}
        }
        ChangeFault::from(fault)
    }

    /// Puts a new row into the first deleted slot, or into deleted blocks and behind the end what they do not hold,
    /// and answers its position. Where the table stands for a state the answer, also a refusal, is the reply of the
    /// step.
    pub fn insert<F: Files>(&mut self, files: &mut F, row: &Row) -> Result<u64, ChangeFault>
        requires writable { IsTrue F.writable }
        requires fits { fits (defs_in self.old) row.now ≡ true }
        requires kept { IsKept (F.holds files.old) self.old }
        ensures made { IfOk result (Makes (insert row.now) (F.holds files.old) (F.holds files.new)
            self.old self.new) }
        ensures appended { OnOk result (Told (F.holds files.old) (F.holds files.new)
            (AddsNew self.old.rows.rows.file self.new.rows.rows.file row.now)) }
        ensures refused { IfErr result (Refuses (insert row.now) (F.holds files.old) self.old) }
        ensures causes { IfErr result (ByCause Never (MayRepeat (defs_in self.old) row.now)
            (LacksRoom self.old.rows.rows.file row.now (F.holds files.old))) }
        ensures left { IfErr result (λ f. IfReply f (IsLeft self.old.rows self.new.rows)) }
        ensures unchanged { IfErr result (λ f. IfReply f
            (StillHolds (F.holds files.old) (F.holds files.new) self.old self.new)) }
        ensures rows { IfErr result (λ f. IfReply f
            (Told (F.holds files.old) (F.holds files.new) (KeepsRows self.old.name))) }
        ensures whole { OnOk result (self.old.broken ≡ None) }
        ensures first { IfErr result (IsBroken self.old self.new
            (F.holds files.old) (F.holds files.new)) }
        ensures broken { self.new.broken
            ≡ broken_after result (F.faults files.new) self.old.broken }
        ensures changed { OnOk result (self.new.changed ≡ true) }
        ensures unmarked { OnErr result (self.new.changed ≡ self.old.changed) }
        ensures kept { IsKept (F.holds files.new) self.new }
        ensures same { IsSame self.old self.new }
        ensures others { ChangesItsOwn (F.holds files.old) (F.holds files.new) self.old }
        ensures counted { CountsOn self.old.rows.trees.cache self.new.rows.trees.cache }
        ensures cause { HasCause File (F.faults files.old) (F.faults files.new) result }
    {
        self.refuse_broken()?;
        let made = self.rows.insert(self.alloc, files, &self.defs, row);
        match made {
            Ok(at) => {
                self.changed = true;
                Ok(at)
            }
            Err(fault) => Err(self.broken_by(files.fault_count(), fault)),
        }
    }

    /// Puts a new row behind the end, whatever is deleted, and answers its position. Where the table stands for a
    /// state the answer, also a refusal, is the reply of the step.
    pub fn insert_at_end<F: Files>(&mut self, files: &mut F, row: &Row) -> Result<u64, ChangeFault>
        requires writable { IsTrue F.writable }
        requires fits { fits (defs_in self.old) row.now ≡ true }
        requires kept { IsKept (F.holds files.old) self.old }
        ensures made { IfOk result (Makes (insert_at_end row.now) (F.holds files.old)
            (F.holds files.new) self.old self.new) }
        ensures appended { OnOk result (Told (F.holds files.old) (F.holds files.new)
            (Adds self.old.rows.rows.file self.new.rows.rows.file row.now)) }
        ensures refused { IfErr result (Refuses (insert_at_end row.now) (F.holds files.old)
            self.old) }
        ensures causes { IfErr result (ByCause Never (MayRepeat (defs_in self.old) row.now)
            (LacksEnd self.old.rows.rows.file row.now)) }
        ensures left { IfErr result (λ f. IfReply f (IsLeft self.old.rows self.new.rows)) }
        ensures unchanged { IfErr result (λ f. IfReply f
            (StillHolds (F.holds files.old) (F.holds files.new) self.old self.new)) }
        ensures rows { IfErr result (λ f. IfReply f
            (Told (F.holds files.old) (F.holds files.new) (KeepsRows self.old.name))) }
        ensures whole { OnOk result (self.old.broken ≡ None) }
        ensures first { IfErr result (IsBroken self.old self.new
            (F.holds files.old) (F.holds files.new)) }
        ensures broken { self.new.broken
            ≡ broken_after result (F.faults files.new) self.old.broken }
        ensures changed { OnOk result (self.new.changed ≡ true) }
        ensures unmarked { OnErr result (self.new.changed ≡ self.old.changed) }
        ensures kept { IsKept (F.holds files.new) self.new }
        ensures same { IsSame self.old self.new }
        ensures others { ChangesItsOwn (F.holds files.old) (F.holds files.new) self.old }
        ensures counted { CountsOn self.old.rows.trees.cache self.new.rows.trees.cache }
        ensures cause { HasCause File (F.faults files.old) (F.faults files.new) result }
    {
        self.refuse_broken()?;
        let made = self.rows.insert_at_end(self.alloc, files, &self.defs, row);
        match made {
            Ok(at) => {
                self.changed = true;
                Ok(at)
            }
            Err(fault) => Err(self.broken_by(files.fault_count(), fault)),
        }
    }

    /// Takes the row at a position away. Where the table stands for a state the answer, also a refusal, is the reply
    /// of the step.
    pub fn delete<F: Files>(&mut self, files: &mut F, at: u64) -> Result<(), ChangeFault>
        requires writable { IsTrue F.writable }
        requires kept { IsKept (F.holds files.old) self.old }
        ensures made { OnOk result (Makes (delete at) (F.holds files.old) (F.holds files.new)
            self.old self.new at) }
        ensures refused { IfErr result (Refuses (delete at) (F.holds files.old) self.old) }
        ensures causes { IfErr result (ByCause (FindsNoneAt self.old.rows.rows.file
            self.new.rows.rows.places at (F.holds files.old)) Never
            (LacksReach self.old.rows.rows.file self.new.rows.rows.places at)) }
        ensures left { IfErr result (λ f. IfReply f (IsLeft self.old.rows self.new.rows)) }
        ensures unchanged { IfErr result (λ f. IfReply f
            (StillHolds (F.holds files.old) (F.holds files.new) self.old self.new)) }
        ensures rows { IfErr result (λ f. IfReply f
            (Told (F.holds files.old) (F.holds files.new) (KeepsRows self.old.name))) }
        ensures whole { OnOk result (self.old.broken ≡ None) }
        ensures first { IfErr result (IsBroken self.old self.new
            (F.holds files.old) (F.holds files.new)) }
        ensures broken { self.new.broken
            ≡ broken_after result (F.faults files.new) self.old.broken }
        ensures changed { OnOk result (self.new.changed ≡ true) }
        ensures unmarked { OnErr result (self.new.changed ≡ self.old.changed) }
        ensures kept { IsKept (F.holds files.new) self.new }
        ensures same { IsSame self.old self.new }
        ensures others { ChangesItsOwn (F.holds files.old) (F.holds files.new) self.old }
        ensures counted { CountsOn self.old.rows.trees.cache self.new.rows.trees.cache }
        ensures cause { HasCause File (F.faults files.old) (F.faults files.new) result }
    {
        self.refuse_broken()?;
        let made = self.rows.delete(self.alloc, files, &self.defs, at);
        match made {
            Ok(()) => {
                self.changed = true;
                Ok(())
            }
            Err(fault) => Err(self.broken_by(files.fault_count(), fault)),
        }
    }

    /// Gives the row at a position, which it keeps, other values. Its own key does not count as that of another row.
    /// Where the table stands for a state the answer, also a refusal, is the reply of the step.
    pub fn update<F: Files>(&mut self, files: &mut F, at: u64, row: &Row) -> Result<(), ChangeFault>
        requires writable { IsTrue F.writable }
        requires fits { fits (defs_in self.old) row.now ≡ true }
        requires kept { IsKept (F.holds files.old) self.old }
        ensures made { OnOk result (Makes (update at row.now) (F.holds files.old)
            (F.holds files.new) self.old self.new at) }
        ensures refused { IfErr result (Refuses (update at row.now) (F.holds files.old) self.old) }
        ensures causes { IfErr result (ByCause (FindsNoneAt self.old.rows.rows.file
            self.new.rows.rows.places at (F.holds files.old))
            (MayRepeat (defs_in self.old) row.now)
            (LacksOther self.old.rows.rows.file self.new.rows.rows.places at row.now
            (F.holds files.old))) }
        ensures left { IfErr result (λ f. IfReply f (IsLeft self.old.rows self.new.rows)) }
        ensures unchanged { IfErr result (λ f. IfReply f
            (StillHolds (F.holds files.old) (F.holds files.new) self.old self.new)) }
        ensures rows { IfErr result (λ f. IfReply f
            (Told (F.holds files.old) (F.holds files.new) (KeepsRows self.old.name))) }
        ensures whole { OnOk result (self.old.broken ≡ None) }
        ensures first { IfErr result (IsBroken self.old self.new
            (F.holds files.old) (F.holds files.new)) }
        ensures broken { self.new.broken
            ≡ broken_after result (F.faults files.new) self.old.broken }
        ensures changed { OnOk result (self.new.changed ≡ true) }
        ensures unmarked { OnErr result (self.new.changed ≡ self.old.changed) }
        ensures kept { IsKept (F.holds files.new) self.new }
        ensures same { IsSame self.old self.new }
        ensures others { ChangesItsOwn (F.holds files.old) (F.holds files.new) self.old }
        ensures counted { CountsOn self.old.rows.trees.cache self.new.rows.trees.cache }
        ensures cause { HasCause File (F.faults files.old) (F.faults files.new) result }
    {
        self.refuse_broken()?;
        let made = self.rows.update(self.alloc, files, &self.defs, at, row);
        match made {
            Ok(()) => {
                self.changed = true;
                Ok(())
            }
            Err(fault) => Err(self.broken_by(files.fault_count(), fault)),
        }
    }
}
