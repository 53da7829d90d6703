//! Putting rows behind the end of a table, one after the other.
use crate::fault::ChangeFault;
use crate::table::Table;
use myi_io::Files;
use myi_pack::Row;
use myi_tablestate::keyed_refusals_come_in_order;

impl Table {
    ghost use Rattle.std.specs.Prelude.{◌≡◌, ◌<◌, true, None, length, All, Any, IfErr, OnOk, IsTrue};
    ghost use Rattle.myi_base.specs.Causes.{HasCause};
    ghost use Rattle.myi_pack.specs.Packed.{Values};
    ghost use Rattle.myi_pack.specs.Spelling.{fits};
    ghost use Rattle.myi_search.specs.Counting.{CountsOn};
    ghost use Rattle.myi_slots.specs.SlotFile.{Never};
    ghost use Rattle.myi_tablestate.specs.Keyed.{after_keyed};
    ghost use Rattle.myi_rowtrees.specs.Duplicates.{MayRepeat};
    ghost use Rattle.myi_table.specs.declared.fault.ChangeFault.TheVariants.{File};
    ghost use Rattle.myi_table.specs.Faults.{CutsOff, broken_after};
    ghost use Rattle.myi_table.specs.Folding.{appended, CanFold};
    ghost use Rattle.myi_table.specs.Refusals.{ByCause};
    ghost use Rattle.myi_table.specs.Table.{defs_in, IsKept, IfHolds, HoldsThen, IsBroken, IsSame, ChangesItsOwn};

    /// Puts new rows behind the end in their order, whatever is deleted. Where the table stands for a state each of them
    /// is one that is accepted there (`can`), and nothing but a failed file call or want of memory is in the way.
    pub fn fold<F: Files>(&mut self, files: &mut F, rows: &[Row]) -> Result<(), ChangeFault>
        requires writable { IsTrue F.writable }
        requires fits { All (λ (row : Values). fits (defs_in self.old) row ≡ true) rows.now }
        requires kept { IsKept (F.holds files.old) self.old }
        requires can { IfHolds (F.holds files.old) self.old (λ m s.
            CanFold (defs_in self.old) s rows.now) }
        ensures folded { OnOk result (IfHolds (F.holds files.old) self.old (λ m s.
            HoldsThen (F.holds files.new) self.new
            (after_keyed (defs_in self.old) s (appended rows.now)))) }
        ensures cut { IfErr result (λ f. IfHolds (F.holds files.old) self.old (λ m s. CutsOff f)) }
        ensures causes { IfErr result (ByCause Never (λ key. Any (λ (row : Values).
            MayRepeat (defs_in self.old) row key) rows.now) (Unit {0})) }
        ensures whole { OnOk result (self.old.broken ≡ None) }
        ensures first { IfErr result (IsBroken self.old self.new
            (F.holds files.old) (F.holds files.new)) }
        ensures broken { self.new.broken
            ≡ broken_after result (F.faults files.new) self.old.broken }
        ensures changed { OnOk result (0 < length rows.now → self.new.changed ≡ true) }
        ensures none { OnOk result (length rows.now ≡ 0 → self.new ≡ self.old) }
        ensures marked { self.old.changed ≡ true → self.new.changed ≡ true }
        ensures kept { IsKept (F.holds files.new) self.new }
        ensures same { IsSame self.old self.new }
        ensures others { ChangesItsOwn (F.holds files.old) (F.holds files.new) self.old }
        ensures counted { CountsOn self.old.rows.trees.cache self.new.rows.trees.cache }
        ensures cause { HasCause File (F.faults files.old) (F.faults files.new) result }
    {
        keyed_refusals_come_in_order();
        self.refuse_broken()?;
        for i in 0..rows.len() {
            self.insert_at_end(files, &rows[i])?;
        }
        Ok(())
    }
}
