//! Making a table.
ghost use Rattle.std.specs.Prelude.{◌≡◌, ◌≢◌, ◌⊎◌, Ok, Err, Some, IfOk, IfErr, OnOk, OnErr, IsTrue};
ghost use Rattle.myi_base.specs.Holding.{IfTold, Told, Sets, OthersStay};
ghost use Rattle.myi_base.specs.Causes.{HasCause};
ghost use Rattle.myi_defs.specs.ReadDefs.{AreDefs};
ghost use Rattle.myi_defs.specs.EmptyTable.{empty_header};
ghost use Rattle.myi_create.specs.Names.{names_of, names_for, AreApart};
ghost use Rattle.myi_create.specs.Creating.{definitions_of, definitions_in, Makes, PutsPart, MakesPart, Creates, IsCutOff, IsRefused};

use crate::fault::CreateFault;
use crate::names::NewFiles;
use myi_defs::{Defs, print_defs};
use myi_deftext::parse_text;
use myi_io::{Files, read_front};
use std::alloc::Global;

/// Makes an empty table of this name from the text of a file, and replaces files of the table's names.
pub fn create_table<F: Files>(
    alloc: Global,
    files: &mut F,
    name: &str,
    text: &str,
) -> Result<(), CreateFault>
    requires { IsTrue F.writable }

    // The two files are those of an empty table with the definitions that the text stands for.
    ensures made { OnOk result (Told (F.holds files.old) (F.holds files.new)
        (Creates name.now text.now)) }

    // Why a text is refused; then nothing is changed.
    ensures refused { IfErr result (λ f. IsCutOff f
        ⊎ IsRefused text.now f (F.holds files.old) (F.holds files.new)) }

    // Where it is cut off the index file is the old one, and the data file is the old one, or empty
    // where the text stands for definitions.
    ensures part { OnErr result (Told (F.holds files.old) (F.holds files.new)
        (MakesPart (names_for name.now) text.now)) }
    ensures cause { HasCause CreateFault.File (F.faults files.old) (F.faults files.new) result }
{
    let defs = read_text(alloc, files, text)?;
    create_with(alloc, files, name, &defs)?;
    Ok(())
}

/// Makes an empty table of this name with these definitions, and replaces files of the table's names.
pub fn create_with<F: Files>(
    alloc: Global,
    files: &mut F,
    name: &str,
    defs: &Defs,
) -> Result<(), CreateFault>
    requires writable { IsTrue F.writable }
    requires defs { AreDefs defs.now }

    // The two files are those of an empty table with the definitions.
    ensures made { OnOk result (Told (F.holds files.old) (F.holds files.new)
        (Makes (names_for name.now) (empty_header defs.now.raw))) }

    // Where it is cut off the index file is the old one, and the data file is the old one, or empty.
    ensures part { OnErr result (Told (F.holds files.old) (F.holds files.new)
        (PutsPart (names_for name.now))) }
    ensures cut { IfErr result IsCutOff }
    ensures cause { HasCause CreateFault.File (F.faults files.old) (F.faults files.new) result }
{
    let header = print_defs(alloc, defs)?;
    let table = NewFiles::of(alloc, name)?;
    put_files(files, &table, &header)?;
    Ok(())
}

// The definitions that the text of a file stands for.
fn read_text<F: Files>(alloc: Global, files: &mut F, text: &str) -> Result<Defs, CreateFault>
    ensures read { IfOk result (λ d. IfTold (F.holds files.old) (λ m.
        definitions_in text.now m ≡ Ok d)) }
    ensures defs { IfOk result AreDefs }
    ensures refused { IfErr result (λ f. IsCutOff f ⊎ IfTold (F.holds files.old) (λ m.
        definitions_in text.now m ≡ Err f)) }
    ensures holds { F.holds files.new ≡ F.holds files.old }
    ensures cause { HasCause CreateFault.File (F.faults files.old) (F.faults files.new) result }
{
    let Some(length) = files.length(text)? else {
        return Err(CreateFault::Absent);
    };
    let bytes = read_front(alloc, files, text, length)?;
    let defs = stands_for(alloc, &bytes)?;
    Ok(defs)
}

// The definitions that these bytes stand for.
fn stands_for(alloc: Global, bytes: &[u8]) -> Result<Defs, CreateFault>
    ensures read { IfOk result (λ d. definitions_of (Some bytes.now) ≡ Ok d) }
    ensures defs { IfOk result AreDefs }
    ensures refused { IfErr result (λ f. (f ≡ CreateFault.Memory)
        ⊎ (definitions_of (Some bytes.now) ≡ Err f)) }
    ensures file { IfErr result (λ f. f ≢ CreateFault.File) }
{
    match parse_text(alloc, bytes) {
        Ok(defs) => Ok(defs),
        Err(fault) => Err(fault.into()),
    }
}

// Puts a whole index file and an empty data file in the place of those that are there.
fn put_files<F: Files>(files: &mut F, table: &NewFiles, header: &[u8]) -> Result<(), CreateFault>
    requires writable { IsTrue F.writable }
    requires apart { AreApart (names_of table.now) }
    ensures made { OnOk result (Told (F.holds files.old) (F.holds files.new)
        (Makes (names_of table.now) header.now)) }
    ensures part { OnErr result (Told (F.holds files.old) (F.holds files.new)
        (PutsPart (names_of table.now))) }
    ensures cut { IfErr result IsCutOff }
    ensures cause { HasCause CreateFault.File (F.faults files.old) (F.faults files.new) result }
{
    put_whole(files, table.new_index.as_str(), header)?;
    files.cut(table.rows.as_str(), 0)?;
    files.rename(table.new_index.as_str(), table.index.as_str())?;
    Ok(())
}

// Makes a file of these bytes.
fn put_whole<F: Files>(files: &mut F, file: &str, bytes: &[u8]) -> Result<(), CreateFault>
    requires { IsTrue F.writable }
    ensures done { OnOk result (Told (F.holds files.old) (F.holds files.new)
        (Sets file.now bytes.now)) }
    ensures part { Told (F.holds files.old) (F.holds files.new) (OthersStay file.now) }
    ensures cut { IfErr result IsCutOff }
    ensures cause { HasCause CreateFault.File (F.faults files.old) (F.faults files.new) result }
{
    files.cut(file, 0)?;
    files.write_at(file, 0, bytes)?;
    Ok(())
}
