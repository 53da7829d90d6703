//! What is found before a script is read: its tables, and its text.
ghost use Rattle.std.specs.Prelude.{◌≡◌, ◌≢◌, [], ◌∷◌, map, option_map, string_bytes};
ghost use Rattle.std.specs.Prelude.{IfOk, IfErr};
ghost use Rattle.myi_base.specs.Holding.{IfTold};
ghost use Rattle.myi_base.specs.Causes.{HasCause};
ghost use Rattle.myi_opening.specs.Names.{file_of};
ghost use Rattle.myisamkit.specs.Shells.{missing, absent_in, wrong_in, first_said};
ghost use Rattle.myisamkit.specs.Shells.{said_of, text_among};
ghost use Rattle.myisamkit.specs.ShellSteps.{AreTables, IsRead, IsPlainRead, looked_at};

use crate::dump::refusal;
use crate::lines::{absent_line, no_file_line, reason_of, refused_line};
use crate::status::{Status, Stop};
use myi_check::check;
use myi_defs::DefFault;
use myi_io::{Files, read_front};
use myi_merge::{Merge, MergeFault};
use myi_opening::{TableFault, TableFile};
use myi_pair::Finding;
use std::alloc::{AllocError, Global};

/// The names of the tables that a script is run on, and whether they are those of a list.
#[derive(Drop)]
pub(crate) struct Tables {
    pub(crate) list: bool,
    pub(crate) names: Vec<String>,
}

/// The text of a script, or why it is not read.
#[derive(Drop)]
pub(crate) enum Read {
    /// It is not read; this is said, with the status.
    Refused(Status, String),
    /// Nothing is wrong with the tables, and this is the text.
    Text(Vec<u8>),
}

/// The tables that a script is run on, and None where there is a list that is none.
pub(crate) fn tables_of<F: Files>(
    alloc: Global,
    files: &mut F,
    name: &str,
) -> Result<Option<Tables>, Stop>
    ensures tables { IfOk result (λ t. IfTold (F.holds files.old) (AreTables name.now t)) }
    ensures holds { F.holds files.new ≡ F.holds files.old }
    ensures sink { IfErr result (λ stop. stop ≢ Stop.Sink) }
    ensures cause { HasCause Stop.File (F.faults files.old) (F.faults files.new) result }
{
    match Merge::members(alloc, files, name) {
        Ok(names) => Ok(Some(Tables { list: true, names })),
        Err(MergeFault::Absent { .. }) => {
            let names = only_name(alloc, name)?;
            Ok(Some(Tables { list: false, names }))
        }
        Err(MergeFault::List) => Ok(None),
        Err(MergeFault::File) => Err(Stop::File),
        // The file of a list is refused for nothing else.
        Err(_) => Err(Stop::Memory),
    }
}

// The names where there is but one.
fn only_name(alloc: Global, name: &str) -> Result<Vec<String>, AllocError>
    ensures { IfOk result (λ names. map (λ s. string_bytes s) names.items ≡ name.now ∷ []) }
{
    let mut names = Vec::new(alloc);
    names.push(String::from_str(alloc, name)?)?;
    Ok(names)
}

/// The text of a script, where nothing is wrong with the tables of these names.
pub(crate) fn find_text<F: Files>(
    alloc: Global,
    files: &mut F,
    names: &[String],
    script: &str,
) -> Result<Read, Stop>
    ensures read { IfOk result (λ r. IfTold (F.holds files.old) (λ m.
        IsRead (text_among (map (λ s. string_bytes s) names.now) script.now m) r)) }
    ensures plain { IfOk result IsPlainRead }
    ensures holds { F.holds files.new ≡ F.holds files.old }
    ensures sink { IfErr result (λ stop. stop ≢ Stop.Sink) }
    ensures cause { HasCause Stop.File (F.faults files.old) (F.faults files.new) result }
{
    if let Some(line) = first_absent(alloc, files, names)? {
        return Ok(Read::Refused(Status::Absent, line));
    }
    let Some(length) = files.length(script)? else {
        let line = no_file_line(alloc, script)?;
        return Ok(Read::Refused(Status::Absent, line));
    };
    if let Some(said) = first_wrong(alloc, files, names)? {
        return Ok(Read::Refused(Status::Refused, said));
    }
    let text = read_front(alloc, files, script, length)?;
    Ok(Read::Text(text))
}

// The line on the first file of these tables that is absent.
fn first_absent<F: Files>(
    alloc: Global,
    files: &mut F,
    names: &[String],
) -> Result<Option<String>, Stop>
    ensures line { IfOk result (λ line. IfTold (F.holds files.old) (λ m.
        option_map string_bytes line
        ≡ first_said (absent_in m) (map (λ s. string_bytes s) names.now))) }
    ensures holds { F.holds files.new ≡ F.holds files.old }
    ensures sink { IfErr result (λ stop. stop ≢ Stop.Sink) }
    ensures cause { HasCause Stop.File (F.faults files.old) (F.faults files.new) result }
{
    for name in names {
        if let Some(line) = absent_file(alloc, files, name.as_str())? {
            return Ok(Some(line));
        }
    }
    Ok(None)
}

// The line on the first file of a table that is absent.
fn absent_file<F: Files>(alloc: Global, files: &mut F, name: &str) -> Result<Option<String>, Stop>
    ensures line { IfOk result (λ line. IfTold (F.holds files.old) (λ m.
        option_map string_bytes line ≡ absent_in m name.now)) }
    ensures holds { F.holds files.new ≡ F.holds files.old }
    ensures sink { IfErr result (λ stop. stop ≢ Stop.Sink) }
    ensures cause { HasCause Stop.File (F.faults files.old) (F.faults files.new) result }
{
    match missing_file(alloc, files, name, TableFile::Index)? {
        Some(line) => Ok(Some(line)),
        None => missing_file(alloc, files, name, TableFile::Data),
    }
}

// The line on a file of a table, where it is absent.
fn missing_file<F: Files>(
    alloc: Global,
    files: &mut F,
    name: &str,
    file: TableFile,
) -> Result<Option<String>, Stop>
    ensures line { IfOk result (λ line. IfTold (F.holds files.old) (λ m.
        option_map string_bytes line
        ≡ missing (file_of file name.now) (m (file_of file name.now)))) }
    ensures holds { F.holds files.new ≡ F.holds files.old }
    ensures sink { IfErr result (λ stop. stop ≢ Stop.Sink) }
    ensures cause { HasCause Stop.File (F.faults files.old) (F.faults files.new) result }
{
    let path = file.of(alloc, name)?;
    match files.length(path.as_str())? {
        Some(_) => Ok(None),
        None => Ok(Some(absent_line(alloc, name, file)?)),
    }
}

// What is said of the first of these tables with which something is wrong.
fn first_wrong<F: Files>(
    alloc: Global,
    files: &mut F,
    names: &[String],
) -> Result<Option<String>, Stop>
    ensures said { IfOk result (λ said. IfTold (F.holds files.old) (λ m.
        option_map string_bytes said
        ≡ first_said (wrong_in m) (map (λ s. string_bytes s) names.now))) }
    ensures holds { F.holds files.new ≡ F.holds files.old }
    ensures sink { IfErr result (λ stop. stop ≢ Stop.Sink) }
    ensures cause { HasCause Stop.File (F.faults files.old) (F.faults files.new) result }
{
    for name in names {
        if let Some(said) = wrong_with(alloc, files, name.as_str())? {
            return Ok(Some(said));
        }
    }
    Ok(None)
}

// What is said of a table, where something is wrong with it.
fn wrong_with<F: Files>(alloc: Global, files: &mut F, name: &str) -> Result<Option<String>, Stop>
    ensures said { IfOk result (λ said. IfTold (F.holds files.old) (λ m.
        option_map string_bytes said ≡ wrong_in m name.now)) }
    ensures holds { F.holds files.new ≡ F.holds files.old }
    ensures sink { IfErr result (λ stop. stop ≢ Stop.Sink) }
    ensures cause { HasCause Stop.File (F.faults files.old) (F.faults files.new) result }
{
    match check(alloc, files, name) {
        Ok(found) => Ok(refusal_of(alloc, name, Ok(found))?),
        Err(TableFault::Def(fault)) => Ok(refusal_of(alloc, name, Err(fault))?),
        Err(TableFault::Absent(file)) => Ok(Some(absent_line(alloc, name, file)?)),
        Err(TableFault::File) => Err(Stop::File),
        Err(TableFault::Memory) => Err(Stop::Memory),
    }
}

// What is said of a table whose two files are there, if something is.
fn refusal_of(
    alloc: Global,
    name: &str,
    looked: Result<Vec<Finding>, DefFault>,
) -> Result<Option<String>, AllocError>
    ensures { IfOk result (λ said. option_map string_bytes said
        ≡ said_of name.now (looked_at looked)) }
{
    match looked {
        Ok(found) => match found.as_slice().split_first() {
            None => Ok(None),
            Some((finding, _)) => Ok(Some(refusal(alloc, name, *finding)?)),
        },
        Err(fault) => Ok(Some(refused_line(alloc, name, reason_of(fault))?)),
    }
}
