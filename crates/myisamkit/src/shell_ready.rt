//! What is ready before a script is run: its tables that are loaded, and its lines.
ghost use Rattle.std.specs.Prelude.{◌≡◌, ◌≢◌, true, false, Ok, IfOk, IfErr, IfSome};
ghost use Rattle.myi_base.specs.Holding.{IfTold};
ghost use Rattle.myi_base.specs.Causes.{HasCause};
ghost use Rattle.myi_defs.specs.Sound.{IsSound};
ghost use Rattle.myi_keycache.specs.Setup.{IsSetup};
ghost use Rattle.myisamkit.specs.Shells.{text_in};
ghost use Rattle.myisamkit.specs.ShellSteps.{IsListed, IsFound, IsPlain, IsLoadedOn, IsFresh};
ghost use Rattle.myisamkit.specs.ShellSteps as steps;

use crate::lines::{refused_line, text_line};
use crate::shell_options::ShellOptions;
use crate::shell_text::{Read, find_text, tables_of};
use crate::status::{Status, Stop};
use myi_defs::Defs;
use myi_history::scripts_may_run;
use myi_io::Files;
use myi_keycache::CacheSetup;
use myi_merge::{Merge, MergeFault};
use myi_script::{Script, ScriptFault, parse_script};
use myi_shell::{Target, scripts_run_on_like_tables};
use myi_table::{LoadFault, Table};
use myi_tablestate::clean_pairs_stand_for_tables;
use std::alloc::Global;

/// A script, the table or list that it is run on, and how.
#[derive(Clone, Copy)]
pub(crate) struct Job<'a> {
    pub(crate) options: ShellOptions,
    pub(crate) name: &'a str,
    pub(crate) script: &'a str,
}

/// What is found before a script is run.
#[derive(Drop)]
pub(crate) enum Found {
    /// It is not run; this is said, with the status.
    Refused(Status, String),
    /// Its tables are loaded, and these are its lines.
    Ready(Target, Script),
}

/// Reads a script and loads its tables, where nothing is wrong with them.
pub(crate) fn prepare<F: Files>(alloc: Global, files: &mut F, job: &Job<'_>) -> Result<Found, Stop>
    requires setup { IsSetup job.now.options.setup }
    ensures found { IfOk result (λ f. IfTold (F.holds files.old)
        (IsFound job.now.name.now job.now.script.now f)) }
    ensures plain { IfOk result IsPlain }
    ensures holds { F.holds files.new ≡ F.holds files.old }
    ensures sink { IfErr result (λ stop. stop ≢ Stop.Sink) }
    ensures cause { HasCause Stop.File (F.faults files.old) (F.faults files.new) result }
{
    let Some(tables) = tables_of(alloc, files, job.name)? else {
        let line = refused_line(alloc, job.name, "list")?;
        return Ok(Found::Refused(Status::Refused, line));
    };
    match find_text(alloc, files, &tables.names, job.script)? {
        Read::Refused(status, line) => Ok(Found::Refused(status, line)),
        Read::Text(text) => load_and_parse(alloc, files, job, tables.list, &text),
    }
}

// The same where the text of the script is read.
fn load_and_parse<F: Files>(
    alloc: Global,
    files: &mut F,
    job: &Job<'_>,
    list: bool,
    text: &[u8],
) -> Result<Found, Stop>
    requires setup { IsSetup job.now.options.setup }
    requires list { IfTold (F.holds files.old) (IsListed list job.now.name.now) }
    requires text { IfTold (F.holds files.old) (λ m.
        text_in job.now.name.now job.now.script.now m ≡ Ok text.now) }
    ensures found { IfOk result (λ f. IfTold (F.holds files.old)
        (IsFound job.now.name.now job.now.script.now f)) }
    ensures plain { IfOk result IsPlain }
    ensures holds { F.holds files.new ≡ F.holds files.old }
    ensures sink { IfErr result (λ stop. stop ≢ Stop.Sink) }
    ensures cause { HasCause Stop.File (F.faults files.old) (F.faults files.new) result }
{
    let Some(target) = load(alloc, files, job, list)? else {
        let line = refused_line(alloc, job.name, "differs")?;
        return Ok(Found::Refused(Status::Refused, line));
    };
    scripts_may_run();
    scripts_run_on_like_tables();
    clean_pairs_stand_for_tables();
    match parse_script(alloc, text, lines_defs(&target), list) {
        Ok(script) => Ok(Found::Ready(target, script)),
        Err(ScriptFault::Line(number)) => {
            let line = text_line(alloc, job.script, number)?;
            Ok(Found::Refused(Status::Refused, line))
        }
        Err(ScriptFault::Memory) => Err(Stop::Memory),
    }
}

// Loads the tables of a script, with which nothing is wrong; None where they are not alike.
fn load<F: Files>(
    alloc: Global,
    files: &mut F,
    job: &Job<'_>,
    list: bool,
) -> Result<Option<Target>, Stop>
    requires setup { IsSetup job.now.options.setup }
    requires list { IfTold (F.holds files.old) (IsListed list job.now.name.now) }
    ensures loaded { IfOk result (λ t. IfTold (F.holds files.old)
        (IsLoadedOn job.now.name.now t)) }
    ensures fresh { IfOk result (λ t. IfSome t (IsFresh list)) }
    ensures holds { F.holds files.new ≡ F.holds files.old }
    ensures sink { IfErr result (λ stop. stop ≢ Stop.Sink) }
    ensures cause { HasCause Stop.File (F.faults files.old) (F.faults files.new) result }
{
    if list {
        load_list(alloc, files, job.name, job.options.setup)
    } else {
        load_table(alloc, files, job.name, job.options.setup)
    }
}

// Loads a table with which nothing is wrong.
fn load_table<F: Files>(
    alloc: Global,
    files: &mut F,
    name: &str,
    setup: CacheSetup,
) -> Result<Option<Target>, Stop>
    requires setup { IsSetup setup }
    requires table { IfTold (F.holds files.old) (IsListed false name.now) }
    ensures loaded { IfOk result (λ t. IfTold (F.holds files.old) (IsLoadedOn name.now t)) }
    ensures fresh { IfOk result (λ t. IfSome t (IsFresh false)) }
    ensures holds { F.holds files.new ≡ F.holds files.old }
    ensures sink { IfErr result (λ stop. stop ≢ Stop.Sink) }
    ensures cause { HasCause Stop.File (F.faults files.old) (F.faults files.new) result }
{
    match Table::load(alloc, files, name, setup) {
        Ok(table) => Ok(Some(Target::One(table))),
        Err(LoadFault::File) => Err(Stop::File),
        // It is refused for nothing else, but where somebody else writes its files meanwhile.
        Err(_) => Err(Stop::Memory),
    }
}

// Loads the tables of a list, with which nothing is wrong; None where they are not alike.
fn load_list<F: Files>(
    alloc: Global,
    files: &mut F,
    name: &str,
    setup: CacheSetup,
) -> Result<Option<Target>, Stop>
    requires setup { IsSetup setup }
    ensures loaded { IfOk result (λ t. IfTold (F.holds files.old) (IsLoadedOn name.now t)) }
    ensures fresh { IfOk result (λ t. IfSome t (IsFresh true)) }
    ensures holds { F.holds files.new ≡ F.holds files.old }
    ensures sink { IfErr result (λ stop. stop ≢ Stop.Sink) }
    ensures cause { HasCause Stop.File (F.faults files.old) (F.faults files.new) result }
{
    match Merge::load(alloc, files, name, setup) {
        Ok(merge) => {
            merge.defs();
            Ok(Some(Target::Many(merge)))
        }
        Err(MergeFault::Differs { .. }) => Ok(None),
        Err(MergeFault::File) => Err(Stop::File),
        // It is refused for nothing else, but where somebody else writes its files meanwhile.
        Err(_) => Err(Stop::Memory),
    }
}

// The definitions by which the lines of a script are read: those of the first table.
fn lines_defs(target: &Target) -> &Defs
    ensures defs { result.now ≡ steps.lines_defs target.now }
    ensures sound { IsSound result.now }
{
    match target {
        Target::One(table) => table.defs(),
        Target::Many(merge) => merge.defs(),
    }
}
