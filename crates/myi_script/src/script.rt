//! `parse_script`: a text is read as a script, line by line.
ghost use Rattle.std.specs.Prelude.{◌≡◌, ◌==◌, ◌<◌, ◌^◌, ℕ, map, length, IfOk, OnOk, Ok, Err, []};
ghost use Rattle.std.specs.List.{slice_split};
ghost use Rattle.std.specs.Str.{is_utf8};
ghost use Rattle.myi_defs.specs.Sound.{IsSound};
ghost use Rattle.myi_deftext.specs.Text.{lines, without_end};
ghost use Rattle.myi_script.specs.declared.types.ScriptFault.TheVariants as fault;
ghost use Rattle.myi_script.specs.Script as spec;

use crate::statement::line_of;
use crate::types::{Act, Line, Script, ScriptFault};
use myi_base::Sequence;
use myi_defs::Defs;
use std::alloc::{AllocError, Global};
use std::str;

/// How many lines a script may have.
const MOST_LINES: u32 = 4_294_967_294;

fn pieces<'a>(alloc: Global, text: &'a [u8], byte: u8) -> Result<Vec<&'a [u8]>, AllocError>
    ensures { IfOk result (λ v. map (λ s. s.now) v.items ≡ slice_split (λ b. b == byte) text.now) }
{
    text.split(|b| *b == byte).collect(alloc)
}

fn without_end(text: &[u8]) -> &[u8]
    ensures { result.now ≡ without_end text.now }
{
    if !text.is_empty() && text[text.len() - 1] == b'\n' {
        &text[..text.len() - 1]
    } else {
        text
    }
}

// Whether a line is empty or a comment.
fn does_nothing(line: &[u8]) -> bool
    ensures { result ≡ spec.does_nothing line.now }
{
    match line {
        [] => true,
        [first, ..] => *first == b';',
    }
}

fn is_utf8(line: &[u8]) -> bool
    ensures { result ≡ is_utf8 line.now }
{
    str::from_utf8(line).is_ok()
}

fn has_ended(session: u32, ended: &[u32]) -> bool
    ensures { result ≡ spec.has_ended session ended.now }
{
    ended.iter().any(|one| *one == session)
}

fn is_end(act: &Act) -> bool
    ensures { result ≡ spec.is_end act.now }
{
    match act {
        Act::End => true,
        _ => false,
    }
}

fn note_end(ended: &mut Vec<u32>, session: u32, act: &Act) -> Result<(), AllocError>
    ensures { OnOk result (ended.new.items ≡ spec.ended_by session act.now ended.old.items) }
{
    if is_end(act) {
        ended.push(session)?;
    }
    Ok(())
}

// What the lines say, or the number of the first that is not in the grammar.
fn read_lines(
    alloc: Global,
    merge: bool,
    defs: &Defs,
    lines: &[&[u8]],
) -> Result<Vec<Line>, ScriptFault>
    requires { IsSound defs.now }
    ensures said { IfOk result (λ v.
        spec.read_lines merge defs.now [] 1 (map (λ l. l.now) lines.now) ≡ Ok v.items) }
    ensures outside { (k : ℕ) → result ≡ Err (fault.Line k)
        → spec.read_lines merge defs.now [] 1 (map (λ l. l.now) lines.now) ≡ Err k }
{
    let mut said = Vec::new(alloc);
    let mut ended = Vec::new(alloc);
    let mut number = 0u32;
    for text in lines {
        number += 1;
        if number > MOST_LINES {
            return Err(ScriptFault::Line(number));
        }
        if does_nothing(text) {
            if !is_utf8(text) {
                return Err(ScriptFault::Line(number));
            }
            continue;
        }
        let Some((session, act)) = line_of(alloc, merge, defs, text)? else {
            return Err(ScriptFault::Line(number));
        };
        if has_ended(session, &ended) {
            return Err(ScriptFault::Line(number));
        }
        note_end(&mut ended, session, &act)?;
        said.push(Line {
            session,
            line: number,
            act,
        })?;
    }
    Ok(said)
}

/// What a script on a table says, or the number of the first line that is not in the grammar, from 1. Of a
/// `merge`, a list of tables that have these definitions, `update` and `delete` are not in the grammar.
pub fn parse_script(
    alloc: Global,
    text: &[u8],
    defs: &Defs,
    merge: bool,
) -> Result<Script, ScriptFault>
    requires { IsSound defs.now }
    ensures inside { IfOk result (λ s. spec.IsScript merge defs.now text.now s.lines) }
    ensures outside { (k : ℕ) → result ≡ Err (fault.Line k)
        → spec.IsFirstOutside merge defs.now (lines text.now) k }
{
    let lines = pieces(alloc, without_end(text), b'\n')?;
    let said = read_lines(alloc, merge, defs, &lines)?;
    Ok(Script {
        lines: Sequence::new(said),
    })
}
