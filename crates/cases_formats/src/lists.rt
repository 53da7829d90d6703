//! Lists of tables.
use case_lines::{Fault, Words, push_word};
use myi_mergelist::{InsertMethod, ListFault, MergeList, parse_list};
use std::alloc::AllocError;

fn push_list(out: &mut String, list: &MergeList) -> Result<(), AllocError> {
    out.push_str(match list.method {
        Some(InsertMethod::First) => "First",
        Some(InsertMethod::Last) => "Last",
        None => "-",
    })?;
    for name in &list.members {
        out.push(' ')?;
        push_word(out, name.as_bytes())?;
    }
    Ok(())
}

/// `list BYTES`: what the text of a MERGE list says.
fn list(words: &Words, args: &[&str]) -> Result<String, Fault> {
    let [bytes] = args else {
        return Err(Fault::Unread);
    };
    let bytes = words.bytes(*bytes)?;
    let mut out = String::new(words.alloc());
    match parse_list(words.alloc(), &bytes) {
        Ok(list) => push_list(&mut out, &list)?,
        Err(ListFault::List) => out.push_str("no list")?,
        Err(ListFault::Memory) => return Err(Fault::Memory),
    }
    Ok(out)
}

/// The answer to a call on lists, or None where it is another call.
pub fn answer(words: &Words, name: &str, args: &[&str]) -> Option<Result<String, Fault>> {
    match name {
        "list" => Some(list(words, args)),
        _ => None,
    }
}
