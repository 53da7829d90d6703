//! Lists of keys with their row pointers.
use case_lines::{Fault, Words, key_of_code, number, push_word, sides};
use myi_keylist::{PairList, RowPointers};

// Adds the pair that a word `CODE:ROW` says.
fn push_pair(pairs: &mut PairList, words: &Words, word: &str) -> Result<(), Fault> {
    let (code, row) = sides(word, ':')?;
    let row = number(row)?;
    let key = key_of_code(words, code)?;
    pairs.push(key.code(), row)?;
    Ok(())
}

// Appends the pairs, and whether a complete key is there twice.
fn push_pairs(out: &mut String, pairs: &PairList) -> Result<(), Fault> {
    for i in 0..pairs.len() {
        push_word(out, pairs.code(i))?;
        write!(out, ":{} ", pairs.row(i))?;
    }
    out.push_str(if pairs.has_repeat() { "repeat" } else { "none" })?;
    Ok(())
}

/// `pairs CODE:ROW..`: the pairs in order, and whether a complete key is there twice.
fn pairs(words: &Words, args: &[&str]) -> Result<String, Fault> {
    let alloc = words.alloc();
    let mut pairs = PairList::new(alloc);
    for word in args {
        push_pair(&mut pairs, words, *word)?;
    }
    pairs.sort();
    let mut out = String::new(alloc);
    push_pairs(&mut out, &pairs)?;
    Ok(out)
}

/// `numbers TAKEN CODE..`: the class numbers of rows with these keys, behind those that are taken, and
/// the last number.
fn numbers(words: &Words, args: &[&str]) -> Result<String, Fault> {
    let [taken, codes @ ..] = args else {
        return Err(Fault::Unread);
    };
    let taken = number(*taken)?;
    let alloc = words.alloc();
    let mut pairs = PairList::new(alloc);
    let mut column = Vec::new(alloc);
    for code in codes {
        let key = key_of_code(words, *code)?;
        pairs.push(key.code(), column.len() as u64)?;
        column.push(0)?;
    }
    pairs.sort();
    if taken.checked_add(pairs.len() as u64).is_none() {
        return Err(Fault::Unread);
    }
    let last = pairs.number(taken, &mut column);
    let mut out = String::new(alloc);
    for number in &column {
        write!(out, "{} ", *number)?;
    }
    write!(out, "{last}")?;
    Ok(out)
}

/// `kept CODE:POINTER..`: of rows with these keys and pointers, of which one with the pointer `-` is not
/// kept, the pairs of the others in the order of their numbers, and whether a complete key is there twice.
fn kept(words: &Words, args: &[&str]) -> Result<String, Fault> {
    let alloc = words.alloc();
    let mut pairs = PairList::new(alloc);
    let mut flags = Vec::new(alloc);
    let mut pointers = RowPointers::new(alloc);
    for word in args {
        let (code, pointer) = sides(*word, ':')?;
        let key = key_of_code(words, code)?;
        pairs.push(key.code(), flags.len() as u64)?;
        let keep = pointer != "-";
        flags.push(keep)?;
        pointers.push(if keep { number(pointer)? } else { 0 })?;
    }
    pairs.sort();
    pairs.retain(&flags);
    pairs.point(&pointers);
    let mut out = String::new(alloc);
    push_pairs(&mut out, &pairs)?;
    Ok(out)
}

/// The answer to a call of this module, and None where the name is no such call.
pub fn answer(words: &Words, name: &str, args: &[&str]) -> Option<Result<String, Fault>> {
    match name {
        "pairs" => Some(pairs(words, args)),
        "numbers" => Some(numbers(words, args)),
        "kept" => Some(kept(words, args)),
        _ => None,
    }
}
