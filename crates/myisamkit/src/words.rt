//! The words of a command line, and what they ask for.
ghost use Rattle.std.specs.Prelude.{◌≡◌, ◌<◌, false, None, length, map, nat_le, option_map, string_bytes};
ghost use Rattle.std.specs.List.{list_all};
ghost use Rattle.myisamkit.specs.Words as spec;
ghost use Rattle.myisamkit.specs.Options.{letter_flag};
ghost use Rattle.myisamkit.specs.Reading as reading;
ghost use Rattle.myisamkit.specs.Plans.{asked};

use crate::numbers::number_in;
use crate::options::{Options, Seen, letter_flag, long_flag, sort_flag};
use crate::shell_ready::Job;
use crate::shell_words::plan_shell;

/// How many rows a table is made of, and the seed that decides them.
#[derive(Clone, Copy)]
pub(crate) struct Rows {
    pub(crate) count: u32,
    pub(crate) seed: u64,
}

/// What the words ask for.
#[derive(Clone, Copy)]
pub(crate) enum Plan<'a> {
    /// The words are refused.
    Usage,
    /// Work is done on the tables that the words name.
    Chk {
        options: Options,
        words: &'a [String],
    },
    /// A table of this name is made, by the text of the file of that name.
    Create(&'a str, &'a str),
    /// The rows of the table of this name are printed.
    Dump(&'a str),
    /// A table of this name is made of these rows, damaged and recovered.
    Make(Rows, &'a str),
    /// A script is run on a table.
    Shell(Job<'a>),
}

/// What was read of a list of words.
#[derive(Clone, Copy)]
pub(crate) struct Read {
    pub(crate) seen: Seen,
    /// The last option has its value in the next word.
    pub(crate) waits: bool,
    /// The word came behind which all are names.
    pub(crate) ended: bool,
    /// A name came.
    pub(crate) named: bool,
}

/// Reads the words after the program's name.
pub(crate) fn read_words(words: &[String]) -> Plan<'_>
    ensures { asked result ≡ spec.plan (map (λ w. string_bytes w) words.now) }
{
    match words.split_first() {
        Some((command, others)) if command.as_str() == "chk" => plan_chk(others),
        Some((command, others)) if command.as_str() == "create" => plan_create(others),
        Some((command, others)) if command.as_str() == "dump" => plan_dump(others),
        Some((command, others)) if command.as_str() == "make" => plan_make(others),
        Some((command, others)) if command.as_str() == "shell" => plan_shell(others),
        _ => Plan::Usage,
    }
}

fn plan_chk(words: &[String]) -> Plan<'_>
    ensures { asked result ≡ spec.plan_chk (spec.spelled_out (map (λ w. string_bytes w) words.now)) }
{
    match chk_options(words) {
        Some(options) => Plan::Chk { options, words },
        None => Plan::Usage,
    }
}

fn plan_create(words: &[String]) -> Plan<'_>
    ensures { asked result ≡ spec.plan_create (map (λ w. string_bytes w) words.now) }
{
    match two_names(words) {
        Some((name, file)) => Plan::Create(table_name(name), file),
        None => Plan::Usage,
    }
}

// The two names among the words behind `create`, where they are in form and no other word stands beside them but one
// that ends the options.
fn two_names(words: &[String]) -> Option<(&str, &str)>
    ensures { option_map (λ p. (p.0.now, p.1.now)) result
        ≡ reading.create_left false None None (map (λ w. string_bytes w) words.now) }
{
    let mut name = None;
    let mut file = None;
    let mut ended = false;
    for word in words {
        let word = word.as_str();
        if names_table(word, ended) {
            if file.is_some() || !is_name(word) {
                return None;
            }
            if name.is_some() {
                file = Some(word);
            } else {
                name = Some(word);
            }
        } else if is_end(word) {
            ended = true;
        } else {
            return None;
        }
    }
    Some((name?, file?))
}

fn plan_dump(words: &[String]) -> Plan<'_>
    ensures { asked result ≡ spec.plan_dump (map (λ w. string_bytes w) words.now) }
{
    match only_name(words) {
        Some(name) => Plan::Dump(table_name(name)),
        None => Plan::Usage,
    }
}

// The name among the words behind `dump`, where it is in form and no other word stands beside it but one that
// ends the options.
fn only_name(words: &[String]) -> Option<&str>
    ensures { option_map (λ n. n.now) result
        ≡ reading.dump_left false None (map (λ w. string_bytes w) words.now) }
{
    let mut name = None;
    let mut ended = false;
    for word in words {
        let word = word.as_str();
        if names_table(word, ended) {
            if name.is_some() || !is_name(word) {
                return None;
            }
            name = Some(word);
        } else if is_end(word) {
            ended = true;
        } else {
            return None;
        }
    }
    name
}

fn plan_make(words: &[String]) -> Plan<'_>
    ensures { asked result ≡ spec.plan_make (map (λ w. string_bytes w) words.now) }
{
    match three_words(words) {
        Some((count, seed, name)) => plan_rows(count, seed, name),
        None => Plan::Usage,
    }
}

// The three words among those behind `make` that are no options, where no other word stands beside them but one
// that ends the options.
fn three_words(words: &[String]) -> Option<(&str, &str, &str)>
    ensures { option_map (λ w. (w.0.now, w.1.now, w.2.now)) result
        ≡ reading.make_left false None None None (map (λ w. string_bytes w) words.now) }
{
    let mut first = None;
    let mut second = None;
    let mut third = None;
    let mut ended = false;
    for word in words {
        let word = word.as_str();
        if names_table(word, ended) {
            if first.is_none() {
                first = Some(word);
            } else if second.is_none() {
                second = Some(word);
            } else if third.is_none() {
                third = Some(word);
            } else {
                return None;
            }
        } else if is_end(word) {
            ended = true;
        } else {
            return None;
        }
    }
    Some((first?, second?, third?))
}

fn plan_rows<'a>(count: &str, seed: &str, name: &'a str) -> Plan<'a>
    ensures { asked result
        ≡ spec.make_by (spec.count_of count.now) (spec.seed_of seed.now) name.now }
{
    match rows_of(count, seed) {
        Some(rows) if is_name(name) => Plan::Make(rows, table_name(name)),
        _ => Plan::Usage,
    }
}

fn rows_of(count: &str, seed: &str) -> Option<Rows>
    ensures { result ≡ reading.rows_of (spec.count_of count.now) (spec.seed_of seed.now) }
{
    let count = count_of(count)?;
    let seed = number_in(0, u64::MAX, seed.as_bytes())?;
    Some(Rows { count, seed })
}

fn count_of(word: &str) -> Option<u32>
    ensures { result ≡ spec.count_of word.now }
{
    let count = number_in(1, 100000, word.as_bytes())?;
    Some(count as u32)
}

// The options among the words behind `chk`, where all words are in form and there is a name.
fn chk_options(words: &[String]) -> Option<Options>
    ensures { result ≡ reading.chk_options (map (λ w. string_bytes w) words.now) }
{
    let read = read_all(words)?;
    if read.named && !read.waits {
        Some(read.seen.options())
    } else {
        None
    }
}

fn read_all(words: &[String]) -> Option<Read>
    ensures { result ≡ reading.read_words reading.read_none (map (λ w. string_bytes w) words.now) }
{
    let mut read = Read {
        seen: Seen {
            mode: None,
            extend: false,
            force: false,
            silent: false,
        },
        waits: false,
        ended: false,
        named: false,
    };
    for word in words {
        read = read_word(read, word.as_str())?;
    }
    Some(read)
}

fn read_word(read: Read, word: &str) -> Option<Read>
    ensures { result ≡ reading.read_word read word.now }
{
    if read.waits {
        read_value(read, word)
    } else if read.ended {
        read_name(read, word)
    } else if is_end(word) {
        Some(Read {
            ended: true,
            ..read
        })
    } else if is_option(word) {
        read_flags(read, word)
    } else {
        read_name(read, word)
    }
}

fn read_name(read: Read, word: &str) -> Option<Read>
    ensures { result ≡ reading.read_name read word.now }
{
    if is_name(word) {
        Some(Read {
            named: true,
            ..read
        })
    } else {
        None
    }
}

fn read_flags(read: Read, word: &str) -> Option<Read>
    ensures { result ≡ reading.read_flags read word.now }
{
    match before_valued(word) {
        None => {
            let seen = seen_after(read.seen, word)?;
            Some(Read { seen, ..read })
        }
        Some(front) => {
            let seen = seen_after(read.seen, front)?;
            Some(Read {
                seen,
                waits: true,
                ..read
            })
        }
    }
}

fn read_value(read: Read, word: &str) -> Option<Read>
    ensures { result ≡ reading.read_value read word.now }
{
    if has_dash(word) {
        return None;
    }
    let seen = read.seen.with(sort_flag(word)?)?;
    Some(Read {
        seen,
        waits: false,
        ..read
    })
}

// What a word says before its last option, where the value of that option is the word behind it.
fn before_valued(word: &str) -> Option<&str>
    ensures { option_map (λ front. front.now) result ≡ spec.before_valued word.now }
{
    if word == "--sort-records" {
        Some("")
    } else if is_option(word) && !is_long(word) {
        word.strip_suffix("R")
    } else {
        None
    }
}

fn is_long(word: &str) -> bool
    ensures { result ≡ spec.is_long word.now }
{
    word.starts_with("--")
}

/// A word that begins with a dash, and so is no value.
pub(crate) fn has_dash(word: &str) -> bool
    ensures { result ≡ spec.has_dash word.now }
{
    word.starts_with("-")
}

/// What was read of the words behind `chk`, for the tables that they name.
#[derive(Clone, Copy)]
pub(crate) struct Names {
    /// The word came behind which all are names.
    pub(crate) ended: bool,
    /// The last option has its value in the next word.
    pub(crate) waits: bool,
}

impl Names {
    ghost use Rattle.std.specs.Prelude.{◌≡◌};
    ghost use Rattle.myisamkit.specs.Reading as reading;

    pub(crate) fn new() -> Self
        ensures { result ≡ reading.names_none }
    {
        Names {
            ended: false,
            waits: false,
        }
    }

    /// Reads the next word, and answers whether it names a table.
    pub(crate) fn take(&mut self, word: &str) -> bool
        ensures named { result ≡ reading.is_table self.old word.now }
        ensures behind { self.new ≡ reading.names_behind self.old word.now }
    {
        let is_value = self.waits && !has_dash(word);
        let named = !is_value && names_table(word, self.ended);
        self.waits = !self.ended && before_valued(word).is_some();
        self.ended = self.ended || is_end(word);
        named
    }
}

// The options of one word after those that were met.
fn seen_after(seen: Seen, word: &str) -> Option<Seen>
    ensures { result ≡ reading.seen_after seen (spec.flags_of word.now) }
{
    match word.strip_prefix("--") {
        Some(name) => seen.with(long_flag(name)?),
        None => match word.as_bytes() {
            [] => Some(seen),
            [_, letters @ ..] => seen_letters(seen, letters),
        },
    }
}

fn seen_letters(seen: Seen, letters: &[u8]) -> Option<Seen>
    ensures { result ≡ reading.seen_after seen (map letter_flag letters.now) }
{
    let mut seen = seen;
    for letter in letters {
        seen = seen.with(letter_flag(*letter)?)?;
    }
    Some(seen)
}

/// All words behind this one are names.
pub(crate) fn is_end(word: &str) -> bool
    ensures { result ≡ spec.is_end word.now }
{
    word == "--"
}

fn is_option(word: &str) -> bool
    ensures { result ≡ spec.is_option word.now }
{
    let bytes = word.as_bytes();
    bytes.len() > 1 && bytes[0] == b'-'
}

/// The word is a name, where the word behind which all are names came before or not.
pub(crate) fn names_table(word: &str, ended: bool) -> bool
    ensures { result ≡ spec.names_table ended word.now }
{
    ended || !(is_end(word) || is_option(word))
}

pub(crate) fn is_name(word: &str) -> bool
    ensures { result ≡ spec.is_name word.now }
{
    let bytes = word.as_bytes();
    !bytes.is_empty() && bytes.len() <= 200 && are_printed(bytes)
}

fn are_printed(bytes: &[u8]) -> bool
    ensures { result ≡ list_all (λ b. nat_le 32 b) bytes.now }
{
    bytes.iter().all(|b| *b >= 32)
}

/// The table that a word names.
pub(crate) fn table_name(word: &str) -> &str
    ensures { result.now ≡ spec.table_name word.now }
{
    match word.strip_suffix(".MYI") {
        None => word,
        Some(name) => { if name.is_empty() { word } else { name } }
    }
}
