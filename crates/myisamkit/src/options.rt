//! The options of a command: `Flag` is what one of them says, `Seen` which were met so far, and `Options`
//! what all of them ask for.
ghost use Rattle.std.specs.Prelude.{◌≡◌, Some};
ghost use Rattle.myisamkit.specs.declared.options.Mode.TheVariants as modes;
ghost use Rattle.myisamkit.specs.declared.options.Flag.TheVariants as flags;
ghost use Rattle.myisamkit.specs.Options as spec;
ghost use Rattle.myisamkit.specs.Reading.{seen_with, options_seen};
ghost use Rattle.myisamkit.specs.Turns.{changes_rows, is_row_by_row, without_extend};

use crate::numbers::number_in;

/// How a repair makes the trees of keys.
#[derive(Clone, Copy, Debug, PartialEq, Eq)]
pub(crate) enum TreeWork {
    /// Each is laid of sorted keys, one after the other.
    InTurn,
    /// They are laid so by workers side by side; the files are the same.
    SideBySide,
    /// The pairs of each row are put into all of them before the next row is read.
    RowByRow,
}

impl TreeWork {
    fn is_row_by_row(self) -> bool
        ensures { result ≡ changes_rows self }
    {
        match self {
            TreeWork::RowByRow => true,
            TreeWork::InTurn | TreeWork::SideBySide => false,
        }
    }
}

/// What is done with a table.
#[derive(Clone, Copy, Debug, PartialEq, Eq)]
pub(crate) enum Mode {
    Check,
    Recover { trees: TreeWork },
    Describe,
    /// The rows per prefix of each key are counted, printed and stored.
    Analyze,
    /// The rows are put in the order of the key of this number, from 1.
    Sort { key: u8 },
    /// The pages of the index file are laid anew, each before those below it.
    SortIndex,
}

impl Mode {
    /// Whether trees are changed row by row.
    pub(crate) fn is_row_by_row(self) -> bool
        ensures { result ≡ is_row_by_row self }
    {
        match self {
            Mode::Recover { trees } => trees.is_row_by_row(),
            Mode::Check | Mode::Describe | Mode::Analyze | Mode::Sort { .. } | Mode::SortIndex => {
                false
            }
        }
    }
}

/// What one option says.
#[derive(Clone, Copy, Debug, PartialEq, Eq)]
pub(crate) enum Flag {
    Mode(Mode),
    Extend,
    Force,
    Silent,
}

/// What the options of a command ask for.
#[derive(Clone, Copy, Debug, PartialEq, Eq)]
pub(crate) struct Options {
    pub(crate) mode: Mode,
    /// Every position of a data file is tried.
    pub(crate) extend: bool,
    /// A check that finds something is followed by a repair.
    pub(crate) force: bool,
    /// Lines of success are left out.
    pub(crate) silent: bool,
}

impl Options {
    /// The same options, with which not every position is tried.
    pub(crate) fn without_extend(self) -> Options
        ensures { result ≡ without_extend self }
    {
        Options {
            extend: false,
            ..self
        }
    }
}

/// The options that were met.
#[derive(Clone, Copy, Debug, PartialEq, Eq)]
pub(crate) struct Seen {
    pub(crate) mode: Option<Mode>,
    pub(crate) extend: bool,
    pub(crate) force: bool,
    pub(crate) silent: bool,
}

impl Seen {
    /// One option more, where it may follow.
    pub(crate) fn with(self, flag: Flag) -> Option<Seen>
        ensures { result ≡ seen_with self flag }
    {
        match flag {
            Flag::Mode(mode) => match self.mode {
                None => Some(Seen {
                    mode: Some(mode),
                    ..self
                }),
                Some(_) => None,
            },
            Flag::Extend if self.extend => None,
            Flag::Extend => Some(Seen {
                extend: true,
                ..self
            }),
            Flag::Force if self.force => None,
            Flag::Force => Some(Seen {
                force: true,
                ..self
            }),
            Flag::Silent => Some(Seen {
                silent: true,
                ..self
            }),
        }
    }

    /// What they ask for; without a mode, a check.
    pub(crate) fn options(self) -> Options
        ensures { result ≡ options_seen self }
    {
        let mode = match self.mode {
            None => Mode::Check,
            Some(mode) => mode,
        };
        Options {
            mode,
            extend: self.extend,
            force: self.force,
            silent: self.silent,
        }
    }
}

// What an option says that asks for a repair.
fn recover_flag(trees: TreeWork) -> Option<Flag>
    ensures { result ≡ Some (flags.Mode (modes.Recover trees)) }
{
    Some(Flag::Mode(Mode::Recover { trees }))
}

/// What a letter says.
pub(crate) fn letter_flag(letter: u8) -> Option<Flag>
    ensures { result ≡ spec.letter_flag letter }
{
    match letter {
        b'c' => Some(Flag::Mode(Mode::Check)),
        b'r' => recover_flag(TreeWork::InTurn),
        b'o' => recover_flag(TreeWork::RowByRow),
        b'p' => recover_flag(TreeWork::SideBySide),
        b'd' => Some(Flag::Mode(Mode::Describe)),
        b'a' => Some(Flag::Mode(Mode::Analyze)),
        b'S' => Some(Flag::Mode(Mode::SortIndex)),
        b'e' => Some(Flag::Extend),
        b'f' => Some(Flag::Force),
        b's' => Some(Flag::Silent),
        _ => None,
    }
}

/// What a long option says, by its name.
pub(crate) fn long_flag(name: &str) -> Option<Flag>
    ensures { result ≡ spec.long_flag name.now }
{
    match name {
        "check" => Some(Flag::Mode(Mode::Check)),
        "recover" => recover_flag(TreeWork::InTurn),
        "safe-recover" => recover_flag(TreeWork::RowByRow),
        "parallel-recover" => recover_flag(TreeWork::SideBySide),
        "description" => Some(Flag::Mode(Mode::Describe)),
        "analyze" => Some(Flag::Mode(Mode::Analyze)),
        "sort-index" => Some(Flag::Mode(Mode::SortIndex)),
        "extend-check" => Some(Flag::Extend),
        "force" => Some(Flag::Force),
        "silent" => Some(Flag::Silent),
        _ => valued_flag(name),
    }
}

// What a long option says that has its value behind it.
fn valued_flag(name: &str) -> Option<Flag>
    ensures { result ≡ spec.valued_flag name.now }
{
    match name.strip_prefix("sort-records=") {
        Some(value) => sort_flag(value),
        None => None,
    }
}

/// What the option that sorts rows says with this value.
pub(crate) fn sort_flag(value: &str) -> Option<Flag>
    ensures { result ≡ spec.sort_flag value.now }
{
    let key = key_of(value.as_bytes())?;
    Some(Flag::Mode(Mode::Sort { key }))
}

// The number of a key, of which a table has at most 64.
fn key_of(word: &[u8]) -> Option<u8>
    ensures { result ≡ spec.key_of word.now }
{
    let key = number_in(1, 64, word)?;
    Some(key as u8)
}
