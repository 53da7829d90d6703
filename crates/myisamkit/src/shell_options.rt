//! The options of `shell`: `ShellFlag` is what one of them says, `ShellSeen` which were met so far, and
//! `ShellOptions` what all of them ask for.
ghost use Rattle.std.specs.Prelude.{◌≡◌};
ghost use Rattle.myisamkit.specs.ShellOptions as spec;
ghost use Rattle.myisamkit.specs.ShellReading.{shell_with, shell_seen};

use crate::numbers::number_in;
use myi_keycache::CacheSetup;

/// What one option says.
#[derive(Clone, Copy, Debug, PartialEq, Eq)]
pub(crate) enum ShellFlag {
    Blocks(u32),
    Division(u32),
    Age(u32),
    Concurrent(u8),
}

/// Which option waits for its value.
#[derive(Clone, Copy, Debug, PartialEq, Eq)]
pub(crate) enum ShellKind {
    Blocks,
    Division,
    Age,
    Concurrent,
}

impl ShellKind {
    /// The option that a word names whose value is the word behind it.
    pub(crate) fn of(word: &str) -> Option<ShellKind>
        ensures { result ≡ spec.kind_of word.now }
    {
        match word {
            "--key-cache-blocks" => Some(ShellKind::Blocks),
            "--key-cache-division-limit" => Some(ShellKind::Division),
            "--key-cache-age-threshold" => Some(ShellKind::Age),
            "--concurrent-insert" => Some(ShellKind::Concurrent),
            _ => None,
        }
    }

    /// What the option says with this value.
    pub(crate) fn with(self, value: &str) -> Option<ShellFlag>
        ensures { result ≡ spec.flag_of_kind self value.now }
    {
        match self {
            ShellKind::Blocks => blocks_flag(value),
            ShellKind::Division => division_flag(value),
            ShellKind::Age => age_flag(value),
            ShellKind::Concurrent => concurrent_flag(value),
        }
    }
}

/// How a script is run.
#[derive(Clone, Copy, Debug, PartialEq, Eq)]
pub(crate) struct ShellOptions {
    pub(crate) setup: CacheSetup,
    /// 0, 1 or 2: where inserts may go beside reads.
    pub(crate) concurrent: u8,
}

/// The options that were met.
#[derive(Clone, Copy, Debug, PartialEq, Eq)]
pub(crate) struct ShellSeen {
    pub(crate) blocks: Option<u32>,
    pub(crate) division: Option<u32>,
    pub(crate) age: Option<u32>,
    pub(crate) concurrent: Option<u8>,
}

impl ShellSeen {
    /// One option more, where it did not come before.
    pub(crate) fn with(self, flag: ShellFlag) -> Option<ShellSeen>
        ensures { result ≡ shell_with self flag }
    {
        match flag {
            ShellFlag::Blocks(_) if self.blocks.is_some() => None,
            ShellFlag::Blocks(blocks) => Some(ShellSeen {
                blocks: Some(blocks),
                ..self
            }),
            ShellFlag::Division(_) if self.division.is_some() => None,
            ShellFlag::Division(division) => Some(ShellSeen {
                division: Some(division),
                ..self
            }),
            ShellFlag::Age(_) if self.age.is_some() => None,
            ShellFlag::Age(age) => Some(ShellSeen {
                age: Some(age),
                ..self
            }),
            ShellFlag::Concurrent(_) if self.concurrent.is_some() => None,
            ShellFlag::Concurrent(concurrent) => Some(ShellSeen {
                concurrent: Some(concurrent),
                ..self
            }),
        }
    }

    /// What they ask for.
    pub(crate) fn options(self) -> ShellOptions
        ensures { result ≡ shell_seen self }
    {
        ShellOptions {
            setup: CacheSetup {
                blocks: self.blocks.unwrap_or(64),
                division: self.division.unwrap_or(100),
                age: self.age.unwrap_or(300),
            },
            concurrent: self.concurrent.unwrap_or(1),
        }
    }
}

/// What an option says, with its value behind its name.
pub(crate) fn shell_flag(word: &str) -> Option<ShellFlag>
    ensures { result ≡ spec.shell_flag word.now }
{
    match word.strip_prefix("--key-cache-blocks=") {
        Some(value) => blocks_flag(value),
        None => division_of(word),
    }
}

fn division_of(word: &str) -> Option<ShellFlag>
    ensures { result ≡ spec.division_of word.now }
{
    match word.strip_prefix("--key-cache-division-limit=") {
        Some(value) => division_flag(value),
        None => age_of(word),
    }
}

fn age_of(word: &str) -> Option<ShellFlag>
    ensures { result ≡ spec.age_of word.now }
{
    match word.strip_prefix("--key-cache-age-threshold=") {
        Some(value) => age_flag(value),
        None => concurrent_of(word),
    }
}

fn concurrent_of(word: &str) -> Option<ShellFlag>
    ensures { result ≡ spec.concurrent_of word.now }
{
    match word.strip_prefix("--concurrent-insert=") {
        Some(value) => concurrent_flag(value),
        None => None,
    }
}

fn blocks_flag(value: &str) -> Option<ShellFlag>
    ensures { result ≡ spec.blocks_flag value.now }
{
    let blocks = number_in(1, 65536, value.as_bytes())?;
    Some(ShellFlag::Blocks(blocks as u32))
}

fn division_flag(value: &str) -> Option<ShellFlag>
    ensures { result ≡ spec.division_flag value.now }
{
    let division = number_in(1, 100, value.as_bytes())?;
    Some(ShellFlag::Division(division as u32))
}

fn age_flag(value: &str) -> Option<ShellFlag>
    ensures { result ≡ spec.age_flag value.now }
{
    let age = number_in(100, 1_000_000, value.as_bytes())?;
    Some(ShellFlag::Age(age as u32))
}

fn concurrent_flag(value: &str) -> Option<ShellFlag>
    ensures { result ≡ spec.concurrent_flag value.now }
{
    let concurrent = number_in(0, 2, value.as_bytes())?;
    Some(ShellFlag::Concurrent(concurrent as u8))
}
