//! The words behind `shell`.
ghost use Rattle.std.specs.Prelude.{◌≡◌, None, Some, map, option_map, string_bytes};
ghost use Rattle.myisamkit.specs.Words as spec;
ghost use Rattle.myisamkit.specs.ShellReading as reading;
ghost use Rattle.myisamkit.specs.ShellOptions.{kind_of};
ghost use Rattle.myisamkit.specs.Plans.{asked};

use crate::shell_options::{ShellKind, ShellSeen, shell_flag};
use crate::shell_ready::Job;
use crate::words::{Plan, has_dash, is_end, is_name, names_table, table_name};

/// What was read of the words but names.
#[derive(Clone, Copy)]
pub(crate) struct ShellRead {
    pub(crate) seen: ShellSeen,
    /// This option has its value in the next word.
    pub(crate) waits: Option<ShellKind>,
    /// The word came behind which all are names.
    pub(crate) ended: bool,
}

impl ShellRead {
    fn is_name(self, word: &str) -> bool
        ensures { result ≡ reading.is_shell_name self word.now }
    {
        self.waits.is_none() && names_table(word, self.ended)
    }

    // A word more that is no name.
    fn with(self, word: &str) -> Option<ShellRead>
        ensures { result ≡ reading.read_shell_word self word.now }
    {
        match self.waits {
            Some(kind) => self.with_value(kind, word),
            None if is_end(word) => Some(ShellRead {
                ended: true,
                ..self
            }),
            None => self.with_option(word),
        }
    }

    fn with_value(self, kind: ShellKind, word: &str) -> Option<ShellRead>
        ensures { result ≡ reading.read_waiting self (Some kind) word.now }
    {
        if has_dash(word) {
            return None;
        }
        let seen = self.seen.with(kind.with(word)?)?;
        Some(ShellRead {
            seen,
            waits: None,
            ..self
        })
    }

    fn with_option(self, word: &str) -> Option<ShellRead>
        ensures { result ≡ reading.read_option self (kind_of word.now) word.now }
    {
        match ShellKind::of(word) {
            Some(kind) => Some(ShellRead {
                waits: Some(kind),
                ..self
            }),
            None => {
                let seen = self.seen.with(shell_flag(word)?)?;
                Some(ShellRead { seen, ..self })
            }
        }
    }
}

pub(crate) fn plan_shell(words: &[String]) -> Plan<'_>
    ensures { asked result
        ≡ spec.plan_shell (spec.shell_spelled_out (map (λ w. string_bytes w) words.now)) }
{
    match read_shell(words) {
        Some((seen, name, script)) => Plan::Shell(Job {
            options: seen.options(),
            name: table_name(name),
            script,
        }),
        None => Plan::Usage,
    }
}

// The options and the two names among the words behind `shell`, where all are in form.
fn read_shell(words: &[String]) -> Option<(ShellSeen, &str, &str)>
    ensures { option_map (λ r. (r.0, r.1.now, r.2.now)) result
        ≡ reading.shell_left reading.shell_read_none None None
        (map (λ w. string_bytes w) words.now) }
{
    let mut read = read_none();
    let mut name = None;
    let mut script = None;
    for word in words {
        let word = word.as_str();
        if read.is_name(word) {
            if script.is_some() || !is_name(word) {
                return None;
            }
            if name.is_some() {
                script = Some(word);
            } else {
                name = Some(word);
            }
        } else {
            read = read.with(word)?;
        }
    }
    if read.waits.is_some() {
        return None;
    }
    Some((read.seen, name?, script?))
}

// Nothing was read.
fn read_none() -> ShellRead
    ensures { result ≡ reading.shell_read_none }
{
    ShellRead {
        seen: ShellSeen {
            blocks: None,
            division: None,
            age: None,
            concurrent: None,
        },
        waits: None,
        ended: false,
    }
}
