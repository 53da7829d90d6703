//! Definitions from a creating text.
//!
//! A text is lines of words: `rows static` or `rows dynamic`, `pointer N` or nothing, then fields and then
//! keys with their segments. `parse_text` reads the lines, prints the header that they stand for, and reads
//! the definitions from it, so that a text is refused exactly as its header is.
ghost use Rattle.std.specs.Prelude.{◌≡◌, ◌≢◌, ℕ, Ok, Err, IfOk, IfErr};
ghost use Rattle.myi_deftext.specs.Text.{lines};
ghost use Rattle.myi_deftext.specs.Grammar.{IsFirstOutside};
ghost use Rattle.myi_defs.specs.declared.types.DefFault.{DefFault};
ghost use Rattle.myi_deftext.specs.declared.parse.TextFault.TheVariants as fault;
ghost use Rattle.myi_deftext.specs.ParseText as spec;
ghost use Rattle.myi_defs.specs.ReadDefs.{AreDefs};

use crate::text::{LineFault, read_lines};
use crate::text_header::text_header;
use myi_defs::{DefFault, Defs, read_defs};
use std::alloc::{AllocError, Global};
use thiserror::Error;

/// More lines than a text in the grammar can have, which is 2 of the table, 4096 of fields, and 64 times 17 of
/// keys.
const MOST_LINES: usize = 65535;

/// Why a creating text is refused.
#[derive(Clone, Copy, Debug, PartialEq, Eq, Error)]
pub enum TextFault {
    /// The number of the first line that is not in the grammar, from 1. Where the text ends too early
    /// it is the line after its last.
    #[error("line {0} of the text is wrong")]
    Line(u32),
    /// The header that the text stands for is refused.
    #[error("the table cannot be made: {0}")]
    Def(DefFault),
    #[error("out of memory")]
    Memory,
}

impl From<AllocError> for TextFault {
    ghost use Rattle.std.specs.Prelude.{◌≡◌};
    ghost use Rattle.myi_deftext.specs.declared.parse.TextFault.TheVariants.{Memory};

    ghost from_gives = { λ _ e. e ≡ Memory };

    fn from(_: AllocError) -> Self {
        TextFault::Memory
    }
}

/// The definitions of the table that a creating text describes: those that are read of its header.
pub fn parse_text(alloc: Global, text: &[u8]) -> Result<Defs, TextFault>
    ensures described { IfOk result (λ d. spec.StandsFor text.now (Ok d)) }
    ensures outside { (n : ℕ) → result ≡ Err (fault.Line n) → IsFirstOutside (lines text.now) n }
    ensures refused { (f : DefFault) → result ≡ Err (fault.Def f) → spec.StandsFor text.now (Err f) }
    ensures itself { IfOk result AreDefs }
    ensures read { IfOk result (λ d. spec.parse_text text.now ≡ Ok d) }
    ensures stopped { IfErr result (λ f. f ≢ fault.Memory → spec.parse_text text.now ≡ Err f) }
{
    definitions_of(alloc, text)
}

#[tactic(auto, unfolding(crate::specs::ParseText::parse_text))]
fn definitions_of(alloc: Global, text: &[u8]) -> Result<Defs, TextFault>
    ensures found { IfOk result (λ d. spec.parse_text text.now ≡ Ok d) }
    ensures refused { IfErr result (λ f. f ≢ fault.Memory → spec.parse_text text.now ≡ Err f) }
    ensures itself { IfOk result AreDefs }
{
    let lines = match read_lines(alloc, text) {
        Ok(lines) => lines,
        Err(LineFault::Line(number)) => return Err(TextFault::Line(number)),
        Err(LineFault::Memory) => return Err(TextFault::Memory),
    };
    if lines.len() > MOST_LINES {
        return Err(TextFault::Memory);
    }
    let header = text_header(alloc, &lines)?;
    match read_defs(alloc, &header) {
        Ok(defs) => Ok(defs),
        Err(DefFault::Memory) => Err(TextFault::Memory),
        Err(fault) => Err(TextFault::Def(fault)),
    }
}
