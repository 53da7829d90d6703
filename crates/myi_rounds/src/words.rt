//! How many words of a tail a run of inserts needs.
ghost use Rattle.std.specs.Prelude.{◌≡◌, ◌+◌, ◌^◌, ◌<◌, IfOk, IfErr, sum_by};
ghost use Rattle.myi_defs.specs.Sound.{IsSound};
ghost use Rattle.myi_history.specs.Lines.{MayRun};
ghost use Rattle.myi_rounds.specs.declared.fault.RoundFault.TheVariants.{Memory};
ghost use Rattle.myi_rounds.specs.Words.{step_words};

use crate::fault::RoundFault;
use crate::round::AskedRound;
use crate::statements::act_of;
use myi_defs::Defs;
use myi_locks::Step;
use myi_pack::pack;
use myi_script::{Act, Line};
use std::alloc::{AllocError, Global};

// How many words the row of a step takes, if it inserts one.
fn words_of(alloc: Global, defs: &Defs, lines: &[Line], step: &Step) -> Result<usize, AllocError>
    requires sound { IsSound defs.now }
    requires lines { MayRun defs.now lines.now }
    ensures { IfOk result (λ words. words ≡ step_words defs.now lines.now step.now) }
{
    let Some(act) = act_of(lines, step.line) else {
        return Ok(0);
    };
    let Act::Insert(row) = act else {
        return Ok(0);
    };
    let packed = pack(alloc, defs, row)?;
    Ok(packed.len().div_ceil(8) + 1)
}

/// How many words the rows of a round's inserts take. It is refused where numbers of changes would pass 64 bits.
pub(crate) fn room_for(
    alloc: Global,
    defs: &Defs,
    asked: &AskedRound<'_>,
) -> Result<usize, RoundFault>
    requires sound { IsSound defs.now }
    requires lines { MayRun defs.now asked.now.lines.now }
    ensures words { IfOk result (λ words. words
        ≡ sum_by (step_words defs.now asked.now.lines.now) asked.now.inserts.now) }
    ensures room { IfOk result (λ words. words < usize.MAX) }
    ensures small { IfOk result (λ words. asked.now.number + words < 2 ^ 64) }
    ensures refused { IfErr result (λ f. f ≡ Memory) }
{
    let mut words = 0usize;
    for step in asked.inserts {
        let more = words_of(alloc, defs, asked.lines, step)?;
        let Some(sum) = words.checked_add(more) else {
            return Err(RoundFault::Memory);
        };
        words = sum;
    }
    if words == usize::MAX || asked.number.checked_add(words as u64).is_none() {
        return Err(RoundFault::Memory);
    }
    Ok(words)
}
