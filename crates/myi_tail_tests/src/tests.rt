//! Calls of a tail one after the other, and a round on threads.
ghost use Rattle.std.specs.Prelude.{◌≡◌, ◌≤◌, ◌<◌, All, IfOk};

use crate::{expected_word, run_round};
use myi_tail::{Appender, ReaderSeat, Tail};
use std::alloc::{AllocError, Global};
use std::test::Fail;

// A tail with one reader.
fn pair(alloc: Global, words: usize) -> Result<(Appender, ReaderSeat), AllocError>
    requires { words ≤ 1000 }
    ensures { IfOk result (λ p. p.1.tail ≡ p.0.tail) }
{
    let Tail {
        appender,
        mut readers,
    } = Tail::new(alloc, words, 1)?;
    let reader = readers.pop().unwrap();
    Ok((appender, reader))
}

fn close_pair(alloc: Global, appender: Appender, reader: ReaderSeat) -> Result<Vec<u64>, AllocError>
    requires { reader.tail ≡ appender.tail }
{
    let mut readers = Vec::new(alloc);
    readers.push(reader)?;
    Tail { appender, readers }.close()
}

// Two words: the length, and the bytes low byte first.
#[test]
fn a_row_fills_a_tail_of_four_words_twice(rt: HostRuntime) -> Result<(), Fail> {
    let (mut appender, mut reader) = pair(rt.alloc(), 4)?;
    let row = [1, 2, 3, 4, 5, 6, 7, 8];
    let words = [8, 0x0807_0605_0403_0201, 8, 0x0807_0605_0403_0201];
    assert!(rt; appender.stage(&row).is_ok());
    assert_eq!(rt; appender.publish(), 2);
    assert_eq!(rt; reader.lock(), 2);
    assert!(rt; appender.stage(&row).is_ok());
    assert_eq!(rt; reader.lock(), 2);
    assert_eq!(rt; appender.publish(), 4);
    assert_eq!(rt; reader.lock(), 4);
    let refused = appender.stage(&row).err().map(|e| (e.need, e.free));
    assert_eq!(rt; refused, Some((2, 0)));
    reader.catch_up(4);
    assert_eq!(rt; reader.known(), words.as_slice());
    let all = close_pair(rt.alloc(), appender, reader)?;
    assert_eq!(rt; all.as_slice(), words.as_slice());
    Ok(())
}

// Each lock answers what is published at that moment, and not what it answered before.
#[test]
fn a_lock_loads_the_count_anew(rt: HostRuntime) -> Result<(), Fail> {
    let (mut appender, mut reader) = pair(rt.alloc(), 100)?;
    for row in 0..50u64 {
        assert_eq!(rt; reader.lock(), 2 * row);
        assert!(rt; appender.stage(&[row as u8]).is_ok());
        assert_eq!(rt; reader.lock(), 2 * row);
        appender.publish();
        assert_eq!(rt; reader.lock(), 2 * row + 2);
    }
    Ok(())
}

// Rows of 0, 1, 7, 9, 16 and 17 bytes: what is left of a last word is zeros.
#[test]
fn rows_of_some_lengths(rt: HostRuntime) -> Result<(), Fail> {
    let (mut appender, mut reader) = pair(rt.alloc(), 15)?;
    let bytes = [
        0xF1, 0xF2, 0xF3, 0xF4, 0xF5, 0xF6, 0xF7, 0xF8, 0xE1, 0xE2, 0xE3, 0xE4, 0xE5, 0xE6, 0xE7,
        0xE8, 0xD1,
    ];
    assert!(rt; appender.stage(&[]).is_ok());
    assert!(rt; appender.stage(&bytes[..1]).is_ok());
    assert!(rt; appender.stage(&bytes[..7]).is_ok());
    assert!(rt; appender.stage(&bytes[..9]).is_ok());
    assert!(rt; appender.stage(&bytes[..16]).is_ok());
    assert!(rt; appender.stage(&bytes).is_ok());
    appender.publish();
    let count = reader.lock();
    reader.catch_up(count);
    let words = [
        0,
        1,
        0xF1,
        7,
        0xF7_F6F5_F4F3_F2F1,
        9,
        0xF8F7_F6F5_F4F3_F2F1,
        0xE1,
        16,
        0xF8F7_F6F5_F4F3_F2F1,
        0xE8E7_E6E5_E4E3_E2E1,
        17,
        0xF8F7_F6F5_F4F3_F2F1,
        0xE8E7_E6E5_E4E3_E2E1,
        0xD1,
    ];
    assert_eq!(rt; reader.known(), words.as_slice());
    Ok(())
}

// What is staged and not published is not among the words of a closed tail, nor is a missing reader missed.
#[test]
fn a_tail_closes_with_what_is_published(rt: HostRuntime) -> Result<(), Fail> {
    let Tail { mut appender, .. } = Tail::new(rt.alloc(), 10, 3)?;
    assert!(rt; appender.stage(&[7]).is_ok());
    appender.publish();
    assert!(rt; appender.stage(&[8]).is_ok());
    let readers = Vec::new(rt.alloc());
    let all = Tail { appender, readers }.close()?;
    assert_eq!(rt; all.as_slice(), [1, 7].as_slice());
    Ok(())
}

// A million words by one appender, while eight readers compare each word with the one expected there.
#[test]
fn eight_readers_on_threads(rt: HostRuntime) -> Result<(), Fail> {
    let round = run_round(&rt, rt.alloc(), 8)?.ok_or("no appender")?;
    assert_eq!(rt; round.finished, 8);
    assert_eq!(rt; round.unsound, 0);
    assert_eq!(rt; round.words.len(), 1_000_000);
    let mut place = 0;
    for word in round.words.iter() {
        assert_eq!(rt; *word, expected_word(place));
        place = place.wrapping_add(1);
    }
    Ok(())
}
