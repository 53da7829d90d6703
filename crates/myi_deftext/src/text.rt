//! The lines of a creating text.
//!
//! A `Line` is what a line says, made from its words. A `Stage` says how far a text has come, and so which
//! line may follow. `read_lines` answers the lines of a text that is in the grammar, or the number of
//! the first that is not.
ghost use Rattle.std.specs.Prelude.{◌≡◌, ◌≢◌, ◌==◌, nat_le, ◌≤◌, ◌+◌, ◌⊎◌, ℕ, if◌then◌else◌};
ghost use Rattle.std.specs.Prelude.{option_and_then, IfSome, IfNone, Some, None, map, IfOk, IfErr};
ghost use Rattle.std.specs.List.{list_all, slice_split};
ghost use Rattle.myi_deftext.specs.declared.text.LineFault.TheVariants as fault;
ghost use Rattle.myi_deftext.specs.Text as spec;

use myi_defs::{FieldKind, MOST_FIELDS, MOST_KEYS, MOST_SEGMENTS, RowFormat, SegItem, SegType};
use std::alloc::{AllocError, AllocFailed, Global};

/// What a line says.
#[derive(Clone, Copy)]
pub enum Line {
    Rows(RowFormat),
    Pointer(u8),
    Field(FieldKind, u16),
    Key(bool),
    Seg(SegItem),
}

/// The kind of the last line.
#[derive(Clone, Copy)]
pub enum LineKind {
    Start,
    Rows,
    Pointer,
    Fields,
    Key,
    Segments,
}

/// How far a text has come: its last line, its fields and keys, and the segments of its last key.
#[derive(Clone, Copy)]
pub struct Stage {
    pub last: LineKind,
    pub fields: u16,
    pub keys: u8,
    pub segments: u8,
}

/// Why lines are refused.
#[derive(Clone, Copy)]
pub enum LineFault {
    /// The number of the first line that is not in the grammar, from 1.
    Line(u32),
    Memory,
}

impl From<AllocError> for LineFault {
    ghost use Rattle.std.specs.Prelude.{◌≡◌};
    ghost use Rattle.myi_deftext.specs.declared.text.LineFault.TheVariants.{Memory};

    ghost from_gives = { λ _ e. e ≡ Memory };

    fn from(_: AllocError) -> Self {
        LineFault::Memory
    }
}

impl<T: Drop> From<AllocFailed<T>> for LineFault {
    ghost use Rattle.std.specs.Prelude.{◌≡◌};
    ghost use Rattle.myi_deftext.specs.declared.text.LineFault.TheVariants.{Memory};

    ghost from_gives = { λ _ e. e ≡ Memory };

    fn from(_: AllocFailed<T>) -> Self {
        LineFault::Memory
    }
}

fn pieces<'a>(alloc: Global, text: &'a [u8], byte: u8) -> Result<Vec<&'a [u8]>, AllocError>
    ensures { IfOk result (λ v. map (λ s. s.now) v.items ≡ slice_split (λ b. b == byte) text.now) }
{
    text.split(|b| *b == byte).collect(alloc)
}

fn without_end(text: &[u8]) -> &[u8]
    ensures { result.now ≡ spec.without_end text.now }
{
    if !text.is_empty() && text[text.len() - 1] == b'\n' {
        &text[..text.len() - 1]
    } else {
        text
    }
}

#[tactic(auto, unfolding(crate::specs::Text::is_decimal))]
fn is_decimal(word: &[u8]) -> bool
    ensures { result ≡ spec.is_decimal word.now }
{
    are_digits(word) && (word.len() == 1 || word.len() > 1 && word[0] != b'0')
}

fn are_digits(word: &[u8]) -> bool
    ensures { result ≡ list_all spec.is_digit word.now }
{
    word.iter().all(|b| is_digit(*b))
}

fn is_digit(byte: u8) -> bool
    ensures { result ≡ spec.is_digit byte }
{
    byte >= b'0' && byte <= b'9'
}

#[tactic(auto, unfolding(crate::specs::Text::number))]
fn number(least: u32, most: u32, word: &[u8]) -> Option<u32>
    ensures value { result ≡ spec.number least most word.now }
    ensures few { IfSome result (λ n. n ≤ most) }
{
    if !is_decimal(word) {
        return None;
    }
    let value = value(most, word)?;
    if value < least {
        return None;
    }
    Some(value)
}

// None where the value is above the greatest.
fn value(most: u32, word: &[u8]) -> Option<u32>
    ensures value { result
        ≡ (if nat_le (spec.value word.now) most then Some (spec.value word.now) else None) }
    ensures few { IfSome result (λ n. n ≤ most) }
{
    let mut value = 0u64;
    for byte in word {
        value = value * 10 + (*byte as u64).saturating_sub(48);
        if value > most as u64 {
            return None;
        }
    }
    Some(value as u32)
}

/// What a line says, by its words.
#[tactic(auto, unfolding(crate::specs::Text::line_of))]
fn line_of(words: &[&[u8]]) -> Option<Line>
    ensures { result ≡ spec.line_of (map (λ w. w.now) words.now) }
{
    match words {
        [a, b] => two_words(a, b),
        [a, b, c] => {
            if *a == b"field".as_slice() {
                field_line(b, c)
            } else {
                None
            }
        }
        [a, b, c, d, e, f, g] => {
            if *a == b"seg".as_slice() {
                seg_line(b, c, d, e, f, g)
            } else {
                None
            }
        }
        _ => None,
    }
}

#[tactic(auto, unfolding(crate::specs::Text::two_words))]
fn two_words(a: &[u8], b: &[u8]) -> Option<Line>
    ensures { result ≡ spec.two_words a.now b.now }
{
    if a == b"rows".as_slice() {
        return Some(Line::Rows(format_of(b)?));
    }
    if a == b"pointer".as_slice() {
        return Some(Line::Pointer(number(2, 8, b)? as u8));
    }
    if a == b"key".as_slice() {
        return Some(Line::Key(unique_of(b)?));
    }
    None
}

#[tactic(auto, unfolding(crate::specs::Text::field_line))]
fn field_line(kind: &[u8], length: &[u8]) -> Option<Line>
    ensures { result ≡ spec.field_line kind.now length.now }
{
    let kind = kind_of(kind)?;
    let length = number(0, 65535, length)?;
    Some(Line::Field(kind, length as u16))
}

#[tactic(auto, unfolding(crate::specs::Text::seg_line))]
fn seg_line(
    seg: &[u8],
    start: &[u8],
    length: &[u8],
    collation: &[u8],
    null_bit: &[u8],
    null_pos: &[u8],
) -> Option<Line>
    ensures { result
        ≡ spec.seg_line seg.now start.now length.now collation.now null_bit.now null_pos.now }
{
    let seg = seg_of(seg)?;
    let start = number(0, u32::MAX, start)?;
    let length = number(0, 65535, length)?;
    let language = number(0, 65535, collation)?;
    let null_bit = number(0, 255, null_bit)?;
    let null_pos = number(0, u32::MAX, null_pos)?;
    Some(Line::Seg(SegItem {
        seg: Some(seg),
        language: language as u16,
        null_bit: null_bit as u8,
        length: length as u16,
        start,
        null_pos,
    }))
}

#[tactic(auto, unfolding(crate::specs::Text::format_of))]
fn format_of(word: &[u8]) -> Option<RowFormat>
    ensures { result ≡ spec.format_of word.now }
{
    if word == b"static".as_slice() {
        Some(RowFormat::Static)
    } else if word == b"dynamic".as_slice() {
        Some(RowFormat::Dynamic)
    } else {
        None
    }
}

#[tactic(auto, unfolding(crate::specs::Text::unique_of))]
fn unique_of(word: &[u8]) -> Option<bool>
    ensures { result ≡ spec.unique_of word.now }
{
    if word == b"unique".as_slice() {
        Some(true)
    } else if word == b"plain".as_slice() {
        Some(false)
    } else {
        None
    }
}

#[tactic(auto, unfolding(crate::specs::Text::kind_of))]
fn kind_of(word: &[u8]) -> Option<FieldKind>
    ensures { result ≡ spec.kind_of word.now }
{
    if word == b"normal".as_slice() {
        Some(FieldKind::Normal)
    } else if word == b"skip_endspace".as_slice() {
        Some(FieldKind::SkipEndspace)
    } else if word == b"skip_prespace".as_slice() {
        Some(FieldKind::SkipPrespace)
    } else if word == b"skip_zero".as_slice() {
        Some(FieldKind::SkipZero)
    } else if word == b"varchar".as_slice() {
        Some(FieldKind::Varchar)
    } else if word == b"blob".as_slice() {
        Some(FieldKind::Blob)
    } else {
        None
    }
}

#[tactic(auto, unfolding(crate::specs::Text::seg_of))]
fn seg_of(word: &[u8]) -> Option<SegType>
    ensures { result ≡ spec.seg_of word.now }
{
    if word == b"text".as_slice() {
        Some(SegType::Text)
    } else if word == b"binary".as_slice() {
        Some(SegType::Binary)
    } else if word == b"vartext".as_slice() {
        Some(SegType::VarText)
    } else if word == b"varbinary".as_slice() {
        Some(SegType::VarBinary)
    } else {
        match signed_of(word) {
            Some(signed) => Some(signed),
            None => unsigned_of(word),
        }
    }
}

#[tactic(auto, unfolding(crate::specs::Text::signed_of))]
fn signed_of(word: &[u8]) -> Option<SegType>
    ensures { result ≡ spec.signed_of word.now }
{
    if word == b"short_int".as_slice() {
        Some(SegType::ShortInt)
    } else if word == b"long_int".as_slice() {
        Some(SegType::LongInt)
    } else if word == b"longlong".as_slice() {
        Some(SegType::Longlong)
    } else if word == b"int24".as_slice() {
        Some(SegType::Int24)
    } else if word == b"int8".as_slice() {
        Some(SegType::Int8)
    } else {
        None
    }
}

#[tactic(auto, unfolding(crate::specs::Text::unsigned_of))]
fn unsigned_of(word: &[u8]) -> Option<SegType>
    ensures { result ≡ spec.unsigned_of word.now }
{
    if word == b"ushort_int".as_slice() {
        Some(SegType::UshortInt)
    } else if word == b"ulong_int".as_slice() {
        Some(SegType::UlongInt)
    } else if word == b"ulonglong".as_slice() {
        Some(SegType::Ulonglong)
    } else if word == b"uint24".as_slice() {
        Some(SegType::Uint24)
    } else {
        None
    }
}

impl Stage {
    /// Where a text is after one more line; none where the line may not follow.
    fn next(self, line: Line) -> Option<Stage>
        ensures { result ≡ spec.next self line }
    {
        match line {
            Line::Rows(_) => match self.last {
                LineKind::Start => Some(Stage {
                    last: LineKind::Rows,
                    ..self
                }),
                _ => None,
            },
            Line::Pointer(_) => match self.last {
                LineKind::Rows => Some(Stage {
                    last: LineKind::Pointer,
                    ..self
                }),
                _ => None,
            },
            Line::Field(_, _) => self.field(),
            Line::Key(_) => self.key(),
            Line::Seg(_) => self.segment(),
        }
    }

    fn field(self) -> Option<Stage>
        ensures { result ≡ spec.next_field self }
    {
        match self.last {
            LineKind::Rows | LineKind::Pointer | LineKind::Fields => {}
            _ => return None,
        }
        if self.fields >= MOST_FIELDS {
            return None;
        }
        Some(Stage {
            last: LineKind::Fields,
            fields: self.fields + 1,
            ..self
        })
    }

    fn key(self) -> Option<Stage>
        ensures { result ≡ spec.next_key self }
    {
        match self.last {
            LineKind::Fields | LineKind::Segments => {}
            _ => return None,
        }
        if self.keys >= MOST_KEYS {
            return None;
        }
        Some(Stage {
            last: LineKind::Key,
            keys: self.keys + 1,
            segments: 0,
            ..self
        })
    }

    fn segment(self) -> Option<Stage>
        ensures { result ≡ spec.next_segment self }
    {
        match self.last {
            LineKind::Key | LineKind::Segments => {}
            _ => return None,
        }
        if self.segments >= MOST_SEGMENTS {
            return None;
        }
        Some(Stage {
            last: LineKind::Segments,
            segments: self.segments + 1,
            ..self
        })
    }

    fn may_end(self) -> bool
        ensures { result ≡ spec.may_end self.last }
    {
        match self.last {
            LineKind::Fields | LineKind::Segments => true,
            _ => false,
        }
    }
}

/// The lines of a text that is in the grammar, or the number of the first line that is not.
pub(crate) fn read_lines(alloc: Global, text: &[u8]) -> Result<Vec<Line>, LineFault>
    ensures inside { IfOk result (λ v.
        spec.outside (Some spec.start) 0 (spec.lines text.now) ≡ None) }
    ensures said { IfOk result (λ v. v.items ≡ spec.said (spec.lines text.now)) }
    ensures outside { (n : ℕ) → result ≡ Err (fault.Line n)
        → spec.outside (Some spec.start) 0 (spec.lines text.now) ≡ Some n }
{
    let lines = pieces(alloc, without_end(text), b'\n')?;
    let said = followed(alloc, &lines)?;
    Ok(said)
}

fn followed(alloc: Global, lines: &[&[u8]]) -> Result<Vec<Line>, LineFault>
    ensures inside { IfOk result (λ v.
        spec.outside (Some spec.start) 0 (map (λ l. l.now) lines.now) ≡ None) }
    ensures said { IfOk result (λ v. v.items ≡ spec.said (map (λ l. l.now) lines.now)) }
    ensures outside { (n : ℕ) → result ≡ Err (fault.Line n)
        → spec.outside (Some spec.start) 0 (map (λ l. l.now) lines.now) ≡ Some n }
{
    let mut said = Vec::new(alloc);
    let mut stage = Stage {
        last: LineKind::Start,
        fields: 0,
        keys: 0,
        segments: 0,
    };
    for (i, line) in lines.iter().enumerate() {
        match followed_by(alloc, stage, line)? {
            Some((line, next)) => {
                said.push(line)?;
                stage = next;
            }
            None => return Err(outside(i)),
        }
    }
    if stage.may_end() {
        Ok(said)
    } else {
        Err(outside(lines.len()))
    }
}

// What the next line says, and the stage behind it; none where it may not follow.
#[tactic(auto, unfolding(crate::specs::Text::step))]
fn followed_by(
    alloc: Global,
    stage: Stage,
    line: &[u8],
) -> Result<Option<(Line, Stage)>, AllocError>
    ensures none { IfOk result (λ o. IfNone o (spec.step stage line.now ≡ None)) }
    ensures says { IfOk result (λ o.
        IfSome o (λ p. spec.line_of (spec.words line.now) ≡ Some p.0)) }
    ensures goes { IfOk result (λ o. IfSome o (λ p. spec.step stage line.now ≡ Some p.1)) }
{
    let words = pieces(alloc, line, b' ')?;
    Ok(next_of(stage, &words))
}

fn next_of(stage: Stage, words: &[&[u8]]) -> Option<(Line, Stage)>
    ensures none { IfNone result
        (option_and_then (spec.next stage) (spec.line_of (map (λ w. w.now) words.now)) ≡ None) }
    ensures says { IfSome result (λ p. spec.line_of (map (λ w. w.now) words.now) ≡ Some p.0) }
    ensures goes { IfSome result (λ p. spec.next stage p.0 ≡ Some p.1) }
{
    let line = line_of(words)?;
    let next = stage.next(line)?;
    Some((line, next))
}

// The line after so many is outside. A text of 2^32 lines is not kept.
fn outside(before: usize) -> LineFault
    ensures { (n : ℕ) → result ≡ fault.Line n → n ≡ before + 1 }
{
    match u32::try_from(before) {
        Ok(before) if before < u32::MAX => LineFault::Line(before + 1),
        _ => LineFault::Memory,
    }
}
