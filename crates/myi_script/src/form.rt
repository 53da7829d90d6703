//! Which contents a field or a key segment can have, and which numbers stand for them.
ghost use Rattle.std.specs.Prelude.{◌≡◌, ◌≤◌, ◌<◌, ◌+◌, ◌-◌, ◌/◌, ◌^◌, IfSome};
ghost use Rattle.myi_defs.specs.Sound.{IsLengthOf};
ghost use Rattle.myi_pack.specs.Lengths.{length_bytes};
ghost use Rattle.myi_script.specs.Values as spec;

use myi_defs::{Field, FieldKind, RowFormat, SegType, Segment};

/// Which decimal numbers stand for a content.
#[derive(Clone, Copy, Debug, PartialEq, Eq)]
pub(crate) enum Numbers {
    Nothing,
    /// From 0 to the greatest that its bytes hold.
    Unsigned,
    /// As many below 0 as from 0 on.
    Signed,
    /// Those of both, where a field's type is not known.
    Either,
}

/// Which contents there are: of exactly so many bytes, or of at most so many.
#[derive(Clone, Copy, Debug, PartialEq, Eq)]
pub(crate) struct Form {
    pub fixed: bool,
    pub most: u64,
    pub numbers: Numbers,
}

impl Form {
    /// The contents of a field.
    #[tactic(auto, unfolding(crate::specs::Values::field_form))]
    pub(crate) fn of_field(format: RowFormat, field: &Field) -> Form
        requires { IsLengthOf format field.now.kind field.now.length }
        ensures { result ≡ spec.field_form field.now }
    {
        let length = field.length as u64;
        match field.kind {
            FieldKind::Varchar => Form::up_to(length - length_bytes(length)),
            FieldKind::Blob => Form::up_to(greatest_of(length - 8)),
            _ => Form {
                fixed: true,
                most: length,
                numbers: field_numbers(length),
            },
        }
    }

    /// The contents of a key segment.
    #[tactic(auto, unfolding(crate::specs::Values::segment_form))]
    pub(crate) fn of_segment(segment: &Segment) -> Form
        ensures { result ≡ spec.segment_form segment.now }
    {
        let most = segment.length as u64;
        if segment.seg.is_variable() {
            return Form::up_to(most);
        }
        Form {
            fixed: true,
            most,
            numbers: segment_numbers(segment.seg),
        }
    }

    // Contents of any length up to this one.
    fn up_to(most: u64) -> Form
        ensures { result ≡ spec.up_to most }
    {
        Form {
            fixed: false,
            most,
            numbers: Numbers::Nothing,
        }
    }

    /// The greatest number that stands for a content.
    pub(crate) fn greatest(self) -> Option<u64>
        requires { spec.IsForm self }
        ensures value { result ≡ spec.greatest self.numbers self.most }
        ensures below { IfSome result (λ n. n < 256 ^ self.most) }
    {
        match self.numbers {
            Numbers::Nothing => None,
            Numbers::Signed => Some(greatest_of(self.most) / 2),
            Numbers::Unsigned | Numbers::Either => Some(greatest_of(self.most)),
        }
    }

    /// How far below 0 the least number is that stands for a content.
    pub(crate) fn depth(self) -> Option<u64>
        requires { spec.IsForm self }
        ensures { result ≡ spec.depth self.numbers self.most }
    {
        match self.numbers {
            Numbers::Nothing | Numbers::Unsigned => None,
            Numbers::Signed | Numbers::Either => Some(greatest_of(self.most) / 2 + 1),
        }
    }

    /// Whether a content has a length that there is.
    pub(crate) fn fits(self, length: usize) -> bool
        ensures { result ≡ spec.fits_form self length }
    {
        if self.fixed {
            length as u64 == self.most
        } else {
            length as u64 <= self.most
        }
    }
}

// How many bytes of a VARCHAR field's length are those of its content's length.
fn length_bytes(length: u64) -> u64
    ensures { result ≡ length_bytes length }
{
    if length <= 256 { 1 } else { 2 }
}

// The numbers that stand for the content of a fixed field of so many bytes.
fn field_numbers(length: u64) -> Numbers
    ensures { result ≡ spec.field_numbers length }
{
    if length <= 8 {
        Numbers::Either
    } else {
        Numbers::Nothing
    }
}

// The numbers that stand for the content of a key segment of this type.
fn segment_numbers(seg: SegType) -> Numbers
    ensures { result ≡ spec.segment_numbers seg }
{
    match seg {
        SegType::ShortInt | SegType::LongInt | SegType::Longlong | SegType::Int24 | SegType::Int8 =>
            Numbers::Signed,
        SegType::UshortInt | SegType::UlongInt | SegType::Ulonglong | SegType::Uint24 => {
            Numbers::Unsigned
        }
        SegType::Text | SegType::Binary | SegType::VarText | SegType::VarBinary => Numbers::Nothing,
    }
}

/// The greatest number of so many bytes.
pub(crate) fn greatest_of(width: u64) -> u64
    requires some { 0 < width }
    requires narrow { width ≤ 8 }
    ensures value { result ≡ 256 ^ width - 1 }
    ensures below { result < 256 ^ width }
    ensures half { result / 2 + 1 ≡ 256 ^ width / 2 }
{
    match width {
        1 => 0xFF,
        2 => 0xFFFF,
        3 => 0xFF_FFFF,
        4 => 0xFFFF_FFFF,
        5 => 0xFF_FFFF_FFFF,
        6 => 0xFFFF_FFFF_FFFF,
        7 => 0xFF_FFFF_FFFF_FFFF,
        _ => u64::MAX,
    }
}
