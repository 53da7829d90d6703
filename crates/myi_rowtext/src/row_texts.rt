//! `RowTexts`: the buffers that serve for the texts of many rows.
ghost use Rattle.std.specs.Prelude.{◌≡◌, ◌<◌, ◌++◌, Some, OnOk, OnErr};
ghost use Rattle.std.specs.List.{flat_map};
ghost use Rattle.myi_base.specs.Output.{AppendsPart};
ghost use Rattle.myi_rowtext.specs.RowText.{digit, byte_text, value_text, values_text};

use myi_pack::{Row, RowView, value_into};
use std::alloc::{AllocError, Global};

/// Buffers for a number's text and for one value.
pub struct RowTexts {
    number: String,
    value: Vec<u8>,
}

impl Drop for RowTexts {
    fn drop(self) {
        let RowTexts {
            number: _,
            value: _,
        } = self;
    }
}

impl RowTexts {
    ghost use Rattle.std.specs.Prelude.{◌≡◌, ◌++◌, Some, OnOk, OnErr};
    ghost use Rattle.myi_base.specs.Output.{AppendsPart};
    ghost use Rattle.myi_rowtext.specs.RowText.{row_text};

    /// Empty buffers, for which no memory is taken.
    pub fn new(alloc: Global) -> RowTexts {
        RowTexts {
            number: String::new(alloc),
            value: Vec::new(alloc),
        }
    }

    /// Appends the text of the row at a place. Where memory runs out, a first part of it may have been appended.
    pub fn push(&mut self, out: &mut Vec<u8>, at: u64, row: &RowView<'_>) -> Result<(), AllocError>
        ensures text { OnOk result (out.new.items ≡ out.old.items ++ row_text at row.now) }
        ensures part { OnErr result
            (AppendsPart (row_text at row.now) (Some out.new.items) out.old.items) }
    {
        self.number.clear();
        write!(self.number, "{at}")?;
        out.extend_from_slice(self.number.as_bytes())?;
        push_values(out, &mut self.value, row)
    }

    /// Appends the text of a row at a place, where the row is held and not lent.
    pub fn push_row(&mut self, out: &mut Vec<u8>, at: u64, row: &Row) -> Result<(), AllocError>
        ensures { OnOk result (out.new.items ≡ out.old.items ++ row_text at row.now) }
    {
        self.number.clear();
        write!(self.number, "{at}")?;
        out.extend_from_slice(self.number.as_bytes())?;
        for value in row.as_slice() {
            out.push(b' ')?;
            push_value(out, value.as_slice())?;
        }
        Ok(())
    }
}

// Appends the values of a row.
fn push_values(out: &mut Vec<u8>, value: &mut Vec<u8>, row: &RowView<'_>) -> Result<(), AllocError>
    ensures text { OnOk result (out.new.items ≡ out.old.items ++ values_text row.now) }
    ensures part { OnErr result
        (AppendsPart (values_text row.now) (Some out.new.items) out.old.items) }
{
    let mut fields = row.fields();
    while let Some((length, shown)) = fields.next_with_length() {
        value_into(value, length as usize, shown)?;
        out.push(b' ')?;
        push_value(out, value)?;
    }
    Ok(())
}

// Appends a value.
fn push_value(out: &mut Vec<u8>, value: &[u8]) -> Result<(), AllocError>
    ensures text { OnOk result (out.new.items ≡ out.old.items ++ value_text value.now) }
    ensures part { OnErr result
        (AppendsPart (value_text value.now) (Some out.new.items) out.old.items) }
{
    if value.is_empty() {
        out.push(b'-')?;
    } else {
        push_digits(out, value)?;
    }
    Ok(())
}

fn push_digits(out: &mut Vec<u8>, value: &[u8]) -> Result<(), AllocError>
    ensures text { OnOk result (out.new.items ≡ out.old.items ++ flat_map byte_text value.now) }
    ensures part { OnErr result
        (AppendsPart (flat_map byte_text value.now) (Some out.new.items) out.old.items) }
{
    for byte in value {
        out.push(digit(*byte / 16))?;
        out.push(digit(*byte % 16))?;
    }
    Ok(())
}

// A number below 16.
fn digit(number: u8) -> u8
    requires { number < 16 }
    ensures { result ≡ digit number }
{
    if number < 10 {
        b'0' + number
    } else {
        b'A' + (number - 10)
    }
}
