//! Rows with values of their own.
//!
//! A `Row` is a list of values, one for each field, and a `Value` a list of bytes. `unpack` copies the
//! row that a view shows.
ghost use Rattle.std.specs.Prelude.{◌≡◌, ◌++◌, ◌≤◌, ◌-◌, ◌+◌, ◌^◌, ◌<◌};
ghost use Rattle.std.specs.Prelude.{ℕ, length, replicate, IfOk, OnOk};
ghost use Rattle.myi_pack.specs.Packed.{spaces};
ghost use Rattle.myi_pack.specs.Views.{field_value};

use crate::{FieldView, RowView};
use myi_base::Sequence;
use std::alloc::{AllocError, Global};

/// The value of a field: the field's length in bytes for a fixed field, the content for a VARCHAR or BLOB.
pub type Value = Sequence<u8>;

/// One value for each field, in the order of the definitions.
pub type Row = Sequence<Value>;

/// The row that a view shows, copied out of the bytes.
pub fn unpack(alloc: Global, view: &RowView<'_>) -> Result<Row, AllocError>
    ensures { IfOk result (λ row. row ≡ view.now) }
{
    let mut values = Vec::with_capacity(alloc, view.count())?;
    let mut fields = view.fields();
    while let Some((length, shown)) = fields.next_with_length() {
        values.push(value_of(alloc, length as usize, shown)?)?;
    }
    Ok(Sequence::new(values))
}

/// The value that a view shows of a field to which the definitions give so many bytes. What a BLOB holds
/// may be longer.
pub fn value_of(alloc: Global, field: usize, view: FieldView<'_>) -> Result<Value, AllocError>
    requires { field < 65536 }
    ensures { IfOk result (λ value. value ≡ field_value field view.entry) }
{
    let mut bytes = Vec::new(alloc);
    value_into(&mut bytes, field, view)?;
    Ok(Sequence::new(bytes))
}

/// Writes the value that a view shows of a field to which the definitions give so many bytes, in place of
/// what the buffer held. What a BLOB holds may be longer.
pub fn value_into(bytes: &mut Vec<u8>, field: usize, view: FieldView<'_>) -> Result<(), AllocError>
    requires { field < 65536 }
    ensures { OnOk result (bytes.new.items ≡ field_value field view.entry) }
{
    bytes.clear();
    match view {
        FieldView::Plain(value) => bytes.extend_from_slice(value)?,
        FieldView::Padded(content) => {
            bytes.reserve_exact(field)?;
            bytes.extend_from_slice(content)?;
            push_repeated(bytes, b' ', field.saturating_sub(content.len()))?;
        }
        FieldView::Led(content) => {
            bytes.reserve_exact(field)?;
            push_repeated(bytes, b' ', field.saturating_sub(content.len()))?;
            bytes.extend_from_slice(content)?;
        }
        FieldView::Zeros => push_repeated(bytes, 0, field)?,
    }
    Ok(())
}

pub(crate) fn push_repeated(out: &mut Vec<u8>, byte: u8, count: usize) -> Result<(), AllocError>
    requires { count < 2 ^ 32 }
    ensures { OnOk result (out.new.items ≡ out.old.items ++ replicate count byte) }
{
    out.resize(out.len() + count, byte)?;
    Ok(())
}
