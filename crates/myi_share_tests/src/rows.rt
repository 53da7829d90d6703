//! The table that is shared, and its rows: they are numbered from 1, and each has a text of a length of its own.
ghost use Rattle.std.specs.Prelude.{◌≡◌, true, IfOk, IfSome};
ghost use Rattle.myi_defs.specs.Sound.{IsSound};
ghost use Rattle.myi_pack.specs.Spelling.{fits};

use myi_base::Sequence;
use myi_defs::Defs;
use myi_keycache::CacheSetup;
use myi_pack::{Row, Value, fits};
use std::alloc::{AllocError, Global};

/// The name of the table.
pub const NAME: &str = "t";

/// A key cache of few pages, so that pages leave it.
pub const SETUP: CacheSetup = CacheSetup {
    blocks: 4,
    division: 100,
    age: 300,
};

/// Its creating text: a unique key on a row's number, and a plain one on its text.
pub const TEXT: &[u8] =
    b"rows dynamic\nfield normal 1\nfield normal 4\nfield varchar 101\nkey unique\nseg long_int 1 4 0 0 0\nkey plain\nseg vartext 5 100 8 0 0\n";

/// The row of a number, where the definitions take it.
pub fn row_of(alloc: Global, defs: &Defs, number: u32) -> Result<Option<Row>, AllocError>
    requires { IsSound defs.now }
    ensures { IfOk result (λ o. IfSome o (λ row. fits defs.now row ≡ true)) }
{
    let mut text = Vec::new(alloc);
    for _ in 0..number % 90 {
        text.push(b'x')?;
    }
    let mut values: Vec<Value> = Vec::with_capacity(alloc, 3)?;
    values.push(Sequence::new(Vec::from_slice(alloc, &[0xFE])?))?;
    values.push(Sequence::new(Vec::from_slice(alloc, &number.to_le_bytes())?))?;
    values.push(Sequence::new(text))?;
    let row = Sequence::new(values);
    if fits(defs, &row) {
        Ok(Some(row))
    } else {
        Ok(None)
    }
}

/// The number of a row.
pub fn number_of(row: &Row) -> Option<u32> {
    let value = row.as_slice().get(1)?;
    let [a, b, c, d] = value.as_slice() else {
        return None;
    };
    Some(u32::from_le_bytes([*a, *b, *c, *d]))
}
