//! Sharing a table among one inserter and many readers, and taking it back.
//!
//! While a table is shared its two files stay as they are. The inserter puts rows behind their end (`myi_inserter`), and
//! the readers read the table with those that they know (`myi_readers`), each through reader objects of its own; so each may
//! be on a thread of its own.
//!
//! - `begin_sharing` writes what a table has put that stays with its owner, and makes the parts: `Parts`, which a caller takes
//!   apart. `take_back` takes them back, and puts the rows into the table. Readers may be missing.
//! - `share` and `Shared::close` do the same with a table that is handed over: a `Shared` holds it with its parts.
//! - The law `calls_keep_parts` says that the calls of an inserter and of readers leave parts of the same sharing.
//!
//! That parts are of one sharing is `ArePartsBeside`, with the rows that the inserter put; of a `Shared` it is `ArePartsOf`.
//!
//! ```
//! let Parts { inserter, readers } = begin_sharing(alloc, &mut table, &mut files, 2, 1000, 0)?;
//! take_back(&mut table, &mut files, inserter, readers)?;
//! ```
#![tactic(auto)]

mod closing;
mod fault;
mod laws;
mod opening;
mod sharing;

pub use closing::take_back;
pub use fault::ShareFault;
pub use laws::calls_keep_parts;
pub use opening::Parts;
pub use sharing::{ShareRest, Shared, begin_sharing, share};
