//! The blocks of a data file of dynamic rows: what stands at a place, and how a block is written.
//!
//! A row of a dynamic table is one block, or a chain of them from a start by middles to an end; space
//! that no row uses is deleted blocks. A data file is seen as a list of bytes, and `block_of` in
//! `specs/Block` says of each place which block starts there, if any (MySQL Internals Manual, "MyISAM
//! Dynamic Data File Layout").
//!
//! `frame_at` answers the block at a place and lends its row bytes; `head_at` answers what its header
//! says, by its first 20 bytes, and `header_at` also where the row bytes stand. `write_frame` writes a
//! block in the one form that the rules choose, and `deleted_head` the header of a deleted block, whose
//! other bytes stay. `least_size`, `start_room` and `middle_room` say which sizes row bytes need. The laws
//! that the crates above build on are the contracts of the functions in `laws`.
//!
//! ```
//! match frame_at(&bytes, at, file_len) {
//!     Seen::Nothing => out.push_str("none")?,
//!     Seen::Longer(size) => write!(out, "longer {size}")?,
//!     Seen::Frame(frame) => write!(out, "{:?} {} {}", frame.kind, frame.at, frame.size)?,
//! }
//! ```
//!
//! The case `block` in `crates/cases_blocks/src/blocks.rt` runs it.
#![tactic(auto)]

mod form;
mod frame;
mod head;
mod laws;
mod sizes;
mod write;

pub use form::FrameKind;
pub use frame::{Frame, Seen, frame_at};
pub use head::{Head, Header, head_at, header_at};
pub use laws::{
    answers_are_decided, blocks_are_local, blocks_stand, forms_are_chosen_once,
    headers_are_bounded, least_sizes_are_least, rooms_are_greatest, writes_leave_the_rest,
    written_blocks_read_back,
};
pub use sizes::{GIANT, LEAST_SIZE, MOST_SIZE, least_size, middle_room, start_room};
pub use write::{FrameSpec, deleted_head, frame_header, write_frame};
