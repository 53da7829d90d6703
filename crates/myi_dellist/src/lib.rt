//! The deleted list of a data file: where the bytes of a row go, and what becomes of space that no row
//! uses.
//!
//! A data file of dynamic rows is tiled by blocks of rows and by deleted blocks, which form a list, each
//! naming the next one and the one before it. Here the list is a list of areas (`Space` in
//! `specs/Placing`: the deleted blocks from their head, and the file's end). `place` says which blocks a
//! row of so many bytes takes: in an update its own first, then those of the list from its head, then
//! space behind the end. `release` says how the list grows: what is released becomes its head, joined
//! with the deleted block directly behind it.
//!
//! What holds of these is said by counting: below each place rows and deleted blocks have together as
//! many bytes as stand there (`Tile` in `specs/Areas`), before and after each change. `specs/Standing`
//! says when a file's bytes have a list, and which bytes a release writes; `specs/Freeing` what a release
//! needs of the blocks that stand in the file, and `specs/Merging` the same of taking in the block behind
//! an area. `specs/RowBlocks` says which blocks a placed row is. The laws are the contracts of the
//! functions in `laws`.
//!
//! `FreeList` is the list of one file, by its head and the file's end. `place` says where the next row
//! goes, and `write_row` puts one there: into the deleted blocks from the head, then behind the end;
//! `write_row_at_end` puts it behind the end, whatever is deleted; `put` and `put_at_end` are the same calls,
//! and answer also how many blocks came and went (`Put`). `release` gives an area to the list,
//! `merge_next` takes the deleted block behind a free area off it. All that a call reads is read before it
//! writes, so that a block that is not what the list needs leaves all as it was. `specs/Taking` says what a
//! row takes of the list, `specs/Planning` what is written beside it, `specs/Putting` both together, and
//! `specs/Rows` what stands in the file then.
//!
//! `release_row` releases the blocks of a row, and `rewrite_row` puts a row in the place of another: into that
//! one's blocks, in their order, then where `write_row` would; `replace` is the same call, and answers also how
//! many blocks came and went (`Replaced`). `specs/Chains` says which blocks a row has that
//! stands in the file, `specs/Several` what releases one after another find where all is read before anything
//! is written, `specs/Freed` what a released row leaves, and `specs/Replacing` what a row takes and leaves of
//! the blocks of the row in whose place it is put.
#![tactic(auto)]

mod chains;
mod fault;
mod free_list;
mod heads;
mod laws;
mod linked;
mod links;
mod pieces;
mod planning;
mod replacing;
mod rows;
mod several;
mod taking;
mod writing;

pub use fault::FreeFault;
pub use free_list::{FreeList, Limits};
pub use laws::{
    appended_rows_tile, lists_stand_in_files, merged_areas_take_bytes, merges_find_their_list,
    placed_blocks_can_be_released, placed_blocks_can_be_written, placed_rows_are_chains,
    placed_rows_tile, put_rows_leave_the_rest, released_areas_are_deleted,
    releases_find_their_list, rows_find_their_list, rows_fit_into_their_own_blocks,
    rows_have_their_places, several_releases_find_their_list, standing_rows_are_found,
    taken_blocks_leave_their_list, tiling_is_counting, tiling_is_following,
};
pub use rows::{Freed, Put, Replaced};
