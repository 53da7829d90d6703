//! The pages of an index: how entries and children stand in one page, read and written.
//!
//! An index of a MyISAM table is a tree of pages. A leaf holds entries, each a key and a row pointer; a
//! node holds a child before, between and after its entries. `specs/Page` gives each page its one
//! spelling: two bytes that tell a node and the used length, and then the entries, each key without
//! the longest front that it shares with the key before it in the page.
//!
//! `read_page` answers a `PageView` exactly where bytes are a page, and `PageView::walk` a `PageWalk`
//! over its items, each a `PageItem` that lends the rest of its key. `fits` and `fitting` answer whether
//! entries fit into a page, and how many from the front do. `write_page` writes a page, and `write_with`
//! a leaf with one entry more, from its bytes. `put_children` gives a node other children, and
//! `shift_page` moves each child of a page by one distance. Nothing here takes memory. The laws that the
//! crates above build on are the contracts of the functions in `laws`.
//!
//! ```
//! match read_page(&bytes, rec_ref) {
//!     None => out.push_str("none")?,
//!     Some(page) => {
//!         let mut walk = page.walk();
//!         while let Some(item) = walk.next_item() {
//!             push_item(&mut out, &item)?;
//!         }
//!     }
//! }
//! ```
//!
//! The case `page` in `crates/cases_blocks/src/pages.rt` runs it.
#![tactic(auto)]

mod children;
mod entry;
mod fit;
mod item;
mod laws;
mod list;
mod prefix;
mod put_in;
mod shift;
mod view;
mod write;

pub use children::put_children;
pub use entry::Entry;
pub use fit::{fits, fitting, fitting_of};
pub use item::PageItem;
pub use laws::{entries_fit, pages_read_back, views_show_pages};
pub use list::{EntryList, Part};
pub use put_in::{LentEntry, write_with};
pub use shift::shift_page;
pub use view::{PageView, PageWalk, read_page};
pub use write::{write_page, write_page_of};
