//! `Window`: a part of a file in memory, which slides forward.
//!
//! What a window holds is an `Excerpt` of `specs/Excerpt`: bytes that were read from a place of a file
//! on. Nothing is known of bytes that were not read. Where the files tell what they hold and the excerpt
//! stands in the file, as it does while nobody writes the file, `slide` leaves the file's own bytes at
//! the new place, as far as `WINDOW` bytes or the end go.
//!
//! A reader that goes through a file once slides on when what it looks for is not whole in the window:
//!
//! ```
//! let mut window = Window::new(alloc)?;
//! if window.bytes_from(at).len() < 20 {
//!     window.slide(files, name, at, end)?;
//! }
//! let header = window.bytes_from(at);
//! ```
#![tactic(auto)]

mod window;

pub use window::{WINDOW, Window};
