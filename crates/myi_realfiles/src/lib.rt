//! The files of the system and standard output.
//!
//! `RealFiles`, its readers (`RealReader`) and `RealSink` tell nothing of what they hold, as other
//! programs may write it. `RealFiles` does each write at once, so a program gathers them over it.
//!
//! ```
//! let mut files = Gathering::new(alloc, RealFiles::new(&rt));
//! let mut out = RealSink::new(&rt);
//! let status = kit(&rt, alloc, &words, &mut files, &mut out, &OpenGate, now(&rt));
//! match files.flush() {
//!     Ok(()) => ExitCode::from(status.number()),
//!     Err(FileErr::Memory) => ExitCode::from(Status::Memory.number()),
//!     Err(FileErr::Failed) => ExitCode::from(Status::FileFault.number()),
//! }
//! ```
//!
//! `crates/kit/src/main.rt` runs it.
#![tactic(auto)]

mod real;
mod replace;

pub use real::{RealFiles, RealReader, RealSink};
