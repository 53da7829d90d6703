//! An appender with its readers. A caller takes a `Tail` apart, moves its parts into jobs that run side
//! by side, and puts together what came back.
ghost use Rattle.std.specs.Prelude.{◌≡◌, ◌<◌, [], take, All, IfOk, IsOk, vec_len};
ghost use Rattle.myi_tail.specs.Prefix.{BeginsWith};
ghost use Rattle.myi_tail.specs.Seats.{room_of, IsNew};

use crate::appender::Appender;
use crate::reader::ReaderSeat;
use std::alloc::{AllocError, Global};

/// The appender of a tail, and readers of it. Readers may be missing.
#[derive(Drop)]
pub struct Tail {
    pub appender: Appender,
    pub readers: Vec<ReaderSeat>,
}

impl Tail {
    /// A tail with room for so many words, and with so many readers, which know none. It takes all
    /// memory that the appender and the readers need until they are closed.
    pub fn new(alloc: Global, words: usize, readers: usize) -> Result<Tail, AllocError>
        requires { words < usize.MAX }
        ensures room { IfOk result (λ t. room_of t.appender.tail ≡ words) }
        ensures empty { IfOk result (λ t. (t.appender.words ≡ []) × (t.appender.published ≡ 0)) }
        ensures readers { IfOk result (λ t. vec_len t.readers ≡ readers) }
        ensures new { IfOk result (λ t. All (IsNew t.appender.tail) t.readers.items) }
    {
        let mut appender = Appender::new(alloc, words)?;
        let mut seats = Vec::with_capacity(alloc, readers)?;
        for _ in 0..readers {
            seats.push_reserved(appender.new_reader(alloc)?);
        }
        Ok(Tail {
            appender,
            readers: seats,
        })
    }

    /// The published words; what each reader knows are the first of them. What is staged and not published
    /// is gone. It is never an error, since the words come in the memory that the appender has; the
    /// `Result` lets a caller hand on its own.
    pub fn close(self) -> Result<Vec<u64>, AllocError>
        requires { All (λ r. r.tail ≡ self.appender.tail) self.readers.items }
        ensures never { IsOk result }
        ensures words { IfOk result (λ v.
            v.items ≡ take self.appender.published self.appender.words) }
        ensures count { IfOk result (λ v. vec_len v ≡ self.appender.published) }
        ensures known { IfOk result (λ v.
            All (λ r. BeginsWith v.items r.known) self.readers.items) }
    {
        let Tail { appender, readers } = self;
        let mut closing = appender.into_closing();
        for reader in readers {
            closing.join(reader);
        }
        closing.look_at_count();
        Ok(closing.into_published())
    }
}
