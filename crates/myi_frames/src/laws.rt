//! Laws over the definitions of this crate. Each is the contract of a function that does nothing, so
//! that it is proved with the crate and stands for the crates above.
ghost use Rattle.std.specs.Prelude.{◌≡◌, ◌≢◌, ◌⊎◌, ℕ, ◌+◌, ◌-◌, ◌%◌, ◌^◌, ◌<◌, ◌≤◌, ◌++◌, true, List, [], length, take, drop, slice_index, Option, Some, None};
ghost use Rattle.std.specs.List.{AllByRecursion};
ghost use Rattle.myi_base.specs.Numbers.{AreBytes};
ghost use Rattle.myi_base.specs.Ranges.{are_apart};
ghost use Rattle.myi_base.specs.Holding.{resized, overwritten};
ghost use Rattle.myi_frames.specs.declared.form.FrameKind.TheVariants.{Deleted, Start, Middle};
ghost use Rattle.myi_frames.specs.declared.frame.Seen.{Seen};
ghost use Rattle.myi_frames.specs.declared.frame.Seen.TheVariants.{Nothing, Longer};
ghost use Rattle.myi_frames.specs.declared.head.Header.{Header};
ghost use Rattle.myi_frames.specs.declared.write.FrameSpec.{FrameSpec};
ghost use Rattle.myi_frames.specs.Block.{Block, block_of, header_of, Stands, IsPlace, IsPointer, IsBounded};
ghost use Rattle.myi_frames.specs.Rules.{IsChosen};
ghost use Rattle.myi_frames.specs.Seeing.{SeesBlock, ShowsBlock};
ghost use Rattle.myi_frames.specs.Sizes.{least_size, start_room, middle_room, IsSized, held_bytes, total_size};
ghost use Rattle.myi_frames.specs.Writing.{type_of, header_as, header_bytes, block_bytes, deleted_head, written_block, deleted_spec, whole_spec, start_spec, middle_spec, end_spec, IsWritable};

/// What every block of a file keeps: its place, its size and its row bytes lie in the file, and it
/// says no more than its kind does. None starts where fewer than 20 bytes are left, at a place that is
/// no multiple of 4, or with a byte above 13. In a file of bytes its numbers are as small as their bytes, its row
/// bytes are bytes, and its size has room for them.
pub fn blocks_stand()
    ensures stands { (d : List ℕ) (p : ℕ) (b : Block) → block_of d p ≡ Some b → Stands d p b }
    ensures short { (d : List ℕ) (p : ℕ) → length d < p + 20 → block_of d p ≡ None }
    ensures unaligned { (d : List ℕ) (p : ℕ) → p % 4 ≢ 0 → block_of d p ≡ None }
    ensures unknown { (d : List ℕ) (p : ℕ) → 13 < slice_index d p → block_of d p ≡ None }

    ensures bounded { (d : List ℕ) (p : ℕ) (b : Block) → AreBytes d → block_of d p ≡ Some b
        → IsBounded b }
    ensures bytes { (d : List ℕ) (p : ℕ) (b : Block) → AreBytes d → block_of d p ≡ Some b
        → AreBytes b.bytes }
    ensures sized { (d : List ℕ) (p : ℕ) (b : Block) → AreBytes d → block_of d p ≡ Some b
        → IsSized (length b.bytes) b.size }
{}

/// A block depends on its own bytes and on the file having them, and on nothing else: it stays where
/// the file grows, where it is cut behind the block, and where other bytes are written. Nor does one
/// come to be in a file that has not grown, where the first 20 bytes stay.
pub fn blocks_are_local()
    ensures own { (d e : List ℕ) (p : ℕ) (b : Block) → block_of d p ≡ Some b
        → take b.size (drop p e) ≡ take b.size (drop p d) → block_of e p ≡ Some b }
    ensures grown { (d more : List ℕ) (p : ℕ) (b : Block) → block_of d p ≡ Some b
        → block_of (d ++ more) p ≡ Some b }
    ensures resized { (d : List ℕ) (n p : ℕ) (b : Block) → block_of d p ≡ Some b → p + b.size ≤ n
        → block_of (resized n d) p ≡ Some b }
    ensures elsewhere { (d bytes : List ℕ) (at p : ℕ) (b : Block) → block_of d p ≡ Some b
        → are_apart (p, p + b.size) (at, at + length bytes) ≡ true
        → block_of (overwritten at bytes d) p ≡ Some b }
    ensures none { (d e : List ℕ) (p : ℕ) → block_of d p ≡ None
        → take 20 (drop p e) ≡ take 20 (drop p d) → length e ≤ length d → block_of e p ≡ None }
{}

/// What the block at a place is and how many of its bytes are at hand decide what is seen there.
pub fn answers_are_decided()
    ensures nothing { (seen : Seen) (n : ℕ) → SeesBlock seen n None → seen ≡ Nothing }
    ensures longer { (seen : Seen) (n : ℕ) (b : Block) → SeesBlock seen n (Some b) → n < b.size
        → seen ≡ Longer b.size }
    ensures whole { (seen : Seen) (n : ℕ) (b : Block) → SeesBlock seen n (Some b) → b.size ≤ n
        → ShowsBlock seen b }
{}

/// A block that is written has its size, whatever place it names as the next, and is read back whole between any other bytes, and where it
/// is written into a file; where all its bytes are at hand it is what is seen. The header of a deleted
/// block alone makes its place a deleted block.
pub fn written_blocks_read_back()
    ensures length { (f : FrameSpec) (content : List ℕ) (size : ℕ)
        → IsWritable f (length content) size
        → length (block_bytes f content size) ≡ size }
    ensures naming { (f : FrameSpec) (next : Option ℕ) (content : List ℕ) (size : ℕ)
        → IsWritable f (length content) size
        → length (block_bytes (record f { next = next }) content size) ≡ size }
    ensures bytes { (f : FrameSpec) (content : List ℕ) (size : ℕ)
        → IsWritable f (length content) size
        → AreBytes content → AreBytes (block_bytes f content size) }
    ensures joined { (f : FrameSpec) (content front back : List ℕ) (size : ℕ)
        → IsWritable f (length content) size → length front % 4 ≡ 0
        → block_of (front ++ (block_bytes f content size ++ back)) (length front)
        ≡ Some (written_block f (length front) size content) }
    ensures seen { (f : FrameSpec) (content front back : List ℕ) (size n : ℕ) (seen : Seen)
        → IsWritable f (length content) size → length front % 4 ≡ 0 → size ≤ n
        → SeesBlock seen n (block_of (front ++ (block_bytes f content size ++ back)) (length front))
        → ShowsBlock seen (written_block f (length front) size content) }
    ensures overwritten { (f : FrameSpec) (content d : List ℕ) (at size : ℕ)
        → IsWritable f (length content) size → at % 4 ≡ 0
        → block_of (overwritten at (block_bytes f content size) d) at
        ≡ Some (written_block f at size content) }

    ensures deleted { (size at : ℕ) (next prev : Option ℕ) (d : List ℕ)
        → size < 2 ^ 24 → IsPointer next → IsPointer prev → IsPlace at size (length d)
        → block_of (overwritten at (deleted_head size next prev) d) at
        ≡ Some (written_block (deleted_spec next prev) at size []) }
    ensures deleted_length { (size : ℕ) (next prev : Option ℕ)
        → 20 ≤ size → size < 2 ^ 24 → IsPointer next → IsPointer prev
        → length (deleted_head size next prev) ≡ 20 }
    ensures deleted_bytes { (size : ℕ) (next prev : Option ℕ)
        → 20 ≤ size → size < 2 ^ 24 → IsPointer next → IsPointer prev
        → AreBytes (deleted_head size next prev) }
{}

/// What a block says, the number of its row bytes and its size determine its form: of all types that
/// could say it the rules choose one, and the block's header is written in it.
pub fn forms_are_chosen_once()
    ensures chosen { (f : FrameSpec) (n size : ℕ) → IsWritable f n size
        → IsChosen f n size (type_of f n size) }
    ensures once { (f : FrameSpec) (n size t : ℕ) → IsWritable f n size → IsChosen f n size t
        → t ≡ type_of f n size }
    ensures header { (f : FrameSpec) (n size t : ℕ) → IsWritable f n size
        → (c : IsChosen f n size t)
        → header_bytes f n size ≡ header_as t c.form f n size }
{}

/// A block of the least size can be written, and no block that holds as many row bytes is smaller,
/// whether it is written or found in a file of bytes. Nor are all blocks together that hold as many,
/// so one block of a row is never longer than the blocks that held it.
pub fn least_sizes_are_least()
    ensures writable { (n : ℕ) → n < 2 ^ 24
        → IsWritable (whole_spec n) n (least_size n) × IsWritable end_spec n (least_size n) }
    ensures written { (f : FrameSpec) (n size : ℕ) → IsWritable f n size → IsSized n size }
    ensures sized { (n : ℕ) → IsSized n (least_size n) }
    ensures least { (n m size : ℕ) → n ≤ m → IsSized m size → least_size n ≤ size }
    ensures together { (n : ℕ) (bs : List Block)
        → AllByRecursion (λ b. IsSized (length b.bytes) b.size) bs
        → 0 < n → n ≤ held_bytes bs → least_size n ≤ total_size bs }
{}

/// A start and a middle can be written with as many row bytes as their sizes have room for, and none
/// that is found in a file of bytes holds more; a start of a row that is no longer has no less room. In such
/// a file no middle, and no start for a giant row, has room for more bytes than three bytes count.
pub fn rooms_are_greatest()
    ensures start_writable { (rec_len size : ℕ) (next : Option ℕ) → size % 4 ≡ 0 → 20 ≤ size
        → rec_len < 2 ^ 32
        → start_room rec_len size ≤ rec_len → start_room rec_len size < 2 ^ 24 → IsPointer next
        → IsWritable (start_spec rec_len next) (start_room rec_len size) size }
    ensures middle_writable { (size : ℕ) (next : Option ℕ) → size % 4 ≡ 0 → 20 ≤ size
        → middle_room size < 2 ^ 24 → IsPointer next
        → IsWritable (middle_spec next) (middle_room size) size }
    ensures start { (d : List ℕ) (p : ℕ) (b : Block) (rec_len : ℕ) → AreBytes d
        → block_of d p ≡ Some b
        → b.kind ≡ Start → rec_len ≤ b.rec_len → length b.bytes ≤ start_room rec_len b.size }
    ensures middle { (d : List ℕ) (p : ℕ) (b : Block) → AreBytes d → block_of d p ≡ Some b
        → b.kind ≡ Middle → length b.bytes ≤ middle_room b.size }
    ensures few_in_start { (d : List ℕ) (p : ℕ) (b : Block) (rec_len : ℕ) → AreBytes d
        → block_of d p ≡ Some b
        → b.kind ≡ Start → 2 ^ 24 ≤ rec_len → start_room rec_len b.size < 2 ^ 24 }
    ensures few_in_middle { (d : List ℕ) (p : ℕ) (b : Block) → AreBytes d
        → block_of d p ≡ Some b
        → b.kind ≡ Middle → middle_room b.size < 2 ^ 24 }
{}

/// What is written into a file leaves each byte that it does not meet, and makes the file no longer than
/// needed.
pub fn writes_leave_the_rest()
    ensures length { (at : ℕ) (bytes d : List ℕ) → length (overwritten at bytes d)
        ≡ at + length bytes + (length d - (at + length bytes)) }
    ensures bytes { (at : ℕ) (bytes d : List ℕ) (p n : ℕ)
        → (p + n ≤ at) ⊎ (at + length bytes ≤ p) → p + n ≤ length d
        → take n (drop p (overwritten at bytes d)) ≡ take n (drop p d) }
{}

/// What a header says is as small as its bytes: a deleted block of fewer than 2^24, and places that a
/// pointer can name.
pub fn headers_are_bounded()
    ensures deleted { (bytes : List ℕ) (at len : ℕ) (h : Header) → AreBytes bytes
        → header_of bytes at len ≡ Some h → h.head.kind ≡ Deleted → h.head.size < 2 ^ 24 }
    ensures next { (bytes : List ℕ) (at len : ℕ) (h : Header) → AreBytes bytes
        → header_of bytes at len ≡ Some h → IsPointer h.head.next }
    ensures prev { (bytes : List ℕ) (at len : ℕ) (h : Header) → AreBytes bytes
        → header_of bytes at len ≡ Some h → IsPointer h.head.prev }
{}
