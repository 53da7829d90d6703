//! Laws over the definitions of this crate. Each is the contract of a function that does nothing, so
//! that it is proved with the crate and stands for the crates above.
ghost use Rattle.std.specs.Prelude.{◌≡◌, ◌≢◌, ◌+◌, ◌-◌, ◌%◌, ◌^◌, ◌<◌, ◌≤◌, ℕ, Bool, true, false};
ghost use Rattle.std.specs.Prelude.{List, [], ◌∷◌, ◌++◌, sum, sum_by, All, HoldsAt, length, map, take, get_or, slice_index, Option, Some, Result};
ghost use Rattle.std.specs.List.{AllByRecursion, flat_map};
ghost use Rattle.myi_base.specs.Holding.{Holding, IfTold, bytes_of};
ghost use Rattle.myi_base.specs.Numbers.{AreBytes};
ghost use Rattle.myi_base.specs.Ranges.{is_apart};
ghost use Rattle.myi_defs.specs.declared.types.Defs.{Defs};
ghost use Rattle.myi_defs.specs.declared.types.RowFormat.{RowFormat};
ghost use Rattle.myi_defs.specs.declared.types.RowFormat.TheVariants.{Static, Dynamic};
ghost use Rattle.myi_defs.specs.declared.types.Field.{Field};
ghost use Rattle.myi_defs.specs.declared.types.Segment.{Segment};
ghost use Rattle.myi_defs.specs.declared.types.Key.{Key};
ghost use Rattle.myi_defs.specs.Sound.{IsSound, IsSoundKey, IsSoundSegment};
ghost use Rattle.myi_pack.specs.Spelling.{fits, fits_fields, spelling};
ghost use Rattle.myi_keys.specs.Limits.{IsKey};
ghost use Rattle.myi_keys.specs.declared.values.KeySeg.TheVariants.{Weights};
ghost use Rattle.myi_keys.specs.Weights.{weights, CanWeigh};
ghost use Rattle.myi_data.specs.Keys.{content, seg_of, key_at, segments_of, TellsNull};
ghost use Rattle.myi_pack.specs.Packed.{Values};
ghost use Rattle.myi_frames.specs.Block.{Block, block_of};
ghost use Rattle.myi_chain.specs.Chain.{AreApart, IsChain, ranges, row_bytes};
ghost use Rattle.myi_chain.specs.Meeting.{ranges_of, AreRising};
ghost use Rattle.myi_chain.specs.declared.piece.Wanted.{Wanted};
ghost use Rattle.myi_chain.specs.declared.piece.Item.{Item};
ghost use Rattle.myi_chain.specs.declared.piece.ScanFault.{ScanFault};
ghost use Rattle.myi_chain.specs.ScanModel.{fresh_scan};
ghost use Rattle.myi_chain.specs.Readable.{Row, rows_of};
ghost use Rattle.myi_chain.specs.Readable as chains;
ghost use Rattle.myi_data.specs.Slots.{Slot, slots_in};
ghost use Rattle.myi_data.specs.Readable.{packs, slot_range, slot_row, slot_items, items_in, readable, deleted};
ghost use Rattle.myi_data.specs.Scanning.{TableScan, items_ahead, IsAsKnown, AfterTable};
ghost use Rattle.myi_data.specs.Plain.{IsPlain, plain_rows};
ghost use Rattle.myi_data.specs.Stored.{SizedRow, PackARow, HaveHeld, IsStorable, own_block, group_by, stored_by};
ghost use Rattle.myi_data.specs.Stored.{Share, is_end, end_size, shares, shared_bytes, ranges_from, group};
ghost use Rattle.myi_frames.specs.Sizes.{middle_room};
ghost use Rattle.myi_frames.specs.Writing.{IsWritable, end_spec};
ghost use Rattle.myi_data.specs.Stored.{stored_size, stored, stored_file, stored_rows};

/// The readable rows of any bytes, in both formats. Each packs a row; they come in order of their
/// positions; no byte belongs to two of their slots or blocks. Where not every position is tried, no byte
/// belongs to one of them and to a deleted block.
pub fn rows_are_readable()
    ensures packed { (d : Defs) (extend : Bool) (x : List ℕ) → IsSound d → AreBytes x
        → AllByRecursion (λ r. PackARow d r.bytes) (readable d extend x) }
    ensures rising { (d : Defs) (extend : Bool) (x : List ℕ) → IsSound d
        → AreRising 0 (readable d extend x) }
    ensures apart { (d : Defs) (extend : Bool) (x : List ℕ) → IsSound d
        → AreApart [] (ranges_of (readable d extend x)) }
    ensures deleted { (d : Defs) (x : List ℕ)
        → AllByRecursion (λ a. is_apart a (ranges_of (readable d false x)) ≡ true) (deleted d x) }
{}

/// What is stored is what is read: a file that is only rows that can be stored, one after the other, has
/// exactly these rows, whether every place is tried or not. A dynamic one is to be so short that a place of
/// eight bytes can be named anywhere in it.
pub fn stored_files_are_read()
    ensures { (d : Defs) (extend : Bool) (rows : List SizedRow) → IsSound d
        → All (IsStorable d) rows
        → (d.format ≡ Dynamic → length (stored_file d rows) < 2 ^ 64 - 1)
        → readable d extend (stored_file d rows) ≡ stored_rows d 0 rows }
{}

/// A row takes the bytes that its slot or its blocks have, and has no more blocks than bytes. A row of
/// fewer than 2^24 bytes stands alone, in one slot or one block of the least size, whatever held it and
/// wherever it stands.
pub fn rows_stand_alone()
    ensures sized { (d : Defs) (at : ℕ) (row : SizedRow) → IsSound d → IsStorable d row
        → length (stored d at row) ≡ stored_size d row }
    ensures one { (f : RowFormat) (sizes : List ℕ) (n : ℕ) → (f ≡ Dynamic → n < 2 ^ 24)
        → length (group_by f sizes n) ≡ 1 }
    ensures slot { (at : ℕ) (sizes b : List ℕ) → stored_by Static at sizes b ≡ b }
    ensures block { (at : ℕ) (sizes b : List ℕ) → length b < 2 ^ 24
        → stored_by Dynamic at sizes b ≡ own_block b }
    ensures few { (d : Defs) (row : SizedRow) → IsSound d → IsStorable d row
        → (0 < stored_size d row) × (length (group d row) ≤ stored_size d row) }
    ensures size { (d : Defs) (row : SizedRow) → IsSound d → IsStorable d row
        → stored_size d row ≡ length (stored_by d.format 0 row.sizes (spelling d row.values)) }
{}

/// Where a row of 2^24 bytes and more stands, of which four bytes count the bytes. Written into blocks of
/// the sizes of blocks that held as many bytes, at any place of a file that eight bytes can name, it is the
/// row of a chain, and its blocks stand one directly after the other (`chain`); they take the bytes of their
/// sizes (`long`), never more than there were (`less`). Written again into the sizes of the blocks in which it
/// stands, any row takes the same blocks (`again`) and has the same bytes there (`same`). What is left of it
/// can be written as an end where the block has room for it (`end`), and else goes on behind the middle that
/// the block is then (`middle`).
pub fn giant_rows_stand()
    ensures chain { (sizes b front back : List ℕ) → HaveHeld sizes (length b)
        → 2 ^ 24 ≤ length b → length b < 2 ^ 32 → length front % 4 ≡ 0
        → length front + sum_by (λ s. s.size) (shares sizes (length b)) < 2 ^ 64 - 1
        → (blocks : List Block)
        × IsChain (block_of (front
        ++ (shared_bytes (length front) (shares sizes (length b)) b ++ back)))
        (length front) [] blocks
        × (row_bytes blocks ≡ b)
        × (ranges blocks ≡ ranges_from (length front) (shares sizes (length b))) }
    ensures long { (at : ℕ) (sizes b : List ℕ) → HaveHeld sizes (length b)
        → 2 ^ 24 ≤ length b → length b < 2 ^ 32
        → length (shared_bytes at (shares sizes (length b)) b)
        ≡ sum_by (λ s. s.size) (shares sizes (length b)) }
    ensures less { (sizes : List ℕ) (n : ℕ)
        → sum_by (λ s. s.size) (shares sizes n) ≤ sum sizes }
    ensures again { (f : RowFormat) (sizes : List ℕ) (n : ℕ)
        → group_by f (map (λ s. s.size) (group_by f sizes n)) n ≡ group_by f sizes n }
    ensures same { (f : RowFormat) (at : ℕ) (sizes b : List ℕ)
        → stored_by f at (map (λ s. s.size) (group_by f sizes (length b))) b
        ≡ stored_by f at sizes b }
    ensures end { (rest size : ℕ) → size % 4 ≡ 0 → 20 ≤ size → is_end rest size ≡ true
        → IsWritable end_spec rest (end_size rest size) × (end_size rest size < 2 ^ 24 + 64) }
    ensures middle { (rest size : ℕ) → size % 4 ≡ 0 → 20 ≤ size → middle_room size < 2 ^ 24
        → is_end rest size ≡ false → middle_room size < rest }
{}

/// What is met in the data file of a static table is what each of its slots is, slot after slot: a deleted
/// slot where its first byte is 0; else a row where its bytes pack one; and else nothing.
pub fn slots_are_read()
    ensures slots { (d : Defs) (extend : Bool) (x : List ℕ) → d.format ≡ Static
        → items_in d extend x ≡ flat_map (slot_items (packs d)) (slots_in 0 d.slot_length x) }
    ensures deleted { (d : Defs) (s : Slot) → slice_index s.bytes 0 ≡ 0
        → slot_items (packs d) s ≡ chains.free (slot_range s) ∷ [] }
    ensures row { (d : Defs) (s : Slot) → slice_index s.bytes 0 ≢ 0 → packs d s.bytes ≡ true
        → slot_items (packs d) s ≡ chains.row (slot_row s) ∷ [] }
    ensures neither { (d : Defs) (s : Slot) → slice_index s.bytes 0 ≢ 0 → packs d s.bytes ≡ false
        → slot_items (packs d) s ≡ [] }
{}

/// The readable rows of a static table whose fields are all NORMAL are its slots whose first byte is
/// not 0.
pub fn plain_tables_are_read()
    ensures { (d : Defs) (extend : Bool) (x : List ℕ) → IsSound d → IsPlain d
        → readable d extend x ≡ plain_rows 0 d.slot_length x }
{}

/// What a row gives the segments of a key of its table can be weighed, and is a key. A row that fits has
/// a spelling of some bytes.
pub fn rows_have_keys()
    ensures weighed { (format : RowFormat) (fs : List Field) (vs : Values) (s : Segment)
        → IsSoundSegment fs s → fits_fields format fs vs ≡ true → CanWeigh s (content fs vs s) }
    ensures key { (format : RowFormat) (fs : List Field) (rec_ref : ℕ) (vs : Values) (k : Key)
        → fits_fields format fs vs ≡ true → IsSoundKey fs rec_ref k
        → IsKey (map (seg_of fs vs) k.segments) }
    ensures numbered { (keys : List Key) (k : ℕ) (some : Key) → 0 < k → k ≤ length keys
        → key_at keys k ≡ Some (get_or keys (k - 1) some) }
    ensures segments { (keys : List Key) (k : ℕ) (some : Key) → 0 < k → k ≤ length keys
        → segments_of keys k ≡ (get_or keys (k - 1) some).segments }
    ensures fields { (d : Defs) (row : Values) → fits d row ≡ true
        → fits_fields d.format d.fields row ≡ true }
    ensures spelled { (d : Defs) (row : Values) → IsSound d → fits d row ≡ true
        → 0 < length (spelling d row) }
{}

/// Where a row has no value. A segment with a null bit has none exactly where the field of the byte at its
/// place has the bit set there; a segment without one always has a value.
pub fn null_bits_tell()
    ensures bit { (d : Defs) (row : Values) (s : Segment) (k : ℕ) → IsSound d → fits d row ≡ true
        → s.null_bit ≢ 0 → k < length d.fields → HoldsAt (TellsNull d row s k) d.fields k }
    ensures always { (fs : List Field) (row : Values) (s : Segment) → s.null_bit ≡ 0
        → seg_of fs row s ≡ Weights (weights s (content fs row s)) }
{}

/// A scan of which nothing was read has all of its file ahead, and knows of it only how long it is at
/// least. At its end a scan has nothing ahead, so that a new scan of an empty file has ended. What is
/// ahead, and whether the file is as the scan knows it, hangs on that file's bytes alone; after a call of
/// the scan the file is as the scan knows it then.
pub fn scans_begin_with_all()
    ensures fresh { (name : List ℕ) (d : Defs) (extend : Bool) (end : ℕ) (m : Holding)
        → items_ahead (fresh_scan name d extend end) m
        ≡ items_in d extend (take end (bytes_of name m)) }
    ensures known { (name : List ℕ) (d : Defs) (extend : Bool) (end : ℕ) (m : Holding)
        → (d.format ≡ Dynamic → end ≤ length (bytes_of name m))
        → IsAsKnown (fresh_scan name d extend end) m }
    ensures ended { (s : TableScan) (m : Holding) → IsSound s.test → s.end ≤ s.place
        → items_ahead s m ≡ [] }
    ensures ahead { (s : TableScan) (m n : Holding) → bytes_of s.name n ≡ bytes_of s.name m
        → items_ahead s n ≡ items_ahead s m }
    ensures stays { (s : TableScan) (m n : Holding) → bytes_of s.name n ≡ bytes_of s.name m
        → IsAsKnown s m → IsAsKnown s n }
    ensures after { (wanted : Wanted) (h : Option Holding) (old new : TableScan)
        (r : Result (Option Item) ScanFault)
        → AfterTable wanted h old r new → IfTold h (IsAsKnown new) }
{}
