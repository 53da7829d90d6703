//! Laws over pairs of files. Each is the contract of a function that does nothing, so that it is proved
//! with the crate and stands for the crates above.
ghost use Rattle.std.specs.Prelude.{◌≡◌, ◌↔◌, ◌+◌, ◌^◌, ◌<◌, ◌≤◌, ℕ, Bool, true, false, Option, None};
ghost use Rattle.std.specs.Prelude.{List, [], ◌∷◌, ◌++◌, length, map, Some, Ok, IsPermutation};
ghost use Rattle.std.specs.List.{AllByRecursion, Contains};
ghost use Rattle.myi_base.specs.Numbers.{AreBytes};
ghost use Rattle.myi_base.specs.Ranges.{Range};
ghost use Rattle.myi_defs.specs.declared.types.Defs.{Defs};
ghost use Rattle.myi_defs.specs.ReadDefs.{read_defs, AreDefs};
ghost use Rattle.myi_defs.specs.EmptyTable.{empty_header};
ghost use Rattle.myi_defs.specs.Sound.{IsSound};
ghost use Rattle.myi_defs.specs.Addressable.{is_addressable};
ghost use Rattle.myi_defs.specs.declared.types.RowFormat.TheVariants.{Static};
ghost use Rattle.myi_header.specs.Layout.{first_page_of};
ghost use Rattle.myi_header.specs.StateOf.{rest_length, state_of};
ghost use Rattle.myi_pack.specs.Packed.{Values};
ghost use Rattle.myi_pack.specs.Spelling.{fits};
ghost use Rattle.myi_keys.specs.Limits.{IsKey};
ghost use Rattle.myi_keylist.specs.PairOrder.{pair_with};
ghost use Rattle.myi_keylist.specs.FirstBy.{first_by, repeats_in};
ghost use Rattle.myi_data.specs.Readable.{readable};
ghost use Rattle.myi_data.specs.Keys.{IsKeyNumber, key_of};
ghost use Rattle.myi_data.specs.Stored.{SizedRow, values_in, IsStorable, stored_size, stored_file, stored_rows};
ghost use Rattle.myi_btree.specs.Nodes.{entry_of};
ghost use Rattle.myi_btree.specs.Sizes.{IsPlaced, IsSized, AreSized};
ghost use Rattle.myi_rowkeys.specs.TableKeys.{unique_keys};
ghost use Rattle.myi_pair.specs.declared.finding.Finding.{Finding};
ghost use Rattle.myi_pair.specs.FirstRows.{key_numbers, is_unique, first_rows, AreDistinct};
ghost use Rattle.myi_pair.specs.KeyList.{PlacedRow, pointer, pair_of, pairs_of, key_list};
ghost use Rattle.myi_btree.specs.Walk.{Walked};
ghost use Rattle.myi_pair.specs.Trees.{place_of, HaveWalks, AreKeyLists, all_pages, total};
ghost use Rattle.myi_pair.specs.Clean.{values_of, sized_row, ListsDeleted, IsClean};
ghost use Rattle.myi_pair.specs.Findings.{KeyWalk, key_walk, met_in, header_bad, deleted_bad};
ghost use Rattle.myi_pair.specs.Findings.{key_bad, rows_bad, findings};
ghost use Rattle.myi_pair.specs.FirstFailing.{IsFirst, Differs, ComesBefore, IsFirstInList};
ghost use Rattle.myi_pair.specs.FirstFailing.{IsFirstMet, IsWholeTree, BelongsToNothing, IsToldOf};
ghost use Rattle.myi_pair.specs.RebuiltBytes.{without_free_pages, placed_from, new_trees, rebuilt_index, rebuilt};
ghost use Rattle.myi_pair.specs.Rebuilt.{CanBeRebuilt, Rebuilt};
ghost use Rattle.myi_pair.specs.RecoveredBytes.{kept, new_data, new_index};
ghost use Rattle.myi_pair.specs.Recovered.{IsRepairable, Recovered};

/// Of the first rows of unique keys none repeats one before it, and where no row of a list repeats one
/// before it, all of them are kept. They are the first rows by the unique keys of the table.
pub fn first_rows_are_distinct()
    ensures distinct { (d : Defs) (rows : List SizedRow)
        → AreDistinct d [] (values_in (first_rows d rows)) }
    ensures all { (d : Defs) (rows : List SizedRow) → AreDistinct d [] (values_in rows)
        → first_rows d rows ≡ rows }
    ensures keys { (d : Defs) (rows : List SizedRow)
        → first_rows d rows ≡ first_by (repeats_in (unique_keys d)) rows }
{}

/// A table can be made of the rows that a repair keeps: each readable row of a file of bytes can be
/// stored anew, and none of those that are kept repeats another.
pub fn kept_rows_make_a_table()
    ensures readable { (d : Defs) (extend : Bool) (x : List ℕ) → AreDefs d → AreBytes x
        → AllByRecursion (λ r. IsStorable d (sized_row d r)) (readable d extend x) }
    ensures storable { (d : Defs) (extend : Bool) (x : List ℕ) → AreDefs d → AreBytes x
        → AllByRecursion (IsStorable d) (kept d extend x) }
    ensures table { (d : Defs) (extend : Bool) (x : List ℕ) (now : ℕ) → IsRepairable d x now
        → CanBeRebuilt d (kept d extend x) now }
    ensures data_file { (d : Defs) (extend : Bool) (x : List ℕ)
        → new_data d extend x ≡ stored_file d (kept d extend x) }
    ensures index_file { (d : Defs) (extend : Bool) (x : List ℕ) (now : ℕ)
        → new_index d extend x now ≡ rebuilt_index d (kept d extend x) now }
{}

/// The two files of a table of given rows are such a table, and its data file is read as these rows,
/// whether every place is tried or not.
pub fn rebuilt_files_are_a_table()
    ensures table { (d : Defs) (rows : List SizedRow) (now : ℕ) → CanBeRebuilt d rows now
        → Rebuilt d rows now (rebuilt d rows now).0 (rebuilt d rows now).1 }
    ensures read { (d : Defs) (rows : List SizedRow) (now : ℕ) → CanBeRebuilt d rows now
        → (any : Bool) → readable d any (stored_file d rows) ≡ stored_rows d 0 rows }
    ensures values { (d : Defs) (rows : List SizedRow) (now : ℕ) → CanBeRebuilt d rows now
        → (any : Bool) → map (values_of d) (readable d any (stored_file d rows)) ≡ values_in rows }
{}

/// A repair of a data file of given rows keeps them all, and leaves the file as it is. With the index file
/// that was made with it, or with the one from which its definitions are, as a run leaves it that is cut
/// off between its renames, it leaves the index file that is made at its own time. Whether every position
/// is tried does not matter.
pub fn repairs_of_rebuilt_files_settle()
    ensures kept { (d : Defs) (rows : List SizedRow) (now : ℕ) → CanBeRebuilt d rows now
        → (any : Bool) → values_in (kept d any (stored_file d rows)) ≡ values_in rows }
    ensures data_file { (d : Defs) (rows : List SizedRow) (now : ℕ) → CanBeRebuilt d rows now
        → (any : Bool) → new_data d any (stored_file d rows) ≡ stored_file d rows }
    ensures index_file { (d : Defs) (rows : List SizedRow) (now : ℕ) → CanBeRebuilt d rows now
        → (any : Bool) (later : ℕ)
        → new_index d any (stored_file d rows) later ≡ rebuilt_index d rows later }
    ensures data_again { (d : Defs) (rows : List SizedRow) (now : ℕ) → CanBeRebuilt d rows now
        → (again : Defs) → read_defs (rebuilt_index d rows now) ≡ Ok again
        → (any : Bool) → new_data again any (stored_file d rows) ≡ stored_file d rows }
    ensures index_again { (d : Defs) (rows : List SizedRow) (now : ℕ) → CanBeRebuilt d rows now
        → (again : Defs) → read_defs (rebuilt_index d rows now) ≡ Ok again
        → (any : Bool) (later : ℕ)
        → new_index again any (stored_file d rows) later ≡ rebuilt_index d rows later }
{}

/// The pairs of rows that fit, at places of a data file within reach, can be laid on the pages of their
/// key: the key is one, two entries fit into each page, and a row pointer has its bytes.
pub fn pairs_are_sized()
    ensures placed { (d : Defs) → IsSound d → (k : ℕ) → IsKeyNumber d k → IsPlaced (place_of d k) }
    ensures keys { (d : Defs) → IsSound d → (k : ℕ) → IsKeyNumber d k → (row : Values)
        → fits d row ≡ true
        → IsKey (key_of d k row) }
    ensures pointed { (d : Defs) → IsSound d → (k : ℕ) → IsKeyNumber d k → (row : Values)
        → fits d row ≡ true → (pointer : ℕ) → pointer < 256 ^ d.rec_ref
        → IsSized (place_of d k) (entry_of (pair_with (key_of d k row) pointer)) }
    ensures pair { (d : Defs) (k at len : ℕ) (row : Values) → IsSound d → IsKeyNumber d k
        → fits d row ≡ true → is_addressable d len ≡ true → at ≤ len
        → IsSized (place_of d k) (entry_of (pair_of d k (at, row))) }
    ensures pairs { (d : Defs) (k len : ℕ) (rows : List PlacedRow) → IsSound d → IsKeyNumber d k
        → is_addressable d len ≡ true → AllByRecursion (λ r. (r.0 ≤ len) × (fits d r.1 ≡ true)) rows
        → AreSized (place_of d k) (pairs_of d k rows)
        × AllByRecursion (λ p. IsKey p.key) (pairs_of d k rows) }
    ensures list { (d : Defs) (k len : ℕ) (rows : List PlacedRow) → IsSound d → IsKeyNumber d k
        → is_addressable d len ≡ true → AllByRecursion (λ r. (r.0 ≤ len) × (fits d r.1 ≡ true)) rows
        → AreSized (place_of d k) (key_list d k rows)
        × AllByRecursion (λ p. IsKey p.key) (key_list d k rows) }
{}

/// A row that is stored anew is no longer than the blocks that held it. So a data file of readable rows of
/// a file, all or some, in any order, is no longer than that file, and within reach where that was; a
/// repaired one is such a file. Whatever is no longer than a file within reach is within reach.
pub fn rebuilt_files_are_no_longer()
    ensures row { (d : Defs) (extend : Bool) (x : List ℕ) → AreDefs d → AreBytes x
        → AllByRecursion (λ r. stored_size d (sized_row d r) ≤ total r.blocks) (readable d extend x) }
    ensures some { (d : Defs) (extend : Bool) (x : List ℕ) → AreDefs d → AreBytes x
        → (rows others : List SizedRow)
        → IsPermutation (map (sized_row d) (readable d extend x)) (rows ++ others)
        → length (stored_file d rows) ≤ length x }
    ensures kept { (d : Defs) (extend : Bool) (x : List ℕ) → AreDefs d → AreBytes x
        → length (new_data d extend x) ≤ length x }
    ensures less { (d : Defs) (longer shorter : ℕ) → IsSound d → shorter ≤ longer
        → is_addressable d longer ≡ true → is_addressable d shorter ≡ true }
{}

/// In the index file of a table of given rows the tree of each key has a walk, whose pairs are the key list,
/// and the pages of all trees, which have no byte in common, fill the file behind the header. The file's length is a number of
/// eight bytes.
pub fn new_trees_stand()
    ensures room { (d : Defs) (rows : List SizedRow) (now : ℕ) → CanBeRebuilt d rows now
        → (new_trees d rows).end < 2 ^ 64 }
    ensures long { (d : Defs) (rows : List SizedRow) (now : ℕ) → CanBeRebuilt d rows now
        → length (rebuilt_index d rows now) ≡ (new_trees d rows).end }
    ensures trees { (d : Defs) (rows : List SizedRow) (now : ℕ) → CanBeRebuilt d rows now
        → (walks : List Walked)
        × HaveWalks d (rebuilt_index d rows now) ((0, first_page_of d) ∷ []) (key_numbers d)
        (new_trees d rows).roots walks
        × AreKeyLists d (placed_from d 0 rows) (key_numbers d) walks
        × (first_page_of d + total (all_pages d (key_numbers d) walks)
        ≡ length (rebuilt_index d rows now)) }
{}

/// The two files that a repair leaves are what a repair is to leave.
pub fn recovered_bytes_recover()
    ensures { (d : Defs) (extend : Bool) (x : List ℕ) (now : ℕ) → IsRepairable d x now
        → Recovered d extend x now (new_data d extend x) (new_index d extend x now) }
{}

/// An empty table is a clean pair: the header of an empty table with given definitions, beside a data file of no
/// bytes. So nothing is found wrong with it.
pub fn empty_tables_are_clean()
    ensures clean { (d : Defs) → AreDefs d → AreBytes d.raw → IsClean [] (empty_header d.raw) }
    ensures found { (d again : Defs) → AreDefs d → AreBytes d.raw
        → read_defs (empty_header d.raw) ≡ Ok again
        → findings again [] (empty_header d.raw) ≡ [] }
{}

/// A repair of a clean table keeps all its rows.
pub fn clean_tables_keep_all()
    ensures { (defs : Defs) (d x : List ℕ) → read_defs x ≡ Ok defs → IsClean d x
        → kept defs false d ≡ map (sized_row defs) (readable defs false d) }
{}

/// Nothing is found wrong with a pair of files exactly where it is clean. So nothing is found wrong with what
/// a repair leaves.
pub fn findings_are_none_where_clean()
    ensures none { (d : Defs) (rows x : List ℕ) → read_defs x ≡ Ok d → IsClean rows x
        → findings d rows x ≡ [] }
    ensures clean { (d : Defs) (rows x : List ℕ) → read_defs x ≡ Ok d → findings d rows x ≡ []
        → IsClean rows x }
    ensures recovered { (d again : Defs) (extend : Bool) (x : List ℕ) (now : ℕ)
        → IsRepairable d x now → read_defs (new_index d extend x now) ≡ Ok again
        → findings again (new_data d extend x) (new_index d extend x now) ≡ [] }
{}

/// What is found of each section is the first thing there that is not as it should be, and nothing is found
/// of one exactly where all is so, but of keys only in a file with the mark: of the header the first item that the files show otherwise (`header`); of
/// the list of deleted blocks the first bad place, else the lowest block that it leaves out (`deleted`,
/// `listed`); of a key's tree the first bad place or pair that its walk meets, else 0 where pairs are left
/// (`key`, `tree`); of the data file the lowest byte that belongs to nothing (`bytes`). So each finding is
/// told of the first thing of its section (`told`).
pub fn findings_are_first()
    ensures header { (d : Defs) (rows x : List ℕ) → IsSound d
        → IsFirst ComesBefore (Differs d rows x) (header_bad d rows x) }
    ensures deleted { (d : Defs) (rows x : List ℕ)
        → IsFirstInList d rows (state_of d x).dellink (deleted_bad d rows x) }
    ensures listed { (d : Defs) (rows x : List ℕ)
        → ListsDeleted d rows (state_of d x).dellink → deleted_bad d rows x ≡ None }
    ensures key { (d : Defs) (rows : List PlacedRow) (walk : KeyWalk)
        → IsFirstMet (is_unique d walk.key) (key_list d walk.key rows) walk.events
        (key_bad d rows walk) }
    ensures tree { (d : Defs) (k : ℕ) (x : List ℕ) (rows : List PlacedRow) (root : Option ℕ)
        (busy : List Range) → IsSound d → IsKeyNumber d k
        → (key_bad d rows (key_walk k (met_in d k x root busy)) ≡ None)
        ↔ IsWholeTree d k x rows root busy }
    ensures bytes { (d : Defs) (rows : List ℕ)
        → IsFirst (λ p q. p < q) (BelongsToNothing d rows) (rows_bad d rows) }
    ensures told { (d : Defs) (rows x : List ℕ) → IsSound d → (finding : Finding)
        → Contains (findings d rows x) finding → IsToldOf d rows x finding }
{}

/// The measures of what a repair writes: a static row takes its slot, a place in a file within reach fits
/// a row pointer, and what is kept of the header behind the state's own numbers is as long as before.
pub fn written_parts_are_measured()
    ensures slot { (d : Defs) (row : SizedRow) → IsSound d → d.format ≡ Static → IsStorable d row
        → stored_size d row ≡ d.slot_length }
    ensures pointer { (d : Defs) (at len : ℕ) → IsSound d → is_addressable d len ≡ true → at ≤ len
        → pointer d at < 256 ^ d.rec_ref }
    ensures rest { (d : Defs) → IsSound d
        → length (without_free_pages d (state_of d d.raw).rest) ≡ rest_length d }
{}
