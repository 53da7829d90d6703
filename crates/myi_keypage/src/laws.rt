//! Laws over the definitions of this crate. Each is the contract of a function that does nothing, so
//! that it is proved with the crate and stands for the crates above.
ghost use Rattle.std.specs.Prelude.{◌≡◌, ℕ, ◌+◌, ◌*◌, ◌^◌, ◌<◌, ◌≤◌, ◌++◌, Bool, true, false};
ghost use Rattle.std.specs.Prelude.{List, [], ◌∷◌, length, take, drop, is_some, Option, Some};
ghost use Rattle.std.specs.List.{AllByRecursion};
ghost use Rattle.myi_base.specs.Numbers.{AreBytes};
ghost use Rattle.myi_keypage.specs.declared.entry.Entry.{Entry};
ghost use Rattle.myi_keypage.specs.Page.{Page, shared, entry_bytes, page_bytes, is_node};
ghost use Rattle.myi_keypage.specs.Page.{IsPlace, IsBranching, IsWritable, IsPage};
ghost use Rattle.myi_keypage.specs.PageItems.{are_longest};
ghost use Rattle.myi_keypage.specs.Views.{ViewedPage, page_of, viewed_in, page_in};
ghost use Rattle.myi_keypage.specs.Fitting.{used_length};

/// Bytes are at most one page, which `page_in` gives, and two pages have two spellings. A page depends
/// on its used bytes alone.
pub fn pages_read_back()
    ensures once { (rec_ref : ℕ) (x : List ℕ) (p q : Page) → IsPage rec_ref x p → IsPage rec_ref x q
        → p ≡ q }
    ensures read { (rec_ref : ℕ) (x : List ℕ) (p : Page) → IsPage rec_ref x p
        → page_in rec_ref x ≡ Some p }
    ensures page { (rec_ref : ℕ) (x : List ℕ) (p : Page) → AreBytes x → page_in rec_ref x ≡ Some p
        → IsPage rec_ref x p }
    ensures written { (rec_ref : ℕ) (p : Page) (rest : List ℕ) → IsWritable rec_ref p
        → IsBranching p
        → page_in rec_ref (page_bytes rec_ref p ++ rest) ≡ Some p }
    ensures spelling { (rec_ref : ℕ) (p q : Page) → IsWritable rec_ref p → IsBranching p
        → IsWritable rec_ref q
        → IsBranching q → page_bytes rec_ref p ≡ page_bytes rec_ref q → p ≡ q }
    ensures used { (rec_ref : ℕ) (x y : List ℕ) (p : Page) → IsPage rec_ref x p
        → take (length (page_bytes rec_ref p)) y ≡ take (length (page_bytes rec_ref p)) x
        → IsPage rec_ref y p }
{}

/// Where bytes are a page, a view shows it: with an item for each entry, of which there is at least one,
/// with a first child and a child after each item in a node alone, and with the longest prefixes.
pub fn views_show_pages()
    ensures shown { (rec_ref : ℕ) (x : List ℕ) (p : Page) → IsPage rec_ref x p
        → (s : ViewedPage) × (viewed_in rec_ref x ≡ Some s) × (page_of s ≡ p) }
    ensures entries { (s : ViewedPage) → length (page_of s).entries ≡ length s.items }
    ensures node { (rec_ref : ℕ) (x : List ℕ) (s : ViewedPage) → AreBytes x
        → viewed_in rec_ref x ≡ Some s
        → is_node (page_of s) ≡ is_some s.first }
    ensures some { (rec_ref : ℕ) (x : List ℕ) (s : ViewedPage) → AreBytes x
        → viewed_in rec_ref x ≡ Some s
        → 0 < length s.items }
    ensures children { (rec_ref : ℕ) (x : List ℕ) (s : ViewedPage) → AreBytes x
        → viewed_in rec_ref x ≡ Some s
        → AllByRecursion (λ item. is_some item.child ≡ is_some s.first) s.items }
    ensures longest { (rec_ref : ℕ) (x : List ℕ) (s : ViewedPage) → AreBytes x
        → viewed_in rec_ref x ≡ Some s
        → are_longest [] s.items ≡ true }
{}

/// The used length is the length of the spelling, within the bytes of each page, and a page can be
/// written where it is below 32,768. Entries that fit still fit with any run of them
/// taken out, and so does each part of a list that is cut in two. An entry takes at least two bytes and
/// its row pointer, and at most six and its key besides; one that is put before another lengthens that by
/// at most two bytes, where it shares with it what the key before it did. Two entries whose keys are at
/// most `most` bytes long fit into each page of at least 2 (most + 13 + rec_ref) + 9 bytes.
pub fn entries_fit()
    ensures length { (rec_ref : ℕ) (p : Page) → IsBranching p
        → used_length rec_ref (is_node p) p.entries ≡ length (page_bytes rec_ref p) }
    ensures inside { (rec_ref : ℕ) (x : List ℕ) (p : Page) → IsPage rec_ref x p
        → used_length rec_ref (is_node p) p.entries ≤ length x }
    ensures writable { (rec_ref : ℕ) (p : Page) → IsBranching p → 0 < length p.entries
        → AllByRecursion (λ e. e.row < 256 ^ rec_ref) p.entries → AllByRecursion IsPlace p.children
        → used_length rec_ref (is_node p) p.entries < 32768 → IsWritable rec_ref p }

    ensures part { (rec_ref : ℕ) (node : Bool) (xs ys zs : List Entry)
        → used_length rec_ref node (xs ++ zs) ≤ used_length rec_ref node (xs ++ (ys ++ zs)) }
    ensures one { (rec_ref : ℕ) (node : Bool) (xs : List Entry) (e : Entry) (zs : List Entry)
        → used_length rec_ref node (xs ++ zs) ≤ used_length rec_ref node (xs ++ e ∷ zs) }
    ensures front { (rec_ref : ℕ) (node : Bool) (count : ℕ) (es : List Entry)
        → used_length rec_ref node (take count es) ≤ used_length rec_ref node es }
    ensures back { (rec_ref : ℕ) (node : Bool) (count : ℕ) (es : List Entry)
        → used_length rec_ref node (drop count es) ≤ used_length rec_ref node es }
    ensures leaf { (rec_ref : ℕ) (es : List Entry)
        → used_length rec_ref false es ≤ used_length rec_ref true es }

    ensures entry { (rec_ref : ℕ) (before : List ℕ) (e : Entry)
        → length (entry_bytes rec_ref before e) ≤ length e.key + 6 + rec_ref }
    ensures least { (rec_ref : ℕ) (before : List ℕ) (e : Entry)
        → 2 + rec_ref ≤ length (entry_bytes rec_ref before e) }
    ensures before { (rec_ref : ℕ) (before : List ℕ) (e z : Entry)
        → shared before z.key ≤ shared e.key z.key
        → length (entry_bytes rec_ref e.key z) ≤ length (entry_bytes rec_ref before z) + 2 }
    ensures keys { (rec_ref : ℕ) (node : Bool) (es : List Entry)
        → AllByRecursion (λ e. length e.key < used_length rec_ref node es) es }
    ensures two { (rec_ref : ℕ) (node : Bool) (most : ℕ) (a b : Entry) → length a.key ≤ most
        → length b.key ≤ most
        → used_length rec_ref node (a ∷ b ∷ []) ≤ 2 * (most + 13 + rec_ref) + 9 }
{}
