//! Laws over the definitions of this crate. Each is the contract of a function that does nothing, so
//! that it is proved with the crate and stands for the crates above.
ghost use Rattle.std.specs.Prelude.{◌≡◌, ◌≤◌, ◌<◌, ◌⊎◌, ◌+◌, ◌-◌, ◌++◌, ◌∷◌};
ghost use Rattle.std.specs.Prelude.{ℕ, List, [], Some, None, length, slice_get, option_map, true, false};
ghost use Rattle.myi_base.specs.Ranges.{are_apart};
ghost use Rattle.myi_base.specs.Holding.{Holding, bytes_of, overwritten};
ghost use Rattle.myi_keycache.specs.Kept.{Page, is_kept, is_unwritten};
ghost use Rattle.myi_keycache.specs.Kept.{AreOthers, NoOtherMeets, AddsOnly, AllWritten};
ghost use Rattle.myi_keycache.specs.declared.setup.CacheSetup.{CacheSetup};
ghost use Rattle.myi_keycache.specs.Setup.{IsSetup};
ghost use Rattle.myi_keycache.specs.Counts.{raised};
ghost use Rattle.myi_keycache.specs.Midpoint.{Listed, Lists, listed, without, keeps_share, asked};
ghost use Rattle.myi_keycache.specs.Midpoint.{accessed, asked_page, age_limit, midpoint, on_lists, goes};
ghost use Rattle.myi_keycache.specs.Midpoint.{AreLists, IsFirst};
ghost use Rattle.myi_keycache.specs.WorkedRun.{four_blocks, page_at, after_accesses};
ghost use Rattle.myi_keycache.specs.WorkedRun.{lists_at, Passes, four_run};
ghost use Rattle.myi_keycache.specs.Lent.{bytes_at};
ghost use Rattle.myi_keycache.specs.Caching.{Caching, pages_of, lists_of, leaving, lends, contents};
ghost use Rattle.myi_keycache.specs.Caching.{IsCurrent, Stays, Puts};
ghost use Rattle.myi_keycache.specs.Flushing.{after_writes};
ghost use Rattle.myi_keycache.specs.Order.{page_of};

/// What is lent of a range is what the file with all puts has there, and has the range's length. Where all
/// pages are written, that is the file, and the same is lent as it has; also where no page is kept.
pub fn files_show_what_is_lent()
    ensures long { (cache : Caching) (m : Holding) (at len : ℕ) (x : List ℕ)
        → lends cache m at len ≡ Some x → length x ≡ len }
    ensures found { (cache : Caching) (m : Holding) (at len : ℕ) (x : List ℕ) → IsCurrent cache m
        → lends cache m at len ≡ Some x → bytes_at (contents cache m) at len ≡ Some x }
    ensures file { (cache : Caching) (m : Holding) → AllWritten (pages_of cache)
        → contents cache m ≡ bytes_of cache.name m }
    ensures lent { (cache : Caching) (m : Holding) (at len : ℕ) → AllWritten (pages_of cache)
        → IsCurrent cache m → lends cache m at len ≡ bytes_at (bytes_of cache.name m) at len }
    ensures none { (cache : Caching) → pages_of cache ≡ [] → AllWritten (pages_of cache) }
{}

/// Calls that put nothing may follow one another: after all of them the same is lent as before the first. A
/// page that is put at the end of the file with all puts makes it longer by its bytes.
pub fn calls_follow()
    ensures start { (cache : Caching) (m : Holding) → IsCurrent cache m → Stays cache cache m m }
    ensures stays { (a b c : Caching) (m n k : Holding)
        → Stays a b m n → Stays b c n k → Stays a c m k }
    ensures appended { (at : ℕ) (x : List ℕ) (a b : Caching) (m n : Holding)
        → at ≡ length (contents a m) → Puts at x a b m n → contents b n ≡ contents a m ++ x }
{}

/// The bytes of a range: those that were written over it, those before a write elsewhere, and those of a
/// part of a list. A write at the end of a file makes it longer by what is written.
pub fn ranges_are_read()
    ensures long { (file : List ℕ) (at len : ℕ) (x : List ℕ)
        → bytes_at file at len ≡ Some x → length x ≡ len }
    ensures written { (file : List ℕ) (at : ℕ) (x : List ℕ)
        → bytes_at (overwritten at x file) at (length x) ≡ Some x }
    ensures apart { (file : List ℕ) (at : ℕ) (x : List ℕ) (p len : ℕ) (y : List ℕ)
        → are_apart (p, p + len) (at, at + length x) ≡ true
        → bytes_at file p len ≡ Some y → bytes_at (overwritten at x file) p len ≡ Some y }
    ensures part { (front x back : List ℕ)
        → bytes_at (front ++ (x ++ back)) (length front) (length x) ≡ Some x }
    ensures end { (file x : List ℕ) → overwritten (length file) x file ≡ file ++ x }
{}

/// A file of three bytes after two pages were written to it, one after the other: where they meet, the bytes of the
/// later one stand; between the file's end and a page behind it stand zeros.
pub fn pages_written_in_turn()
    ensures over { after_writes
        (page_of 1 (7 ∷ 8 ∷ 9 ∷ []) true ∷ page_of 3 (5 ∷ []) true ∷ []) (1 ∷ 2 ∷ 3 ∷ [])
        ≡ 1 ∷ 7 ∷ 8 ∷ 5 ∷ [] }
    ensures apart { after_writes
        (page_of 1 (7 ∷ []) true ∷ page_of 5 (9 ∷ []) true ∷ []) (1 ∷ 2 ∷ 3 ∷ [])
        ≡ 1 ∷ 7 ∷ 3 ∷ 0 ∷ 0 ∷ 9 ∷ [] }
{}

/// Which pages are kept: an unwritten page is kept. That no other page meets a range holds where no page
/// is kept, or where all are written; it still holds once a page was added that does not meet it.
pub fn pages_stay_apart()
    ensures unwritten { (pages : List Page) (p len : ℕ)
        → is_unwritten pages p len ≡ true → is_kept pages p len ≡ true }
    ensures none { (at len : ℕ) → NoOtherMeets (is_kept []) at len }
    ensures written { (pages : List Page) (at len : ℕ) → AllWritten pages
        → NoOtherMeets (is_unwritten pages) at len }
    ensures kept { (pages : List Page) (at len : ℕ) → NoOtherMeets (is_kept pages) at len
        → NoOtherMeets (is_unwritten pages) at len }
    ensures added { (old new : List Page) (at len p n : ℕ)
        → NoOtherMeets (is_kept old) p n → AddsOnly at len old new
        → ((at ≡ p) × (len ≡ n)) ⊎ (are_apart (at, at + len) (p, p + n) ≡ true)
        → NoOtherMeets (is_kept new) p n }
{}

/// The two lists, whatever stands on them. After an access no page stands there twice, and no more than the cache
/// may keep, if so before. The page that goes is the first warm one, or the first hot one where none is warm. A
/// warm page goes to the hot list not before its third hit, and only where the warm list keeps its share.
pub fn lists_hold_each_page_once()
    ensures none { (setup : CacheSetup) → IsSetup setup
        → AreLists setup (record { warm = []; hot = []; accesses = 0 }) }
    ensures once { (setup : CacheSetup) (lists : Lists) (at len : ℕ) → IsSetup setup
        → AreLists setup lists → AreLists setup (midpoint setup lists at len) }
    ensures first { (setup : CacheSetup) (lists : Lists) (at len : ℕ) (page : Listed)
        → goes setup lists at len ≡ Some page → IsFirst lists page }
    ensures third { (setup : CacheSetup) (lists : Lists) (at len : ℕ) (page : Listed)
        → listed at len lists.warm ≡ Some page → page.hits < 2
        → (asked setup at len lists).hot ≡ lists.hot }
    ensures share { (setup : CacheSetup) (lists : Lists) (at len : ℕ) (page : Listed)
        → listed at len lists.warm ≡ Some page
        → keeps_share setup (without page.at page.len lists.warm) ≡ false
        → (asked setup at len lists).hot ≡ lists.hot }
{}

/// Which page goes in an access, and which stay. The page that goes is the one that `leaving` names, and is on
/// neither list afterwards. Each other page, and where none goes each, stays on a list with its hits and its last
/// access, until the age is looked at; then it still does, but that the first hot page may lose its hits. The page
/// that was asked for stands on a list, this access is its last, and a warm page has one hit more.
pub fn one_page_goes()
    ensures leaving { (cache : Caching) (at len : ℕ)
        → option_map {U = ℕ × ℕ} (λ page. (page.at, length page.bytes)) (leaving cache at len)
        ≡ option_map {U = ℕ × ℕ} (λ page. (page.at, page.len))
        (goes cache.setup (lists_of cache) at len) }
    ensures gone { (setup : CacheSetup) (lists : Lists) (at len : ℕ) (page : Listed)
        → AreLists setup lists → goes setup lists at len ≡ Some page
        → on_lists page.at page.len (midpoint setup lists at len) ≡ None }
    ensures stay { (setup : CacheSetup) (lists : Lists) (at len p n : ℕ) (page : Listed)
        → goes setup lists at len ≡ Some page
        → AreOthers p n page.at page.len → AreOthers p n at len
        → on_lists p n (accessed setup lists at len) ≡ on_lists p n lists }
    ensures leaves { (setup : CacheSetup) (lists : Lists) (at len p n : ℕ)
        → goes setup lists at len ≡ None → AreOthers p n at len
        → on_lists p n (accessed setup lists at len) ≡ on_lists p n lists }
    ensures aged { (setup : CacheSetup) (lists : Lists) (at len p n : ℕ) (page : Listed)
        → IsSetup setup → AreLists setup lists
        → on_lists p n (accessed setup lists at len) ≡ Some page
        → (on_lists p n (midpoint setup lists at len) ≡ Some page)
        ⊎ ((slice_get (accessed setup lists at len).hot 0 ≡ Some page)
        × (on_lists p n (midpoint setup lists at len) ≡ Some (record page { hits = 0 }))) }
    ensures asked { (setup : CacheSetup) (lists : Lists) (at len : ℕ)
        → IsSetup setup → AreLists setup lists
        → on_lists at len (midpoint setup lists at len) ≡ Some (asked_page lists at len) }
{}

/// The age. At the end of each access, whatever it was to, the first hot page goes to the warm beginning with no
/// hits exactly where more accesses than the setup's age allows came since its last one, and no other page moves.
/// Where no page is hot, none does.
pub fn hot_pages_age()
    ensures old { (setup : CacheSetup) (lists : Lists) (at len : ℕ)
        (first : Listed) (hot : List Listed) → (accessed setup lists at len).hot ≡ first ∷ hot
        → age_limit setup < raised 1 lists.accesses - first.last
        → midpoint setup lists at len ≡ record {
          warm = record first { hits = 0 } ∷ (accessed setup lists at len).warm;
          hot = hot;
          accesses = raised 1 lists.accesses;
        } }
    ensures young { (setup : CacheSetup) (lists : Lists) (at len : ℕ)
        (first : Listed) (hot : List Listed) → (accessed setup lists at len).hot ≡ first ∷ hot
        → raised 1 lists.accesses - first.last ≤ age_limit setup
        → midpoint setup lists at len ≡ accessed setup lists at len }
    ensures none { (setup : CacheSetup) (lists : Lists) (at len : ℕ)
        → (accessed setup lists at len).hot ≡ []
        → midpoint setup lists at len ≡ accessed setup lists at len }
{}

/// The lists of a key cache of 4 blocks, division 50 and age 100, after accesses to the pages A B C D A A A E C D
/// E C F A, which are numbers here: the third hit of A sends it to the hot list, B leaves for E; A is old at the
/// twelfth access and goes to the warm beginning, from where it leaves for F, and D for A. `four_run` has the lists
/// after each access.
pub fn lists_of_four_blocks()
    ensures each { Passes four_blocks (lists_at 0 [] []) four_run }
    ensures third_hit { after_accesses four_blocks (0 ∷ 1 ∷ 2 ∷ 3 ∷ 0 ∷ 0 ∷ 0 ∷ []) ≡ record {
      warm = page_at 1 0 2 ∷ page_at 2 0 3 ∷ page_at 3 0 4 ∷ [];
      hot = page_at 0 3 7 ∷ [];
      accesses = 7;
    } }
    ensures evicted { goes four_blocks
        (after_accesses four_blocks (0 ∷ 1 ∷ 2 ∷ 3 ∷ 0 ∷ 0 ∷ 0 ∷ [])) 4 1 ≡ Some (page_at 1 0 2) }
    ensures old_goes { goes four_blocks (after_accesses four_blocks
        (0 ∷ 1 ∷ 2 ∷ 3 ∷ 0 ∷ 0 ∷ 0 ∷ 4 ∷ 2 ∷ 3 ∷ 4 ∷ 2 ∷ [])) 5 1 ≡ Some (page_at 0 0 7) }
    ensures last_goes { goes four_blocks (after_accesses four_blocks
        (0 ∷ 1 ∷ 2 ∷ 3 ∷ 0 ∷ 0 ∷ 0 ∷ 4 ∷ 2 ∷ 3 ∷ 4 ∷ 2 ∷ 5 ∷ [])) 0 1 ≡ Some (page_at 3 1 10) }
    ensures old { after_accesses four_blocks
        (0 ∷ 1 ∷ 2 ∷ 3 ∷ 0 ∷ 0 ∷ 0 ∷ 4 ∷ 2 ∷ 3 ∷ 4 ∷ 2 ∷ []) ≡ record {
          warm = page_at 0 0 7 ∷ page_at 3 1 10 ∷ page_at 4 1 11 ∷ page_at 2 2 12 ∷ [];
          hot = [];
          accesses = 12;
        } }
    ensures end { after_accesses four_blocks
        (0 ∷ 1 ∷ 2 ∷ 3 ∷ 0 ∷ 0 ∷ 0 ∷ 4 ∷ 2 ∷ 3 ∷ 4 ∷ 2 ∷ 5 ∷ 0 ∷ []) ≡ record {
          warm = page_at 4 1 11 ∷ page_at 2 2 12 ∷ page_at 5 0 13 ∷ page_at 0 0 14 ∷ [];
          hot = [];
          accesses = 14;
        } }
{}
