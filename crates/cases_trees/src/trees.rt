//! Trees of an index file, whose first page stands at 1024.
ghost use Rattle.std.specs.Prelude.{◌≡◌, ◌+◌, ◌%◌, ◌≤◌, ◌^◌, ◌<◌, true, IfOk};
ghost use Rattle.myi_keypage.specs.Page.{entry_with};
ghost use Rattle.myi_btree.specs.Sizes.{IsPlaced, IsSized, AreSized};
ghost use Rattle.myi_btree.specs.Building.{AreKeys};

use case_lines::{
    Fault, PlaceText, Words, four_bytes, key_of_code, number, one_byte, place, push_word, sides,
    size, two_bytes,
};
use myi_base::Sequence;
use myi_btree::{Event, Events, Pair, Place, Room, Tree, TreeFault};
use myi_keycache::{CacheFault, CacheSetup, KeyCache};
use myi_keylist::PairList;
use myi_keys::{KeySeg, KeyVal, MOST_WEIGHTS, WeightList, encode, key_with};
use myi_memfiles::MemFiles;
use std::alloc::{AllocError, Global};

/// The name of the index file.
pub(crate) const NAME: &str = "t.MYI";

/// Where the first page stands.
pub(crate) const FIRST: u64 = 1024;

fn is_placed(place: &Place) -> bool
    ensures { result ≡ true → IsPlaced place.now }
{
    place.block_length % 1024 == 0
        && 1024 <= place.block_length
        && place.block_length <= 16_384
        && 2 <= place.rec_ref
        && place.rec_ref <= 8
}

/// Whether a row fits into so many bytes.
pub(crate) fn is_row(rec_ref: u8, row: u64) -> bool
    requires { rec_ref ≤ 8 }
    ensures { result ≡ true → row < 256 ^ rec_ref }
{
    match 256u64.checked_pow(rec_ref as u32) {
        Some(all) => row < all,
        None => true,
    }
}

fn is_sized(place: Place, code: &[u8], row: u64) -> bool
    requires { place.rec_ref ≤ 8 }
    ensures { result ≡ true → IsSized place (entry_with code.now row) }
{
    code.len() <= 16_384
        && 2 * (code.len() + 13 + place.rec_ref as usize) + 9 <= place.block_length as usize
        && is_row(place.rec_ref, row)
}

// Whether two such entries fit into a page, and the rows into the row pointers.
fn are_sized(place: Place, pairs: &PairList) -> bool
    requires { place.rec_ref ≤ 8 }
    ensures { result ≡ true → AreSized place pairs.now }
{
    for i in 0..pairs.len() {
        if !is_sized(place, pairs.code(i), pairs.row(i)) {
            return false;
        }
    }
    true
}

/// A tree that has no root yet.
pub(crate) fn unrooted(block_length: &str, rec_ref: &str) -> Result<Place, Fault>
    ensures { IfOk result IsPlaced }
{
    let place = Place {
        block_length: two_bytes(block_length)?,
        rec_ref: one_byte(rec_ref)?,
        root: None,
    };
    if is_placed(&place) {
        Ok(place)
    } else {
        Err(Fault::Unread)
    }
}

/// An index file, the cache of its pages and the room behind them.
pub(crate) struct Index {
    pub(crate) files: MemFiles,
    pub(crate) cache: KeyCache,
    room: Room,
}

impl Drop for Index {
    fn drop(self) {
        let Index {
            files: _,
            cache: _,
            room: _,
        } = self;
    }
}

/// The index file of these bytes, where the file calls of these numbers fail.
pub(crate) fn index_of(
    alloc: Global,
    bytes: Vec<u8>,
    faults: Vec<u64>,
) -> Result<Index, AllocError> {
    let given = vec![in alloc; (String::from_str(alloc, NAME)?, bytes)]?;
    let setup = CacheSetup {
        blocks: 64,
        division: 100,
        age: 300,
    };
    Ok(Index {
        files: MemFiles::new(alloc, given, faults)?,
        cache: KeyCache::new(alloc, NAME, setup)?,
        room: Room {
            end: FIRST,
            free: Sequence::new(Vec::new(alloc)),
        },
    })
}

/// Want of memory, or a fault that no line may have.
pub(crate) fn of_tree(fault: TreeFault) -> Fault {
    match fault {
        TreeFault::Memory => Fault::Memory,
        TreeFault::Damaged { .. } | TreeFault::File => Fault::Unread,
    }
}

// Builds a tree from the room's end on, writes its root, and answers it.
fn push_built(
    out: &mut String,
    index: &mut Index,
    place: Place,
    pairs: &PairList,
) -> Result<Option<u64>, Fault>
    requires { IsPlaced place }
{
    let alloc = *out.allocator();
    let end = index.room.end;
    if end % 1024 != 0 || !are_sized(place, pairs) {
        return Err(Fault::Unread);
    }
    let Index { files, cache, room } = index;
    match Tree::build(alloc, files, cache, place, room, pairs) {
        Ok(tree) => {
            let root = PlaceText(tree.root());
            write!(out, "root {root} ")?;
            Ok(tree.root())
        }
        Err(TreeFault::File) => {
            out.push_str("failed ")?;
            Ok(None)
        }
        Err(fault) => Err(of_tree(fault)),
    }
}

// Writes the pages that were put into the file, and tells a write that failed.
fn push_flushed(out: &mut String, index: &mut Index) -> Result<(), Fault> {
    let Index { files, cache, .. } = index;
    match cache.flush(files) {
        Ok(()) => Ok(()),
        Err(CacheFault::Memory) => Err(Fault::Memory),
        Err(_) => Ok(out.push_str("failed ")?),
    }
}

/// The pair that a word `CODE:ROW` says.
pub(crate) fn pair_of(words: &Words, word: &str) -> Result<Pair, Fault> {
    let (code, row) = sides(word, ':')?;
    let row = number(row)?;
    let key = key_of_code(words, code)?;
    Ok(Pair { key, row })
}

fn pairs(words: &Words, args: &[&str]) -> Result<PairList, Fault> {
    let mut pairs = PairList::new(words.alloc());
    for arg in args {
        let pair = pair_of(words, *arg)?;
        pairs.push(pair.key.code(), pair.row)?;
    }
    Ok(pairs)
}

/// `build LENGTH POINTER FAULTS CODE:ROW.. [tree CODE:ROW..]..`: trees of sorted pairs, with pages of that length
/// and row pointers of that size, one behind the other: the roots, the room's end and the file.
fn build(words: &Words, args: &[&str]) -> Result<String, Fault> {
    let [block_length, rec_ref, faults, others @ ..] = args else {
        return Err(Fault::Unread);
    };
    let alloc = words.alloc();
    let place = unrooted(*block_length, *rec_ref)?;
    let header = vec![in alloc; 0u8; FIRST as usize]?;
    let mut index = index_of(alloc, header, words.numbers(*faults)?)?;
    let mut out = String::new(alloc);
    for group in others.split(|word| *word == "tree") {
        let pairs = pairs(words, group)?;
        push_built(&mut out, &mut index, place, &pairs)?;
    }
    push_flushed(&mut out, &mut index)?;
    write!(out, "end {} ", index.room.end)?;
    push_word(&mut out, index.files.get(NAME).unwrap_or_default())?;
    Ok(out)
}

/// The pairs of a tree, each with its page.
pub(crate) fn walked(
    alloc: Global,
    index: &mut Index,
    place: Place,
) -> Result<Vec<(Pair, u64)>, TreeFault>
    requires { IsPlaced place }
{
    let Index { files, cache, .. } = index;
    cache.flush(files)?;
    Tree::new(place).walk(alloc, files, cache)
}

fn push_pairs(out: &mut String, walked: &[(Pair, u64)]) -> Result<(), AllocError> {
    let alloc = *out.allocator();
    out.push_str("walk")?;
    for (pair, page) in walked {
        out.push(' ')?;
        push_word(out, &encode(alloc, &pair.key)?)?;
        write!(out, ":{}:{page}", pair.row)?;
    }
    Ok(())
}

/// `walk LENGTH POINTER ROOT BYTES`: the pairs of the tree with that root in an index file.
fn walk(words: &Words, args: &[&str]) -> Result<String, Fault> {
    let [block_length, rec_ref, root, bytes] = args else {
        return Err(Fault::Unread);
    };
    let alloc = words.alloc();
    let place = Place {
        root: place(*root)?,
        ..unrooted(*block_length, *rec_ref)?
    };
    let mut index = index_of(alloc, words.bytes(*bytes)?, Vec::new(alloc))?;
    let mut out = String::new(alloc);
    match walked(alloc, &mut index, place) {
        Ok(pairs) => push_pairs(&mut out, &pairs)?,
        Err(TreeFault::Damaged { at }) => write!(out, "damaged {at}")?,
        Err(fault) => return Err(of_tree(fault)),
    }
    Ok(out)
}

// What a walk meets next, as a word: None where it met all.
fn push_event(out: &mut String, event: Event) -> Result<(), AllocError> {
    let alloc = *out.allocator();
    match event {
        Event::Page { at } => write!(out, " page:{at}"),
        Event::Pair { pair, at } => {
            out.push(' ')?;
            push_word(out, &encode(alloc, &pair.key)?)?;
            write!(out, ":{}:{at}", pair.row)
        }
        Event::Bad { at } => write!(out, " bad:{at}"),
    }
}

fn push_events(out: &mut String, index: &mut Index, place: Place) -> Result<(), Fault>
    requires { IsPlaced place }
{
    let Index { files, cache, .. } = index;
    let mut events = Events::new(*out.allocator(), place);
    for _ in 0..u64::MAX {
        match events.next(files, cache) {
            Ok(Some(event)) => push_event(out, event)?,
            Ok(None) => return Ok(()),
            Err(TreeFault::File) => out.push_str(" failed")?,
            Err(fault) => return Err(of_tree(fault)),
        }
    }
    Err(Fault::Memory)
}

/// `events LENGTH POINTER ROOT FAULTS BYTES`: what a walk of the tree with that root meets, one after the
/// other. Behind a call that failed it goes on.
fn events(words: &Words, args: &[&str]) -> Result<String, Fault> {
    let [block_length, rec_ref, root, faults, bytes] = args else {
        return Err(Fault::Unread);
    };
    let alloc = words.alloc();
    let place = Place {
        root: place(*root)?,
        ..unrooted(*block_length, *rec_ref)?
    };
    let mut index = index_of(alloc, words.bytes(*bytes)?, words.numbers(*faults)?)?;
    let mut out = String::from_str(alloc, "events")?;
    push_events(&mut out, &mut index, place)?;
    Ok(out)
}

// A key of one segment of so many weights: the number, high byte first, and zeros.
fn numbered(alloc: Global, width: usize, number: u32) -> Result<KeyVal, AllocError>
    requires { width ≤ 1000 }
{
    let mut weights = Vec::from_slice(alloc, &number.to_be_bytes())?;
    weights.resize(width, 0)?;
    let weights = WeightList::new(weights);
    key_with(alloc, &[KeySeg::Weights(weights)])
}

fn numbered_pairs(alloc: Global, width: usize, count: u32) -> Result<PairList, AllocError>
    requires { width ≤ 1000 }
    ensures { IfOk result AreKeys }
{
    let mut pairs = PairList::new(alloc);
    for number in 0..count {
        let key = numbered(alloc, width, number + 1)?;
        pairs.push(key.code(), number as u64 * 8)?;
    }
    Ok(pairs)
}

// Codes, rows and pages of a walk, one after the other.
fn walk_bytes(alloc: Global, walked: &[(Pair, u64)]) -> Result<Vec<u8>, AllocError> {
    let mut bytes = Vec::new(alloc);
    for (pair, page) in walked {
        bytes.extend_from_slice(&encode(alloc, &pair.key)?)?;
        bytes.extend_from_slice(&pair.row.to_be_bytes())?;
        bytes.extend_from_slice(&page.to_be_bytes())?;
    }
    Ok(bytes)
}

/// An index file with the tree of so many numbered keys of so many weights, whose rows are eight apart, and its root.
pub(crate) fn built(
    out: &mut String,
    place: Place,
    width: usize,
    count: u32,
) -> Result<(Index, Option<u64>), Fault>
    requires placed { IsPlaced place }
{
    if width > MOST_WEIGHTS {
        return Err(Fault::Unread);
    }
    let alloc = *out.allocator();
    let pairs = numbered_pairs(alloc, width, count)?;
    let header = vec![in alloc; 0u8; FIRST as usize]?;
    let mut index = index_of(alloc, header, Vec::new(alloc))?;
    let root = push_built(out, &mut index, place, &pairs)?;
    push_flushed(out, &mut index)?;
    Ok((index, root))
}

/// `laid LENGTH POINTER WIDTH COUNT`: the tree of so many numbered keys of so many weights, whose rows are
/// eight apart: its root, the room's end, its pages, and its walk.
fn laid(words: &Words, args: &[&str]) -> Result<String, Fault> {
    let [block_length, rec_ref, width, count] = args else {
        return Err(Fault::Unread);
    };
    let alloc = words.alloc();
    let place = unrooted(*block_length, *rec_ref)?;
    let mut out = String::new(alloc);
    let (mut index, root) = built(&mut out, place, size(*width)?, four_bytes(*count)?)?;
    write!(out, "end {} ", index.room.end)?;
    let bytes = index.files.get(NAME).unwrap_or_default();
    push_word(&mut out, bytes.get(FIRST as usize..).unwrap_or_default())?;
    let walked = walked(alloc, &mut index, Place { root, ..place }).map_err(of_tree)?;
    out.push_str(" walk ")?;
    push_word(&mut out, &walk_bytes(alloc, &walked)?)?;
    Ok(out)
}

/// `lay LENGTH POINTER WIDTH COUNT`: the same tree laid from place 0: its root and its pages.
fn lay(words: &Words, args: &[&str]) -> Result<String, Fault> {
    let [block_length, rec_ref, width, count] = args else {
        return Err(Fault::Unread);
    };
    let alloc = words.alloc();
    let place = unrooted(*block_length, *rec_ref)?;
    let (width, count) = (size(*width)?, four_bytes(*count)?);
    if width > MOST_WEIGHTS {
        return Err(Fault::Unread);
    }
    let pairs = numbered_pairs(alloc, width, count)?;
    if !are_sized(place, &pairs) {
        return Err(Fault::Unread);
    }
    let laid = myi_btree::lay(alloc, &place, &pairs)?;
    let mut out = String::new(alloc);
    let root = PlaceText(laid.place.root);
    write!(out, "root {root} ")?;
    push_word(&mut out, &laid.pages)?;
    Ok(out)
}

// Whether pages of so many bytes may be moved there.
fn has_room(first: u64, bytes: usize) -> bool
    ensures { result ≡ true → (first % 1024 ≡ 0) × (first + bytes < 2 ^ 64) }
{
    first % 1024 == 0 && first.checked_add(bytes as u64).is_some()
}

/// `shift LENGTH POINTER WIDTH COUNT PLACE`: the same tree laid from place 0 and moved to a place: its root
/// and its pages.
fn shift(words: &Words, args: &[&str]) -> Result<String, Fault> {
    let [block_length, rec_ref, width, count, first] = args else {
        return Err(Fault::Unread);
    };
    let alloc = words.alloc();
    let place = unrooted(*block_length, *rec_ref)?;
    let (width, count, first) = (size(*width)?, four_bytes(*count)?, number(*first)?);
    if width > MOST_WEIGHTS {
        return Err(Fault::Unread);
    }
    let pairs = numbered_pairs(alloc, width, count)?;
    if !are_sized(place, &pairs) {
        return Err(Fault::Unread);
    }
    let mut laid = myi_btree::lay(alloc, &place, &pairs)?;
    if !has_room(first, laid.pages.len()) {
        return Err(Fault::Unread);
    }
    laid.shift(first);
    let mut out = String::new(alloc);
    let root = PlaceText(laid.place.root);
    write!(out, "root {root} ")?;
    push_word(&mut out, &laid.pages)?;
    Ok(out)
}

/// The answer to a call of this module, and None where the name is no such call.
pub fn answer(words: &Words, name: &str, args: &[&str]) -> Option<Result<String, Fault>> {
    match name {
        "laid" => Some(laid(words, args)),
        "lay" => Some(lay(words, args)),
        "shift" => Some(shift(words, args)),
        "build" => Some(build(words, args)),
        "walk" => Some(walk(words, args)),
        "events" => Some(events(words, args)),
        _ => None,
    }
}
