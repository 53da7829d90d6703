//! Blocks of a data file of dynamic rows.
ghost use Rattle.std.specs.Prelude.{◌≡◌, ◌+◌, ◌≤◌, true, if◌then◌else◌, nat_le};
ghost use Rattle.myi_frames.specs.Block.{IsPointer};
ghost use Rattle.myi_frames.specs.Sizes.{row_header, start_header, middle_header};
ghost use Rattle.myi_frames.specs.Writing.{IsWritable, Allows, HasRoom};

use case_lines::{Fault, PlaceText, Words, four_bytes, number, place, size, word};
use myi_frames as frames;
use myi_frames::{Frame, FrameKind, FrameSpec, GIANT, Head, LEAST_SIZE, MOST_SIZE, Seen};
use std::alloc::{AllocError, Global};

/// The greatest length that a header has in two bytes.
const MOST_SHORT: usize = 65_535;

fn head_text(alloc: Global, head: &Head) -> Result<String, AllocError> {
    let (next, prev) = (PlaceText(head.next), PlaceText(head.prev));
    format!(in alloc;
        "{:?} {} {} {} {next} {prev}",
        head.kind, head.at, head.size, head.rec_len
    )
}

/// `head AT LENGTH BYTES`: what the header of a block says, at a place of a file of that length, by the bytes
/// from there on.
fn head(words: &Words, args: &[&str]) -> Result<String, Fault> {
    let [at, file_len, bytes] = args else {
        return Err(Fault::Unread);
    };
    let (at, file_len) = (number(*at)?, number(*file_len)?);
    let bytes = words.bytes(*bytes)?;
    if bytes.len() < LEAST_SIZE && at.saturating_add(bytes.len() as u64) < file_len {
        return Err(Fault::Unread);
    }
    match frames::head_at(&bytes, at, file_len) {
        None => Ok(String::from_str(words.alloc(), "none")?),
        Some(head) => Ok(head_text(words.alloc(), &head)?),
    }
}

fn frame_text(alloc: Global, frame: &Frame) -> Result<String, AllocError> {
    let head = Head {
        kind: frame.kind,
        at: frame.at,
        size: frame.size,
        rec_len: frame.rec_len,
        next: frame.next,
        prev: frame.prev,
    };
    let head = head_text(alloc, &head)?;
    let bytes = word(alloc, frame.bytes)?;
    format!(in alloc; "{head} {bytes}")
}

/// `block AT LENGTH BYTES`: the block at a place of a file of that length, by the bytes from there on.
fn block(words: &Words, args: &[&str]) -> Result<String, Fault> {
    let [at, file_len, bytes] = args else {
        return Err(Fault::Unread);
    };
    let (at, file_len) = (number(*at)?, number(*file_len)?);
    let bytes = words.bytes(*bytes)?;
    if bytes.len() < LEAST_SIZE && at.saturating_add(bytes.len() as u64) < file_len {
        return Err(Fault::Unread);
    }
    let alloc = words.alloc();
    match frames::frame_at(&bytes, at, file_len) {
        Seen::Nothing => Ok(String::from_str(alloc, "none")?),
        Seen::Longer(size) => Ok(format!(in alloc; "longer {size}")?),
        Seen::Frame(frame) => Ok(frame_text(alloc, &frame)?),
    }
}

fn kind(word: &str) -> Result<FrameKind, Fault> {
    match word {
        "Deleted" => Ok(FrameKind::Deleted),
        "Whole" => Ok(FrameKind::Whole),
        "Start" => Ok(FrameKind::Start),
        "Middle" => Ok(FrameKind::Middle),
        "End" => Ok(FrameKind::End),
        _ => Err(Fault::Unread),
    }
}

// Whether so many row bytes may stand in a whole row or an end of this size.
fn has_room(len: usize, size: usize) -> bool
    ensures { result ≡ true → HasRoom (row_header len) len size }
{
    let header = if len <= MOST_SHORT { 3 } else { 4 };
    header <= size && size - header >= len && size - header - len <= 256
}

fn fills_start(rec_len: u32, len: usize, size: usize) -> bool
    ensures { result ≡ true → start_header rec_len len + len ≡ size }
{
    let header = if rec_len >= GIANT {
        16
    } else if rec_len as usize <= MOST_SHORT && len <= MOST_SHORT {
        13
    } else {
        15
    };
    header <= size && size - header == len
}

fn fills_middle(len: usize, size: usize) -> bool
    ensures { result ≡ true → middle_header len + len ≡ size }
{
    let header = if len <= MOST_SHORT { 11 } else { 12 };
    header <= size && size - header == len
}

fn is_allowed(spec: &FrameSpec, len: usize, size: usize) -> bool
    ensures { result ≡ true → Allows spec.now.kind spec.now len size }
{
    match spec.kind {
        FrameKind::Deleted => len == 0 && spec.rec_len == 0 && size <= MOST_SIZE as usize,
        FrameKind::Whole => {
            has_room(len, size)
                && spec.rec_len as usize == len
                && spec.next.is_none()
                && spec.prev.is_none()
        }
        FrameKind::Start => fills_start(spec.rec_len, len, size) && spec.prev.is_none(),
        FrameKind::Middle => { fills_middle(len, size) && spec.rec_len == 0 && spec.prev.is_none() }
        FrameKind::End => {
            has_room(len, size) && spec.rec_len == 0 && spec.next.is_none() && spec.prev.is_none()
        }
    }
}

fn is_pointer(place: Option<u64>) -> bool
    ensures { result ≡ true → IsPointer place }
{
    match place {
        None => true,
        Some(place) => place < u64::MAX,
    }
}

fn is_writable(spec: &FrameSpec, len: usize, size: usize) -> bool
    ensures { result ≡ true → IsWritable spec.now len size }
{
    size % 4 == 0
        && size >= LEAST_SIZE
        && len < GIANT as usize
        && is_pointer(spec.next)
        && is_pointer(spec.prev)
        && is_allowed(spec, len, size)
}

/// `write_block KIND ROW_LENGTH NEXT PREVIOUS SIZE BYTES`: a block of that size with these row bytes, written
/// over bytes AA.
fn write_block(words: &Words, args: &[&str]) -> Result<String, Fault> {
    let [kind_word, rec_len, next, prev, size_word, bytes] = args else {
        return Err(Fault::Unread);
    };
    let spec = FrameSpec {
        kind: kind(*kind_word)?,
        rec_len: four_bytes(*rec_len)?,
        next: place(*next)?,
        prev: place(*prev)?,
    };
    let size = size(*size_word)?;
    let bytes = words.bytes(*bytes)?;
    if !is_writable(&spec, bytes.len(), size) {
        return Err(Fault::Unread);
    }
    let mut block = vec![in words.alloc(); 0xAAu8; size]?;
    frames::write_frame(&mut block, &spec, &bytes);
    Ok(word(words.alloc(), &block)?)
}

/// `deleted_head SIZE NEXT PREVIOUS`: the first bytes of a deleted block.
fn deleted_head(words: &Words, args: &[&str]) -> Result<String, Fault> {
    let [size, next, prev] = args else {
        return Err(Fault::Unread);
    };
    let size = four_bytes(*size)?;
    let (next, prev) = (place(*next)?, place(*prev)?);
    if size < LEAST_SIZE as u32 || size >= GIANT || !is_pointer(next) || !is_pointer(prev) {
        return Err(Fault::Unread);
    }
    Ok(word(words.alloc(), &frames::deleted_head(size, next, prev))?)
}

/// `least_size COUNT`: the least size of a block with so many row bytes.
fn least_size(words: &Words, args: &[&str]) -> Result<String, Fault> {
    let [len] = args else {
        return Err(Fault::Unread);
    };
    let len = four_bytes(*len)?;
    if len >= GIANT {
        return Err(Fault::Unread);
    }
    let size = frames::least_size(len);
    Ok(format!(in words.alloc(); "{size}")?)
}

/// `start_room ROW_LENGTH SIZE`: how many row bytes a start holds.
fn start_room(words: &Words, args: &[&str]) -> Result<String, Fault> {
    let [rec_len, size] = args else {
        return Err(Fault::Unread);
    };
    let (rec_len, size) = (four_bytes(*rec_len)?, four_bytes(*size)?);
    if size < LEAST_SIZE as u32 {
        return Err(Fault::Unread);
    }
    let room = frames::start_room(rec_len, size);
    Ok(format!(in words.alloc(); "{room}")?)
}

/// `middle_room SIZE`: how many row bytes a middle holds.
fn middle_room(words: &Words, args: &[&str]) -> Result<String, Fault> {
    let [size] = args else {
        return Err(Fault::Unread);
    };
    let size = four_bytes(*size)?;
    if size < LEAST_SIZE as u32 {
        return Err(Fault::Unread);
    }
    let room = frames::middle_room(size);
    Ok(format!(in words.alloc(); "{room}")?)
}

/// The answer to a call of this module, and None where the name is no such call.
pub fn answer(words: &Words, name: &str, args: &[&str]) -> Option<Result<String, Fault>> {
    match name {
        "head" => Some(head(words, args)),
        "block" => Some(block(words, args)),
        "write_block" => Some(write_block(words, args)),
        "deleted_head" => Some(deleted_head(words, args)),
        "least_size" => Some(least_size(words, args)),
        "start_room" => Some(start_room(words, args)),
        "middle_room" => Some(middle_room(words, args)),
        _ => None,
    }
}
