//! What a walk of a tree meets.
use myi_keylist::Pair;

/// What a walk of a tree meets, one after the other.
pub enum Event {
    /// The page at this place was gone into.
    Page { at: u64 },
    /// The next pair, which stands on the page at this place.
    Pair { pair: Pair, at: u64 },
    /// No page of the tree stands at this place. The walk ends here.
    Bad { at: u64 },
}
