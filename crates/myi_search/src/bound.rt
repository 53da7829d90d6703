//! Which pairs a search passes by.
ghost use Rattle.std.specs.Prelude.{◌≡◌};
ghost use Rattle.myi_keys.specs.Comparing.{key_front};
ghost use Rattle.myi_keylist.specs.PairOrder.{pair_with};
ghost use Rattle.std.specs.Option.{option_copied};
ghost use Rattle.myi_search.specs.Passing.{passes};
ghost use Rattle.myi_search.specs.Path.{is_below, is_up_to};

use myi_keylist::Pair;
use myi_keys::{KeyVal, compare_codes};

/// Where the pairs end that a search passes by.
#[derive(Clone, Copy)]
pub(crate) enum Bound<'a> {
    /// Before all pairs.
    Start,
    /// Before the pairs whose key has this code.
    Key(&'a [u8]),
    /// Behind the pair of this code and row.
    Behind(&'a [u8], u64),
}

impl<'a> Bound<'a> {
    /// Before the pairs of a key.
    pub(crate) fn before_key(key: &'a KeyVal) -> Bound<'a>
        ensures { passes result ≡ is_below key.now }
    {
        Bound::Key(key.code())
    }

    /// Behind a pair, or before all where none is given.
    pub(crate) fn behind(after: Option<&'a Pair>) -> Bound<'a>
        ensures { passes result ≡ is_up_to (option_copied after.entry) }
    {
        match after {
            Some(pair) => Bound::Behind(pair.key.code(), pair.row),
            None => Bound::Start,
        }
    }

    /// Whether the pair of a code and a row is passed by.
    pub(crate) fn passes(&self, code: &[u8], row: u64) -> bool
        ensures { result ≡ passes self.now (pair_with (key_front code.now) row) }
    {
        match self {
            Bound::Start => false,
            Bound::Key(key) => compare_codes(code, *key).is_lt(),
            Bound::Behind(key, last) => compare_codes(code, *key).then(row.cmp(last)).is_le(),
        }
    }
}
