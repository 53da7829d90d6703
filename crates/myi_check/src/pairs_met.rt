//! The pairs that a walk of a tree meets, which are to be the sorted pairs of its key.
ghost use Rattle.std.specs.Prelude.{◌≡◌, ◌<◌, ◌+◌, ◌-◌, ◌^◌, ◌&&◌, ◌∷◌, Bool, List, [], Some, None};
ghost use Rattle.std.specs.Prelude.{is_none, true, false, length, drop, slice_index_or};
ghost use Rattle.std.specs.Ordering.{is_eq};
ghost use Rattle.std.specs.Option.{option_or};
ghost use Rattle.myi_keylist.specs.declared.pair.Pair.{Pair};
ghost use Rattle.myi_keylist.specs.PairOrder.{pair_cmp};
ghost use Rattle.myi_btree.specs.Events.{Event, pair};
ghost use Rattle.myi_pair.specs.FirstBad.{repeats_last};
ghost use Rattle.myi_check.specs.Walks.{last_key, is_next, bad_with};
ghost use Rattle.myi_check.specs.Asked.{IsAbove};

use myi_btree::Pair;
use myi_keylist::PairList;
use myi_keys::{KeyVal, compare_codes};

/// What a walk met of the sorted pairs of its key.
pub(crate) struct PairsMet {
    /// How many of them, one after the other.
    pub(crate) count: usize,
    /// The last one.
    pub(crate) last: Option<Pair>,
    /// The page of the first bad thing that was met.
    pub(crate) bad: Option<u64>,
}

impl Drop for PairsMet {
    fn drop(self) {
        let PairsMet {
            count: _,
            last: _,
            bad: _,
        } = self;
    }
}

// Whether the pair is the one at that place of the list.
fn is_pair(pairs: &PairList, i: usize, met: &Pair) -> bool
    requires { i < length pairs.now }
    ensures { (other : Pair)
        → result ≡ is_eq (pair_cmp met.now (slice_index_or pairs.now i other)) }
{
    let order = compare_codes(met.key.code(), pairs.code(i));
    order.then(met.row.cmp(&pairs.row(i))).is_eq()
}

impl PairsMet {
    /// Nothing yet.
    pub(crate) fn none() -> PairsMet
        ensures { result ≡ record { count = 0; last = None; bad = None } }
    {
        PairsMet {
            count: 0,
            last: None,
            bad: None,
        }
    }

    // Whether the key is complete and that of the pair before.
    fn has_last_key(&self, key: &KeyVal) -> bool
        ensures { result ≡ repeats_last (last_key self.now) key.now }
    {
        match &self.last {
            None => false,
            Some(last) => last.key.is_complete() && last.key.compare(key).is_eq(),
        }
    }

    // The same of a unique key.
    fn repeats_last(&self, unique: bool, key: &KeyVal) -> bool
        ensures { result ≡ (unique && repeats_last (last_key self.now) key.now) }
    {
        unique && self.has_last_key(key)
    }

    // Whether the pair is the one that comes next.
    fn is_next(&self, unique: bool, pairs: &PairList, met: &Pair) -> bool
        requires { self.now.count < length pairs.now }
        ensures { result ≡ is_next unique (last_key self.now)
            (drop self.now.count pairs.now) met.now }
    {
        is_pair(pairs, self.count, met) && !self.repeats_last(unique, &met.key)
    }

    /// Notes a pair of the page at a place.
    pub(crate) fn note(&mut self, unique: bool, pairs: &PairList, met: Pair, at: u64)
        ensures noted { (left : List Event)
            → bad_with unique pairs.now self.old (pair met at ∷ left)
            ≡ bad_with unique pairs.now self.new left }
        ensures kept { is_none self.old.bad ≡ false → self.new.bad ≡ self.old.bad }
    {
        if self.bad.is_some() {
            return;
        }
        if self.count < pairs.len() && self.is_next(unique, pairs, &met) {
            self.count += 1;
            self.last = Some(met);
        } else {
            self.bad = Some(at);
        }
    }

    /// Whether the pair is above the last one, and does not repeat its complete key in a unique key.
    pub(crate) fn rises_to(&self, unique: bool, met: &Pair) -> bool
        ensures above { result ≡ true → IsAbove self.now.last met.now }
        ensures apart { result ≡ true
            → (unique && repeats_last (last_key self.now) met.now.key) ≡ false }
    {
        self.is_below(met) && !self.repeats_last(unique, &met.key)
    }

    // Whether the last pair, if any, is below this one.
    fn is_below(&self, met: &Pair) -> bool
        ensures { result ≡ true → IsAbove self.now.last met.now }
    {
        match &self.last {
            None => true,
            Some(last) => last.cmp(met).is_lt(),
        }
    }

    /// Notes a pair that may be met next.
    pub(crate) fn note_next(&mut self, met: Pair)
        requires { self.old.count < 2 ^ 64 - 1 }
        ensures { self.new ≡ record self.old { count = self.old.count + 1; last = Some met } }
    {
        self.count += 1;
        self.last = Some(met);
    }

    /// Whether so many pairs were met, and nothing bad.
    pub(crate) fn is_whole(&self, records: u64) -> bool
        ensures none { result ≡ true → is_none self.now.bad ≡ true }
        ensures all { result ≡ true → self.now.count ≡ records }
    {
        self.bad.is_none() && self.count as u64 == records
    }

    /// Notes the page of a bad thing, if it is the first.
    pub(crate) fn note_bad(&mut self, at: u64)
        ensures noted { self.new ≡ record self.old { bad = option_or self.old.bad (Some at) } }
        ensures bad { is_none self.new.bad ≡ false }
    {
        if self.bad.is_none() {
            self.bad = Some(at);
        }
    }

    /// The page of the first bad thing of a walk that is over, 0 where pairs are left.
    pub(crate) fn first_bad(&self, pairs: &PairList) -> Option<u64>
        ensures { (unique : Bool) → result ≡ bad_with unique pairs.now self.now [] }
    {
        if self.bad.is_some() {
            return self.bad;
        }
        if self.count < pairs.len() {
            Some(0)
        } else {
            None
        }
    }
}
