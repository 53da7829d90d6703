//! What a search has read so far.
ghost use Rattle.std.specs.Prelude.{◌≡◌, ◌++◌, take, [], Some, None, OnOk};
ghost use Rattle.std.specs.Option.{option_to_list};
ghost use Rattle.myi_search.specs.Passing.{best_of, HasCode, row_with};

use myi_keylist::{Pair, PairList};
use myi_keypage::PageItem;
use myi_keys::{KeyVal, compare_codes};
use std::alloc::{AllocError, Global};

/// The code of the key that was read last, and the pair that was reached last.
pub(crate) struct Reached {
    pub(crate) code: Vec<u8>,
    /// The code of that pair's key.
    pub(crate) best: Vec<u8>,
    /// Its row, and None where no pair was reached.
    pub(crate) row: Option<u64>,
    /// Whether the pairs of a leaf are gathered.
    pub(crate) gathers: bool,
    /// What was gathered of a leaf: its pairs, and the best one so far behind them.
    pub(crate) run: PairList,
}

impl Drop for Reached {
    fn drop(self) {
        let Reached {
            code: _,
            best: _,
            row: _,
            gathers: _,
            run: _,
        } = self;
    }
}

impl Reached {
    /// Nothing yet. It says whether the pairs of a leaf are to be gathered.
    pub(crate) fn new(alloc: Global, gathers: bool) -> Reached
        ensures row { result.row ≡ None }
        ensures gathers { result.gathers ≡ gathers }
        ensures run { result.run ≡ [] }
    {
        Reached {
            code: Vec::new(alloc),
            best: Vec::new(alloc),
            row: None,
            gathers,
            run: PairList::new(alloc),
        }
    }

    /// Before the first key of a page.
    pub(crate) fn begin_page(&mut self)
        ensures code { self.new.code.items ≡ [] }
        ensures best { self.new.best ≡ self.old.best }
        ensures row { self.new.row ≡ self.old.row }
        ensures gathers { self.new.gathers ≡ self.old.gathers }
        ensures run { self.new.run ≡ self.old.run }
    {
        self.code.clear();
    }

    /// Reads the code of an item's key, of which it keeps a front.
    #[inline(always)]
    pub(crate) fn read(&mut self, item: &PageItem) -> Result<(), AllocError>
        ensures code { OnOk result
            (self.new.code.items ≡ take item.now.prefix self.old.code.items ++ item.now.rest.now) }
        ensures best { self.new.best ≡ self.old.best }
        ensures row { self.new.row ≡ self.old.row }
        ensures gathers { self.new.gathers ≡ self.old.gathers }
        ensures run { self.new.run ≡ self.old.run }
    {
        self.code.truncate(item.prefix);
        self.code.extend_from_slice(item.rest)
    }

    /// Reaches the pair of the key that was read last.
    pub(crate) fn reach(&mut self, row: u64) -> Result<(), AllocError>
        ensures code { self.new.code ≡ self.old.code }
        ensures best { OnOk result (self.new.best.items ≡ self.old.code.items) }
        ensures row { OnOk result (self.new.row ≡ Some row) }
        ensures gathers { self.new.gathers ≡ self.old.gathers }
        ensures run { self.new.run ≡ self.old.run }
    {
        self.best.clear();
        self.best.extend_from_slice(&self.code)?;
        self.row = Some(row);
        Ok(())
    }

    /// The row of the pair that was reached last, where it has this key.
    pub(crate) fn row_of(&self, key: &KeyVal) -> Option<u64>
        ensures { result ≡ row_with key.now (best_of self.now) }
    {
        if compare_codes(&self.best, key.code()).is_eq() {
            self.row
        } else {
            None
        }
    }

    /// The pair that was reached last. It takes no memory.
    pub(crate) fn into_pair(self) -> Option<Pair>
        requires { HasCode self }
        ensures { result ≡ best_of self }
    {
        let Reached {
            code: _,
            best,
            row,
            gathers: _,
            run: _,
        } = self;
        match row {
            Some(row) => Some(Pair {
                key: KeyVal::of_code(best),
                row,
            }),
            None => None,
        }
    }

    /// Adds the pair that was reached last to a list.
    pub(crate) fn push_best(&self, pairs: &mut PairList) -> Result<(), AllocError>
        requires { HasCode self.now }
        ensures { OnOk result (pairs.new ≡ pairs.old ++ option_to_list (best_of self.now)) }
    {
        if let Some(row) = self.row {
            pairs.push(&self.best, row)?;
        }
        Ok(())
    }

    /// What was gathered of a leaf.
    pub(crate) fn into_run(self) -> PairList
        ensures { result ≡ self.run }
    {
        let Reached {
            code: _,
            best: _,
            row: _,
            gathers: _,
            run,
        } = self;
        run
    }
}
