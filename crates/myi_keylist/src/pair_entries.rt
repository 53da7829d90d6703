//! The pairs of a list as the entries of pages.
use crate::pair_list::PairList;
use myi_keypage::EntryList;

impl EntryList for PairList {
    ghost use Rattle.myi_keylist.specs.PairEntries.{entries_of};

    ghost entries = { entries_of };

    fn count(&self) -> usize {
        self.len()
    }

    fn code(&self, i: usize) -> &[u8] {
        PairList::code(self, i)
    }

    fn row(&self, i: usize) -> u64 {
        PairList::row(self, i)
    }
}
