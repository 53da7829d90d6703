//! `UniqueKey`: the complete key of a row in a unique key.
use myi_keys::KeyVal;
use std::hash::{Hash, Hasher};

/// The key of a row in the key of a number, counted from 1. It is hashed by its code.
pub struct UniqueKey {
    pub number: usize,
    pub key: KeyVal,
}

impl Drop for UniqueKey {
    fn drop(self) {
        let UniqueKey { number: _, key: _ } = self;
    }
}

impl PartialEq for UniqueKey {
    ghost use Rattle.std.specs.Cmp.{partial_equiv_from_equiv};
    ghost use Rattle.myi_inserter.specs.UniqueKeys.{is_same};
    ghost use Rattle.myi_inserter.specs.KeyLaws.{same_equiv};

    ghost eq = { is_same };

    ghost laws = { partial_equiv_from_equiv same_equiv };

    fn eq(&self, other: &Self) -> bool {
        self.number == other.number && self.key.compare(&other.key).is_eq()
    }
}

impl Eq for UniqueKey {
    ghost use Rattle.myi_inserter.specs.KeyLaws.{same_equiv};

    ghost laws = { same_equiv };
}

impl Hash for UniqueKey {
    ghost use Rattle.myi_inserter.specs.UniqueKeys.{hashed};
    ghost use Rattle.myi_inserter.specs.KeyLaws.{same_hashed};

    ghost hash_input = { hashed };

    ghost respects_eq = { same_hashed };

    fn hash<H: Hasher>(&self, state: &mut H) {
        state.write_usize(self.number);
        self.key.code().hash(state);
    }
}
