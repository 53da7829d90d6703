//! Key values and their order.
//!
//! A key has a `KeySeg` for each segment, and a `KeySeg` that is there has a `WeightList`. A `KeyVal`
//! keeps the key's code in one buffer. Contracts see a key value as the list of its segments and a list
//! of weights as the list of its bytes, so that keys are equal where their segments and weights are.
ghost use Rattle.std.specs.Prelude.{◌≡◌};
ghost use Rattle.myi_keys.specs.Limits.{IsKey, is_complete};
ghost use Rattle.myi_keys.specs.Order.{key_cmp};
ghost use Rattle.myi_keys.specs.Codes.{key_code};
ghost use Rattle.myi_keys.specs.Comparing.{IsCode};

use crate::comparing::{compare_codes, is_complete_code};
use std::cmp::Ordering;
use std::marker::Model;

/// The most segments of a key.
pub const MOST_SEGMENTS: usize = 16;

/// The most weights of a segment.
pub const MOST_WEIGHTS: usize = 1000;

/// The weights of a segment, a byte each.
#[derive(Debug, Drop)]
pub struct WeightList {
    bytes: Vec<u8>,
}

impl Model for WeightList {
    ghost use Rattle.std.specs.Prelude.{ℕ, List};

    ghost Value = { List ℕ };

    ghost view = { λ w. w.bytes.items };
}

impl WeightList {
    /// Takes the weights over. It takes no memory.
    pub fn new(bytes: Vec<u8>) -> Self
        ensures { result ≡ bytes.items }
    {
        WeightList { bytes }
    }

    /// The weights.
    pub fn as_slice(&self) -> &[u8]
        ensures { result.now ≡ self.now }
    {
        &self.bytes
    }

    /// Gives the weights back. It takes no memory.
    pub fn into_vec(self) -> Vec<u8>
        ensures { result.items ≡ self }
    {
        self.bytes
    }
}

/// A segment of a key value.
#[derive(Debug, Drop)]
pub enum KeySeg {
    /// The row has no value here.
    Absent,
    Weights(WeightList),
}

impl PartialEq for KeySeg {
    ghost use Rattle.std.specs.Ordering.{eq_by_cmp};
    ghost use Rattle.std.specs.Cmp.{partial_equiv_from_equiv};
    ghost use Rattle.std.proofs.lemmas.Cmp.{eq_by_cmp_equiv};
    ghost use Rattle.myi_keys.specs.Order.{seg_cmp};
    ghost use Rattle.myi_keys.specs.OrderLaws.{seg_total};

    ghost eq = { eq_by_cmp seg_cmp };

    ghost laws = { partial_equiv_from_equiv (eq_by_cmp_equiv seg_total) };

    fn eq(&self, other: &Self) -> bool {
        self.cmp(other).is_eq()
    }
}

impl Eq for KeySeg {
    ghost use Rattle.std.proofs.lemmas.Cmp.{eq_by_cmp_equiv};
    ghost use Rattle.myi_keys.specs.OrderLaws.{seg_total};

    ghost laws = { eq_by_cmp_equiv seg_total };
}

impl PartialOrd for KeySeg {
    ghost use Rattle.std.specs.Ordering.{as_partial_cmp};
    ghost use Rattle.std.specs.Cmp.{partial_order_from_total};
    ghost use Rattle.myi_keys.specs.Order.{seg_cmp};
    ghost use Rattle.myi_keys.specs.OrderLaws.{seg_total};

    ghost partial_cmp = { as_partial_cmp seg_cmp };

    ghost laws = { partial_order_from_total seg_total };

    fn partial_cmp(&self, other: &Self) -> Option<Ordering> {
        Some(self.cmp(other))
    }
}

impl Ord for KeySeg {
    ghost use Rattle.std.specs.Prelude.{refl};
    ghost use Rattle.myi_keys.specs.Order.{seg_cmp};
    ghost use Rattle.myi_keys.specs.OrderLaws.{seg_total};

    ghost cmp = { seg_cmp };

    ghost total = { seg_total };

    ghost matches_partial_cmp = { λ x y. refl };

    ghost matches_eq = { λ x y. refl };

    /// Absent is before all weights, and weights are compared byte by byte.
    fn cmp(&self, other: &Self) -> Ordering {
        match (self, other) {
            (KeySeg::Absent, KeySeg::Absent) => Ordering::Equal,
            (KeySeg::Absent, KeySeg::Weights(_)) => Ordering::Less,
            (KeySeg::Weights(_), KeySeg::Absent) => Ordering::Greater,
            (KeySeg::Weights(weights), KeySeg::Weights(others)) => {
                weights.as_slice().cmp(&others.as_slice())
            }
        }
    }
}

/// A key value: at most 16 segments, each of at most 1000 weights. It keeps its code, and nothing else.
#[derive(Debug)]
pub struct KeyVal {
    code: Vec<u8>,
}

impl Drop for KeyVal {
    fn drop(self) {
        let KeyVal { code: _ } = self;
    }
}

impl Model for KeyVal {
    ghost use Rattle.std.specs.Prelude.{List};
    ghost use Rattle.myi_keys.specs.declared.values.KeySeg.{KeySeg};
    ghost use Rattle.myi_keys.specs.Comparing.{key_front, IsCode};

    ghost Value = { List KeySeg };

    ghost view = { λ k. key_front k.code.items };

    ghost invariant = { λ k. IsCode k.code.items };
}

impl KeyVal {
    /// The key of a code. It takes no memory.
    pub fn of_code(code: Vec<u8>) -> Self
        requires { IsCode code.items }
        ensures { code.items ≡ key_code result }
    {
        KeyVal { code }
    }

    /// The code of the key.
    pub fn code(&self) -> &[u8]
        ensures value { result.now ≡ key_code self.now }
        ensures key { IsKey self.now }
    {
        &self.code
    }

    /// Gives the code back. It takes no memory.
    pub fn into_code(self) -> Vec<u8>
        ensures value { result.items ≡ key_code self }
        ensures key { IsKey self }
    {
        let KeyVal { code } = self;
        code
    }

    /// Whether each segment is there. Only complete keys can repeat in a unique key.
    pub fn is_complete(&self) -> bool
        ensures { result ≡ is_complete self.now }
    {
        is_complete_code(&self.code)
    }

    /// Which of two keys is first. An absent segment is before all weights, weights are compared byte
    /// by byte, and a list that begins a longer one is before it. It takes no memory.
    pub fn compare(&self, other: &KeyVal) -> Ordering
        ensures { result ≡ key_cmp self.now other.now }
    {
        compare_codes(&self.code, &other.code)
    }
}

impl PartialEq for KeyVal {
    ghost use Rattle.std.specs.Ordering.{eq_by_cmp};
    ghost use Rattle.std.specs.Cmp.{partial_equiv_from_equiv};
    ghost use Rattle.std.proofs.lemmas.Cmp.{eq_by_cmp_equiv};
    ghost use Rattle.myi_keys.specs.Order.{key_cmp};
    ghost use Rattle.myi_keys.specs.OrderLaws.{key_total};

    ghost eq = { eq_by_cmp key_cmp };

    ghost laws = { partial_equiv_from_equiv (eq_by_cmp_equiv key_total) };

    fn eq(&self, other: &Self) -> bool {
        self.compare(other).is_eq()
    }
}

impl Eq for KeyVal {
    ghost use Rattle.std.proofs.lemmas.Cmp.{eq_by_cmp_equiv};
    ghost use Rattle.myi_keys.specs.OrderLaws.{key_total};

    ghost laws = { eq_by_cmp_equiv key_total };
}

impl PartialOrd for KeyVal {
    ghost use Rattle.std.specs.Ordering.{as_partial_cmp};
    ghost use Rattle.std.specs.Cmp.{partial_order_from_total};
    ghost use Rattle.myi_keys.specs.Order.{key_cmp};
    ghost use Rattle.myi_keys.specs.OrderLaws.{key_total};

    ghost partial_cmp = { as_partial_cmp key_cmp };

    ghost laws = { partial_order_from_total key_total };

    fn partial_cmp(&self, other: &Self) -> Option<Ordering> {
        Some(self.compare(other))
    }
}

impl Ord for KeyVal {
    ghost use Rattle.std.specs.Prelude.{refl};
    ghost use Rattle.myi_keys.specs.Order.{key_cmp};
    ghost use Rattle.myi_keys.specs.OrderLaws.{key_total};

    ghost cmp = { key_cmp };

    ghost total = { key_total };

    ghost matches_partial_cmp = { λ x y. refl };

    ghost matches_eq = { λ x y. refl };

    fn cmp(&self, other: &Self) -> Ordering {
        self.compare(other)
    }
}
