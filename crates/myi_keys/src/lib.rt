//! Keys of a MyISAM table: what a row is sorted and found by.
//!
//! A key value has a segment for each part of the key, which is absent or a list of weights. Its model
//! is the list of its segments: keys are compared by their weights, and each key has one code, the
//! bytes that stand for it in an index page. The definitions are in `specs/`: the weights of a
//! segment's content (`Weights`, with the collations of `Collations`), the order (`Order`), the codes
//! (`Codes`), how codes are compared as they stand (`Comparing`) and what is wrong with other bytes
//! (`Faults`).
//!
//! - `weigh` gives the weights of a segment's content.
//! - `KeyVal` is a key value; `KeyVal::compare` is the order.
//! - `key_with` makes a key of segments, `encode` copies a key's code, `decode` tests one.
//! - `compare_codes` compares keys by their codes, `is_complete_code` and `code_prefix` read them, and
//!   `first_segment` takes them apart.
//! - `append_weighed` and `append_absent` write a key's code, segment by segment, with no weights apart.
//! - The rest are laws over the definitions.
//!
//! ```
//! let weights = WeightList::new(weights);
//! let key = key_with(alloc, &[KeySeg::Weights(weights), KeySeg::Absent])?;
//! let code = encode(alloc, &key)?;
//! ```
//!
//! The case `encode` in `crates/cases_formats/src/keys.rt` runs it, for any segments.
#![tactic(auto)]

mod codes;
mod collations;
mod comparing;
mod laws;
mod values;
mod weights;
mod writing;

pub use codes::{KeyFault, decode, encode, key_with};
pub use collations::Collation;
pub use comparing::{code_prefix, compare_codes, first_segment, is_complete_code};
pub use laws::{
    characters_cut, codes_fit, codes_read_back, codes_stand_for_keys, faults_at_first_place,
    integers_in_order, keys_totally_ordered, swedish_table, weights_fit,
};
pub use values::{KeySeg, KeyVal, MOST_SEGMENTS, MOST_WEIGHTS, WeightList};
pub use weights::weigh;
pub use writing::{append_absent, append_weighed};
