//! An entry of a page, and what two keys share.
ghost use Rattle.std.specs.Prelude.{◌≡◌, ◌≤◌, length};
ghost use Rattle.myi_keypage.specs.Page.{shared};

use myi_base::Sequence;

/// A key in its code, and the row pointer that goes with it.
pub struct Entry {
    pub key: Sequence<u8>,
    pub row: u64,
}

impl Drop for Entry {
    fn drop(self) {
        let Entry { key: _, row: _ } = self;
    }
}

/// How many bytes two keys share at their front.
#[tactic(auto, using(crate::proofs::WriteLaws::shared_end))]
pub(crate) fn shared_length(before: &[u8], key: &[u8]) -> usize
    ensures value { result ≡ shared before.now key.now }
    ensures before { result ≤ length before.now }
    ensures key { result ≤ length key.now }
{
    let mut i = 0;
    while i < before.len() && i < key.len() && before[i] == key[i] {
        i += 1;
    }
    i
}
