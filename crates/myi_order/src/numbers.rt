//! The numbers of all keys, one after the other.
ghost use Rattle.std.specs.Prelude.{◌≡◌, IfOk};
ghost use Rattle.myi_order.specs.Numbers.{all_per};

use crate::key_parts::KeyParts;
use std::alloc::{AllocError, Global};

/// The numbers of the parts of these keys, key after key.
pub(crate) fn all_numbers(alloc: Global, parts: &[KeyParts]) -> Result<Vec<u64>, AllocError>
    ensures { IfOk result (λ numbers. numbers.items ≡ all_per parts.now) }
{
    let mut numbers = Vec::new(alloc);
    for part in parts {
        numbers.extend_from_slice(part.per.as_slice())?;
    }
    Ok(numbers)
}
