//! Blanks at the end of a text.
ghost use Rattle.std.specs.Prelude.{◌≡◌};
ghost use Rattle.myi_base.specs.Blanks.{without_blanks};

/// The bytes without the blanks at their end.
pub fn without_blanks(bytes: &[u8]) -> &[u8]
    ensures { result.now ≡ without_blanks bytes.now }
{
    let mut end = bytes.len();
    while end > 0 && bytes[end - 1] == b' ' {
        end -= 1;
    }
    &bytes[..end]
}
