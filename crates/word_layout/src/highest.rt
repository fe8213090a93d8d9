//! The highest bit of a number.

ghost use Rattle.std.specs.Prelude.{◌≡◌};
ghost use Rattle.spec_encoding.specs.Parts.{highest};
ghost use Rattle.word_layout.specs.Masks.{has_bit};

/// The highest bit that a number has.
pub(crate) fn highest_bit(m: u32) -> Option<u8>
    ensures { result ≡ highest (has_bit m) 32 }
{
    if m == 0 {
        return None;
    }
    Some(31 - m.leading_zeros() as u8)
}
