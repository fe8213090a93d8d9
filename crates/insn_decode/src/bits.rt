//! Bits of words.

ghost use Rattle.std.specs.Prelude.{◌≡◌, ◌<◌};
ghost use Rattle.spec_bits.specs.Bits.{bit_of};

/// Bit `i` of a word, the lowest being bit 0.
pub(crate) fn bit(w: u32, i: u8) -> u32
    requires { i < 32 }
    ensures { result ≡ bit_of w i }
{
    (w >> i) & 1
}
