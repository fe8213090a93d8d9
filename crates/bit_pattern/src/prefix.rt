//! The digits of a text that are read so far.

ghost use Rattle.std.specs.Prelude.{◌≡◌, ◌<◌, ◌≤◌, ◌^◌, ◌+◌, ◌*◌, bit_and};

/// A pattern that may be empty.
#[derive(Clone, Copy)]
pub(crate) struct Prefix {
    pub width: u8,
    pub mask: u128,
    pub value: u128,
    pub ghost fits: { width ≤ 128 },
    pub ghost mask_fits: { mask < 2 ^ width },
    pub ghost value_in_mask: { bit_and value mask ≡ value },
}

impl Prefix {
    ghost use Rattle.std.specs.Prelude.{◌++◌, ◌∷◌, [], length, option_to_list};
    ghost use Rattle.spec_bits.specs.PatternText.{digit_of};
    ghost use Rattle.bit_pattern.specs.Digits.{digit_at, digits_below};

    pub fn empty() -> Prefix
        ensures { digits_below result.mask result.value result.width ≡ [] }
    {
        Prefix {
            width: 0,
            mask: 0,
            value: 0,
        }
    }

    /// The digits and the one that a byte writes, if it writes one.
    pub fn with(self, byte: u8) -> Prefix
        requires { self.width + length (option_to_list (digit_of byte)) ≤ 128 }
        ensures digits { digits_below result.mask result.value result.width ≡ digits_below self.mask self.value self.width ++ option_to_list (digit_of byte) }
        ensures width { result.width ≡ self.width + length (option_to_list (digit_of byte)) }
    {
        match byte {
            b'0' => self.pushed(1, 0),
            b'1' => self.pushed(1, 1),
            b'x' => self.pushed(0, 0),
            _ => self,
        }
    }

    /// The digits and one more below them, which is `x` where `fixed` is 0.
    fn pushed(self, fixed: u128, one: u128) -> Prefix
        requires room { self.width < 128 }
        requires bit { fixed ≤ 1 }
        requires inside { one ≤ fixed }
        ensures digits { digits_below result.mask result.value result.width ≡ digits_below self.mask self.value self.width ++ digit_at fixed one 0 ∷ [] }
        ensures width { result.width ≡ self.width + 1 }
    {
        Prefix {
            width: self.width + 1,
            mask: doubled(self.mask, fixed),
            value: doubled(self.value, one),
        }
    }
}

fn doubled(number: u128, bit: u128) -> u128
    requires fits { number < 2 ^ 127 }
    requires bit { bit ≤ 1 }
    ensures { result ≡ number * 2 + bit }
{
    number * 2 + bit
}
