//! Ranges of the bits of a number.

ghost use Rattle.std.specs.Prelude.{◌+◌, ◌≤◌};

/// Bits `start` up to `start + width - 1` of a number of 128 bits.
#[derive(Clone, Copy, PartialEq, Eq, Debug)]
pub struct Range {
    pub start: u8,
    pub width: u8,
    pub ghost some: { 1 ≤ width },
    pub ghost fits: { start + width ≤ 128 },
}

impl Range {
    ghost use Rattle.std.specs.Prelude.{◌≡◌, ◌<◌, ◌↔◌, ◌⊎◌, IsNone, IfSome};

    /// The range of `width` bits from bit `start` up; `None` where it is empty or ends above bit 127.
    pub fn new(start: u32, width: u32) -> Option<Range>
        ensures none { IsNone result ↔ ((width ≡ 0) ⊎ (128 < start + width)) }
        ensures parts { IfSome result (λ r. (r.start ≡ start) × (r.width ≡ width)) }
    {
        if width == 0 || width > 128 || start > 128 - width {
            return None;
        }
        Some(Range {
            start: start as u8,
            width: width as u8,
        })
    }
}
