//! A file that is not refused.

use crate::ElfFault;
use crate::checking::refusal;
use crate::numbers::{half_at, xword_at};
use crate::sections::Sections;
use std::marker::Model;

/// A little-endian ELF file of 64-bit objects for AArch64, none of whose executable sections stands outside the file. A
/// clause sees its bytes.
#[derive(Drop)]
pub struct Elf<'a> {
    file: &'a [u8],
}

impl<'a> Model for Elf<'a> {
    ghost use Rattle.std.specs.Prelude.{ℕ, List, ◌≡◌, None};
    ghost use Rattle.spec_elf.specs.Refusal.{refusal};

    ghost Value = { List ℕ };

    ghost view = { λ e. e.file.now };

    ghost invariant = { λ e. refusal e.file.now ≡ None };
}

impl<'a> Elf<'a> {
    ghost use Rattle.std.specs.Prelude.{◌≡◌, MatchResult, None, Some};
    ghost use Rattle.spec_elf.specs.Refusal as spec;
    ghost use Rattle.spec_elf.specs.Sections as chosen;
    ghost use Rattle.elf_words.specs.Views.{refusal_of};

    /// The file of these bytes, or the first cause for which it is refused.
    pub fn read(bytes: &'a [u8]) -> Result<Elf<'a>, ElfFault>
        ensures { MatchResult result (λ elf. (elf ≡ bytes.now) × (spec.refusal bytes.now ≡ None)) (λ fault. spec.refusal bytes.now ≡ Some (refusal_of fault)) }
    {
        match refusal(bytes) {
            Some(fault) => Err(fault),
            None => Ok(Elf { file: bytes }),
        }
    }

    /// The executable sections, in the order of their headers. Each lends its bytes from the file.
    pub fn sections(&self) -> Sections<'a>
        ensures { result ≡ chosen.sections self.now }
    {
        let count = half_at(self.file, 60);
        if count == 0 {
            return Sections::none(self.file);
        }
        Sections::new(
            self.file,
            xword_at(self.file, 40) as usize,
            u32::from(count),
        )
    }
}
