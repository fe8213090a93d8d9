//! Section headers.
ghost use Rattle.std.specs.Prelude.{◌≡◌, ◌≤◌, ◌<◌, ◌+◌, ◌*◌, ◌^◌, length};
ghost use Rattle.spec_elf.specs.Headers as spec;
ghost use Rattle.spec_elf.specs.Sections as sections;
ghost use Rattle.elf_words.specs.Views.{header_view};

use crate::numbers::{word_at, xword_at};

/// What is read of a section header.
#[derive(Clone, Copy)]
pub(crate) struct Header {
    pub number: u32,
    pub kind: u32,
    pub flags: u64,
    pub address: u64,
    pub offset: u64,
    pub size: u64,
}

/// The header of that number in the table at that place.
pub(crate) fn header_at(file: &[u8], table: usize, number: u32) -> Header
    requires few { number < 2 ^ 16 }
    requires within { table + 64 * number + 64 ≤ length file.now }
    ensures { header_view result ≡ spec.header_at file.now number (table + 64 * number) }
{
    let place = table + 64 * (number as usize);
    Header {
        number,
        kind: word_at(file, place + 4),
        flags: xword_at(file, place + 8),
        address: xword_at(file, place + 16),
        offset: xword_at(file, place + 24),
        size: xword_at(file, place + 32),
    }
}

/// Whether the section's bytes stand in the file, and it is executable.
pub(crate) fn is_chosen(header: &Header) -> bool
    ensures { result ≡ sections.is_chosen (header_view header.now) }
{
    header.kind == 1 && (header.flags >> 2) & 1 == 1
}
