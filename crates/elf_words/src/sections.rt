//! The executable sections of a file, one after the other.
ghost use Rattle.std.specs.Prelude.{◌≡◌, ◌≤◌, ◌+◌, length};
ghost use Rattle.spec_elf.specs.Sections as spec;
ghost use Rattle.elf_words.specs.Views.{header_view, section_view};

use crate::Section;
use crate::header::{Header, header_at, is_chosen};
use std::marker::Model;

/// The executable sections of a file in the order of their headers. A clause sees the list of those that are left.
#[derive(Drop)]
pub struct Sections<'a> {
    file: &'a [u8],
    table: usize,
    number: u32,
    count: u32,
}

impl<'a> Model for Sections<'a> {
    ghost use Rattle.std.specs.Prelude.{List, length, ◌≡◌, ◌≤◌, ◌<◌, ◌+◌, ◌*◌, ◌^◌};
    ghost use Rattle.spec_elf.specs.Sections.{Section};
    ghost use Rattle.spec_elf.specs.Headers.{header_count, table_place};
    ghost use Rattle.elf_words.specs.Left.{sections_left, headers_left, AreWithin};

    ghost Value = { List Section };

    ghost view = { λ s. sections_left s.file.now s.number };

    ghost invariant = { λ s. (s.count ≡ header_count s.file.now)
        × (s.number ≤ s.count)
        × (s.count < 2 ^ 16)
        × (s.number < s.count → (s.table ≡ table_place s.file.now) × (s.table + 64 * s.count ≤ length s.file.now))
        × AreWithin s.file.now (headers_left s.file.now s.number) };
}

impl<'a> Sections<'a> {
    ghost use Rattle.std.specs.Prelude.{◌≡◌, ◌≤◌, ◌<◌, ◌+◌, ◌*◌, ◌^◌, [], length};
    ghost use Rattle.spec_elf.specs.Headers.{header_count, table_place, headers};
    ghost use Rattle.spec_elf.specs.Sections as spec;
    ghost use Rattle.elf_words.specs.Left.{AreWithin};

    /// Those of a file without section headers.
    pub(crate) fn none(file: &'a [u8]) -> Sections<'a>
        requires { header_count file.now ≡ 0 }
        ensures { result ≡ spec.sections file.now }
    {
        Sections {
            file,
            table: 0,
            number: 0,
            count: 0,
        }
    }

    /// Those of a file with so many section headers in a table at that place.
    pub(crate) fn new(file: &'a [u8], table: usize, count: u32) -> Sections<'a>
        requires count { count ≡ header_count file.now }
        requires few { count < 2 ^ 16 }
        requires table { table ≡ table_place file.now }
        requires within { table + 64 * count ≤ length file.now }
        requires sections { AreWithin file.now (headers file.now) }
        ensures { result ≡ spec.sections file.now }
    {
        Sections {
            file,
            table,
            number: 0,
            count,
        }
    }
}

/// The section of a header whose bytes stand in the file.
fn section_of<'a>(file: &'a [u8], header: &Header) -> Section<'a>
    requires { header.now.offset + header.now.size ≤ length file.now }
    ensures { section_view result ≡ spec.section_of file.now (header_view header.now) }
{
    let start = header.offset as usize;
    let end = start + header.size as usize;
    Section {
        number: header.number,
        address: header.address,
        bytes: &file[start..end],
    }
}

impl<'a> Iterator for Sections<'a> {
    ghost use Rattle.std.specs.Iterator.{YieldsFirstBy, item_count};
    ghost use Rattle.elf_words.specs.Views.{section_view};

    type Item = Section<'a>;

    ghost next_gives = { YieldsFirstBy section_view (λ s. s) };

    ghost remaining = { item_count (λ s. s) };

    fn next(&mut self) -> Option<Section<'a>> {
        'headers: while self.number < self.count {
            let header = header_at(self.file, self.table, self.number);
            self.number += 1;
            if is_chosen(&header) {
                return Some(section_of(self.file, &header));
            }
        }
        None
    }
}
