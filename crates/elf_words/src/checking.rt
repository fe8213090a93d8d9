//! Why a file is refused.
ghost use Rattle.std.specs.Prelude.{◌≡◌, ◌≤◌, ◌<◌, ◌+◌, ◌*◌, ◌^◌, length, option_map};
ghost use Rattle.spec_elf.specs.Headers as headers;
ghost use Rattle.spec_elf.specs.Refusal as spec;
ghost use Rattle.elf_words.specs.Views.{header_view, refusal_of};
ghost use Rattle.elf_words.specs.Left.{Adds, refused_behind, headers_left};

use crate::ElfFault;
use crate::header::{Header, header_at, is_chosen};
use crate::numbers::{half_at, xword_at};

/// Whether a file begins with an ELF header of 64 bytes.
fn has_header(file: &[u8]) -> bool
    ensures value { result ≡ spec.has_header file.now }
{
    file.len() >= 64 && file.starts_with(&[0x7f, b'E', b'L', b'F', 2, 1])
}

/// How many bytes the sections have together, with that of a header more, in a file of so many bytes.
fn add_section(bytes: usize, before: u128, header: &Header) -> Result<u128, ElfFault>
    requires { before ≤ 2 ^ 64 * 2 ^ 16 }
    ensures { Adds bytes before (header_view header.now) result }
{
    if !is_chosen(header) {
        return Ok(before);
    }
    let size = u128::from(header.size);
    if u128::from(header.offset) + size > bytes as u128 {
        return Err(ElfFault::Section { k: header.number });
    }
    if u128::from(header.address) + size > u128::from(u64::MAX) {
        return Err(ElfFault::Address { k: header.number });
    }
    Ok(before + size)
}

/// Why a file is refused by its section headers, which are so many in a table at that place.
fn section_refusal(file: &[u8], table: usize, count: u32) -> Option<ElfFault>
    requires table { table ≡ headers.table_place file.now }
    requires count { count ≡ headers.header_count file.now }
    requires few { count < 2 ^ 16 }
    requires within { table + 64 * count ≤ length file.now }
    ensures { option_map refusal_of result ≡ refused_behind (length file.now) 0 (headers.headers file.now) }
{
    let mut total = 0;
    for number in 0..count {
        match add_section(file.len(), total, &header_at(file, table, number)) {
            Ok(more) => total = more,
            Err(fault) => return Some(fault),
        }
    }
    if total > 0x1_0000_0000 {
        Some(ElfFault::Total)
    } else {
        None
    }
}

/// Why a file with a table of section headers is refused by it.
fn table_refusal(file: &[u8], count: u16) -> Option<ElfFault>
    requires long { 64 ≤ length file.now }
    requires count { count ≡ headers.header_count file.now }
    ensures { option_map refusal_of result ≡ spec.first_refusal (spec.table_causes file.now) }
{
    if half_at(file, 58) != 64 {
        return Some(ElfFault::Entry);
    }
    let table = xword_at(file, 40);
    if u128::from(table) + 64 * u128::from(count) > file.len() as u128 {
        return Some(ElfFault::Table);
    }
    section_refusal(file, table as usize, u32::from(count))
}

/// Why a file is refused; `None` exactly where it is not.
pub(crate) fn refusal(file: &[u8]) -> Option<ElfFault>
    ensures { option_map refusal_of result ≡ spec.refusal file.now }
{
    if !has_header(file) {
        return Some(ElfFault::Magic);
    }
    if half_at(file, 18) != 183 {
        return Some(ElfFault::Machine);
    }
    match half_at(file, 60) {
        0 => None,
        count => table_refusal(file, count),
    }
}
