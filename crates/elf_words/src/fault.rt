//! Why a file is refused.

/// The first cause for which a file is refused (System V ABI, "ELF Header" and "Sections"). Section headers are numbered from 0.
#[derive(Clone, Copy, Debug, PartialEq, Eq)]
pub enum ElfFault {
    /// The file has fewer than 64 bytes, or does not begin as a little-endian ELF file of 64-bit objects.
    Magic,
    /// The machine is not AArch64.
    Machine,
    /// There are section headers, and they are not 64 bytes long.
    Entry,
    /// The table of section headers ends after the file.
    Table,
    /// The bytes of an executable section end after the file.
    Section { k: u32 },
    /// The addresses of an executable section pass the greatest number of 64 bits.
    Address { k: u32 },
    /// The executable sections have more than 2^32 bytes together.
    Total,
}
