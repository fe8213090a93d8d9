//! The executable sections of an ELF file of AArch64: 64-bit, little-endian. They are lent from the file's bytes, and no call
//! takes memory.
#![tactic(auto)]

mod checking;
mod elf;
mod fault;
mod header;
mod numbers;
mod section;
mod sections;

pub use elf::Elf;
pub use fault::ElfFault;
pub use section::Section;
pub use sections::Sections;
