//! A section that holds code.

/// An executable section of a file: the number of its header, counted from 0, the address of its first byte, and its bytes,
/// which are lent from the file.
#[derive(Clone, Copy)]
pub struct Section<'a> {
    pub number: u32,
    pub address: u64,
    pub bytes: &'a [u8],
}
