//! Numbers in a file, the byte of least worth first.
ghost use Rattle.std.specs.Prelude.{◌≡◌, ◌≤◌, ◌+◌, length};
ghost use Rattle.spec_elf.specs.Numbers as spec;

/// The number of the two bytes at a place.
pub(crate) fn half_at(file: &[u8], place: usize) -> u16
    requires { place + 2 ≤ length file.now }
    ensures { result ≡ spec.half_at file.now place }
{
    match file[place..].first_chunk::<2>() {
        Some(bytes) => u16::from_le_bytes(*bytes),
        None => unreachable!(),
    }
}

/// The number of the four bytes at a place.
pub(crate) fn word_at(file: &[u8], place: usize) -> u32
    requires { place + 4 ≤ length file.now }
    ensures { result ≡ spec.word_at file.now place }
{
    match file[place..].first_chunk::<4>() {
        Some(bytes) => u32::from_le_bytes(*bytes),
        None => unreachable!(),
    }
}

/// The number of the eight bytes at a place.
pub(crate) fn xword_at(file: &[u8], place: usize) -> u64
    requires { place + 8 ≤ length file.now }
    ensures { result ≡ spec.xword_at file.now place }
{
    match file[place..].first_chunk::<8>() {
        Some(bytes) => u64::from_le_bytes(*bytes),
        None => unreachable!(),
    }
}
