//! Parts of arrays.

/// The `len` elements of an array from number `from` on.
#[derive(Clone, Copy)]
pub struct Span {
    pub from: usize,
    pub len: usize,
}
