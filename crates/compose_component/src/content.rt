//! The bytes of a component.

/// Bytes that are lent, or the component's own.
#[derive(Debug, Drop)]
pub enum Content<'a> {
    Lent(&'a [u8]),
    Owned(Vec<u8>),
}
