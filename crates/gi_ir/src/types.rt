//! The types of a module and what they take in memory.

/// A type. Types stand in one table of their module and are named there by their places.
#[derive(Clone, Copy, Debug, PartialEq, Eq)]
pub enum IrType {
    /// An integer of so many bits.
    Int(u16),
    /// A pointer.
    Ptr,
    /// No value.
    Void,
    /// So many elements of the type at a place.
    Array(u64, u32),
    /// The fields of the types from a place on, of which there are so many.
    Struct(u32, u32),
    /// The type at a place, by its name.
    Named(u32),
}

/// What a type takes in memory: its size and its alignment in bytes, and the bits of the widest integer in it, 0
/// without one.
#[derive(Clone, Copy, Debug, PartialEq, Eq)]
pub struct Layout {
    pub size: u32,
    pub align: u32,
    pub widest: u16,
}
