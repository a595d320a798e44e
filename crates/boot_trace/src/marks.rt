//! The words that stand for something else than a number or a name, or before one.

/// In the place of what is not there.
pub const DASH: &[u8] = b"-";

/// The core, as the maker of a PPI.
pub const CORE_MAKER: &[u8] = b"core";

/// A part without an expression.
pub const ABSENT: &[u8] = b"absent";

/// An expression that is a tree.
pub const TREE: &[u8] = b"expr";

/// A tree behind SOR.
pub const SOR: &[u8] = b"sor";

/// Before the offset at which an expression cannot be read.
pub const MALFORMED_AT: &[u8] = b"malformed@";

/// Before the driver that a BEFORE names.
pub const BEFORE: &[u8] = b"before=";

/// Before the driver that an AFTER names.
pub const AFTER: &[u8] = b"after=";
