//! The components of SHACL Core by number. Results of a shape stand in the order of these.

/// The number of a component, from 1 to 29.
pub type Kind = u8;

/// SHACL, section 4.1.1.
pub const CLASS: Kind = 1;
/// SHACL, section 4.1.2.
pub const DATATYPE: Kind = 2;
/// SHACL, section 4.1.3.
pub const NODE_KIND: Kind = 3;
/// SHACL, section 4.2.1.
pub const MIN_COUNT: Kind = 4;
/// SHACL, section 4.2.2.
pub const MAX_COUNT: Kind = 5;
/// SHACL, section 4.3.1.
pub const MIN_EXCLUSIVE: Kind = 6;
/// SHACL, section 4.3.2.
pub const MIN_INCLUSIVE: Kind = 7;
/// SHACL, section 4.3.3.
pub const MAX_EXCLUSIVE: Kind = 8;
/// SHACL, section 4.3.4.
pub const MAX_INCLUSIVE: Kind = 9;
/// SHACL, section 4.4.1.
pub const MIN_LENGTH: Kind = 10;
/// SHACL, section 4.4.2.
pub const MAX_LENGTH: Kind = 11;
/// SHACL, section 4.4.3.
pub const PATTERN: Kind = 12;
/// SHACL, section 4.4.4.
pub const LANGUAGE_IN: Kind = 13;
/// SHACL, section 4.4.5.
pub const UNIQUE_LANG: Kind = 14;
/// SHACL, section 4.5.1.
pub const EQUALS: Kind = 15;
/// SHACL, section 4.5.2.
pub const DISJOINT: Kind = 16;
/// SHACL, section 4.5.3.
pub const LESS_THAN: Kind = 17;
/// SHACL, section 4.5.4.
pub const LESS_THAN_OR_EQUALS: Kind = 18;
/// SHACL, section 4.6.1.
pub const NOT: Kind = 19;
/// SHACL, section 4.6.2.
pub const AND: Kind = 20;
/// SHACL, section 4.6.3.
pub const OR: Kind = 21;
/// SHACL, section 4.6.4.
pub const XONE: Kind = 22;
/// SHACL, section 4.7.1.
pub const NODE: Kind = 23;
/// SHACL, section 4.7.2.
pub const PROPERTY: Kind = 24;
/// SHACL, section 4.7.3.
pub const QUALIFIED_MIN_COUNT: Kind = 25;
/// SHACL, section 4.7.3.
pub const QUALIFIED_MAX_COUNT: Kind = 26;
/// SHACL, section 4.8.1.
pub const CLOSED: Kind = 27;
/// SHACL, section 4.8.2.
pub const HAS_VALUE: Kind = 28;
/// SHACL, section 4.8.3.
pub const IN: Kind = 29;
