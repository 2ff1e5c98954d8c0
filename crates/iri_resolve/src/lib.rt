//! Resolution of IRI references (RFC 3986, section 5.2).
//!
//! | file | what it holds |
//! |---|---|
//! | `reference.rt` | `Reference`: a reference split into its five parts |
//! | `absolute.rt` | `is_absolute`, and which characters are allowed |
//! | `dot_segments.rt` | a path written without its segments `.` and `..` |
//! | `resolution.rt` | `resolve`: what a reference stands for over a base |
//! | `fault.rt` | `IriFault` |
//!
//! It stands on `shx_term`. Start with `resolution.rt`; `specs/Resolution.antt` says what a reference stands
//! for.
#![tactic(auto)]

mod absolute;
mod dot_segments;
mod fault;
mod reference;
mod resolution;

pub use absolute::is_absolute;
pub use fault::IriFault;
pub use reference::Reference;
pub use resolution::resolve;
