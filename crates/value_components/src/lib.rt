//! The components of SHACL Core that judge value nodes by themselves (SHACL, sections 4.1 to 4.4, 4.8.2 and
//! 4.8.3).
//!
//! | file | what it holds |
//! |---|---|
//! | `class.rt` | `Class`: sh:class |
//! | `datatype.rt` | `Datatype`: sh:datatype |
//! | `node_kind.rt` | `NodeKind`: sh:nodeKind |
//! | `min_count.rt`, `max_count.rt` | `MinCount`, `MaxCount` |
//! | `min_exclusive.rt`, `min_inclusive.rt` | `MinExclusive`, `MinInclusive` |
//! | `max_exclusive.rt`, `max_inclusive.rt` | `MaxExclusive`, `MaxInclusive` |
//! | `min_length.rt`, `max_length.rt` | `MinLength`, `MaxLength` |
//! | `pattern.rt`, `matches.rt` | `Pattern`: sh:pattern with sh:flags; the one loop over its value nodes |
//! | `pattern_component.rt` | its check, with a matcher that is made once |
//! | `language_in.rt` | `LanguageIn`: sh:languageIn |
//! | `unique_lang.rt` | `UniqueLang`: sh:uniqueLang |
//! | `has_value.rt`, `in_list.rt` | `HasValue`, `In` |
//! | `condition.rt` | what a component asks of the terms of value nodes, and the one loop over these |
//! | `bounds.rt`, `lengths.rt` | what the bounds share, and the lengths |
//! | `texts.rt` | the text of a term |
//! | `tags.rt` | language tags and ranges |
//!
//! It stands on `comp_core` for what a component is, on `value_space` for the order of values and for
//! counts, on `path_eval` for instances, and on `shx_outside` for patterns. Start with `has_value.rt` and
//! `min_exclusive.rt`; `specs/` has a file for each component, which says its results.
#![tactic(auto)]

mod bounds;
mod class;
mod condition;
mod datatype;
mod has_value;
mod in_list;
mod language_in;
mod lengths;
mod matches;
mod max_count;
mod max_exclusive;
mod max_inclusive;
mod max_length;
mod min_count;
mod min_exclusive;
mod min_inclusive;
mod min_length;
mod node_kind;
mod pattern;
mod pattern_component;
mod tags;
mod texts;
mod unique_lang;

pub use class::Class;
pub use datatype::Datatype;
pub use has_value::HasValue;
pub use in_list::In;
pub use language_in::LanguageIn;
pub use max_count::MaxCount;
pub use max_exclusive::MaxExclusive;
pub use max_inclusive::MaxInclusive;
pub use max_length::MaxLength;
pub use min_count::MinCount;
pub use min_exclusive::MinExclusive;
pub use min_inclusive::MinInclusive;
pub use min_length::MinLength;
pub use node_kind::NodeKind;
pub use pattern::Pattern;
pub use unique_lang::UniqueLang;
