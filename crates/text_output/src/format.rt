/// In which language a report is written, and what is said beside it.
#[derive(Clone, Copy, Debug, PartialEq, Eq)]
pub enum Format {
    /// A line for each result.
    Lines,
    /// A document of Turtle (SHACL, section 3.6), in which what is said beside the report stands in comments.
    Turtle,
}
