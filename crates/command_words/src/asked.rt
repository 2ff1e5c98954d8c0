use text_output::Format;

/// What the words ask for: the names of the two texts, and of the script where there is one; the base over
/// which references are resolved, an absolute IRI; and how answers are written.
#[derive(Clone, Copy)]
pub struct Asked<'a> {
    pub shapes_file: &'a str,
    pub data_file: &'a str,
    pub script_file: Option<&'a str>,
    pub base: &'a str,
    pub format: Format,
}
