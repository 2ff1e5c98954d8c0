/// How a pattern is read (SPARQL 1.1, section 17.4.3.14), each as `regex` has it.
#[derive(Clone, Copy, Debug, PartialEq, Eq)]
pub struct Flags {
    /// Letters match in either case.
    pub i: bool,
    /// `^` and `$` match at the ends of lines too.
    pub m: bool,
    /// `.` matches a line feed too.
    pub s: bool,
    /// White space and comments in the pattern are passed over.
    pub x: bool,
}
