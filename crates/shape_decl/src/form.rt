use shx_term::Id;

/// Which form of a path a node has (SHACL, section 2.3.1), with the nodes inside it.
pub(crate) enum Form {
    Predicate,
    Sequence(Vec<Id>),
    Alternative(Vec<Id>),
    Inverse(Id),
    ZeroOrMore(Id),
    OneOrMore(Id),
    ZeroOrOne(Id),
    /// None of the forms.
    Formless,
}

impl Drop for Form {
    fn drop(self) {
        match self {
            Form::Predicate => {}
            Form::Sequence(_parts) => {}
            Form::Alternative(_members) => {}
            Form::Inverse(_inside) => {}
            Form::ZeroOrMore(_inside) => {}
            Form::OneOrMore(_inside) => {}
            Form::ZeroOrOne(_inside) => {}
            Form::Formless => {}
        }
    }
}
