ghost use Rattle.std.specs.Prelude.{◌≡◌, IfSome};
ghost use Rattle.shx_term.specs.inner.IriTexts.{common_text};

/// A datatype that texts use much. Its IRI stands in the program, and takes no memory.
#[derive(Clone, Copy, Debug)]
pub(crate) enum CommonDatatype {
    String,
    Boolean,
    Integer,
    Decimal,
    Double,
    Float,
    Date,
    DateTime,
    LangString,
}

const COMMON: [CommonDatatype; 9] = [
    CommonDatatype::String,
    CommonDatatype::Boolean,
    CommonDatatype::Integer,
    CommonDatatype::Decimal,
    CommonDatatype::Double,
    CommonDatatype::Float,
    CommonDatatype::Date,
    CommonDatatype::DateTime,
    CommonDatatype::LangString,
];

impl CommonDatatype {
    /// The datatype of this IRI, where it is one of these.
    pub(crate) fn of(iri: &str) -> Option<CommonDatatype>
        ensures { IfSome result (λ datatype. common_text datatype ≡ iri.now) }
    {
        for datatype in &COMMON {
            if datatype.as_str() == iri {
                return Some(*datatype);
            }
        }
        None
    }

    /// The IRI.
    pub(crate) fn as_str(self) -> &'static str
        ensures { result.now ≡ common_text self }
    {
        match self {
            CommonDatatype::String => "http://www.w3.org/2001/XMLSchema#string",
            CommonDatatype::Boolean => "http://www.w3.org/2001/XMLSchema#boolean",
            CommonDatatype::Integer => "http://www.w3.org/2001/XMLSchema#integer",
            CommonDatatype::Decimal => "http://www.w3.org/2001/XMLSchema#decimal",
            CommonDatatype::Double => "http://www.w3.org/2001/XMLSchema#double",
            CommonDatatype::Float => "http://www.w3.org/2001/XMLSchema#float",
            CommonDatatype::Date => "http://www.w3.org/2001/XMLSchema#date",
            CommonDatatype::DateTime => "http://www.w3.org/2001/XMLSchema#dateTime",
            CommonDatatype::LangString => "http://www.w3.org/1999/02/22-rdf-syntax-ns#langString",
        }
    }
}
