//! The datatypes whose values are known: one table, looked up by name.
ghost use Rattle.std.specs.Prelude.{◌≡◌};
ghost use Rattle.shx_term.specs.Datatypes.{datatypes, space_among, space_of, xsd};
ghost use Rattle.value_space.specs.inner.Spaces.{space_meant, space_of_name};
ghost use Rattle.value_space.specs.Values.{is_float_datatype};

use shx_term::{IriText, Literal};

/// What the values of a datatype are (XML Schema 1.1 part 2, sections 3.3 and 3.4).
#[derive(Clone, Copy)]
pub enum Space {
    /// Whole numbers from a least to a greatest, where there are such.
    Integers {
        least: Option<i128>,
        greatest: Option<i128>,
    },
    Decimals,
    Booleans,
    Strings,
    Moments,
    Days,
    /// Nothing is known of the value.
    Opaques,
}

/// A datatype by its name in the namespace of XML Schema.
#[derive(Clone, Copy)]
pub struct Datatype<'a> {
    pub name: &'a str,
    pub space: Space,
}

/// The namespace of XML Schema.
const XSD: &str = "http://www.w3.org/2001/XMLSchema#";

const DATATYPES: [Datatype; 18] = [
    Datatype {
        name: "string",
        space: Space::Strings,
    },
    Datatype {
        name: "boolean",
        space: Space::Booleans,
    },
    Datatype {
        name: "decimal",
        space: Space::Decimals,
    },
    Datatype {
        name: "dateTime",
        space: Space::Moments,
    },
    Datatype {
        name: "date",
        space: Space::Days,
    },
    Datatype {
        name: "integer",
        space: Space::Integers {
            least: None,
            greatest: None,
        },
    },
    Datatype {
        name: "nonPositiveInteger",
        space: Space::Integers {
            least: None,
            greatest: Some(0),
        },
    },
    Datatype {
        name: "negativeInteger",
        space: Space::Integers {
            least: None,
            greatest: Some(-1),
        },
    },
    Datatype {
        name: "nonNegativeInteger",
        space: Space::Integers {
            least: Some(0),
            greatest: None,
        },
    },
    Datatype {
        name: "positiveInteger",
        space: Space::Integers {
            least: Some(1),
            greatest: None,
        },
    },
    Datatype {
        name: "long",
        space: Space::Integers {
            least: Some(-9223372036854775808),
            greatest: Some(9223372036854775807),
        },
    },
    Datatype {
        name: "int",
        space: Space::Integers {
            least: Some(-2147483648),
            greatest: Some(2147483647),
        },
    },
    Datatype {
        name: "short",
        space: Space::Integers {
            least: Some(-32768),
            greatest: Some(32767),
        },
    },
    Datatype {
        name: "byte",
        space: Space::Integers {
            least: Some(-128),
            greatest: Some(127),
        },
    },
    Datatype {
        name: "unsignedLong",
        space: Space::Integers {
            least: Some(0),
            greatest: Some(18446744073709551615),
        },
    },
    Datatype {
        name: "unsignedInt",
        space: Space::Integers {
            least: Some(0),
            greatest: Some(4294967295),
        },
    },
    Datatype {
        name: "unsignedShort",
        space: Space::Integers {
            least: Some(0),
            greatest: Some(65535),
        },
    },
    Datatype {
        name: "unsignedByte",
        space: Space::Integers {
            least: Some(0),
            greatest: Some(255),
        },
    },
];

/// The space of a literal: a literal with a language tag has no other value than itself.
pub fn space_of(literal: &Literal) -> Space
    ensures { space_meant result ≡ space_of literal.now }
{
    match &literal.tag {
        Some(_) => Space::Opaques,
        None => space_of_datatype(&literal.datatype),
    }
}

fn space_of_datatype(datatype: &IriText) -> Space
    ensures { space_meant result ≡ space_among datatypes datatype.now }
{
    match datatype.as_str().strip_prefix(XSD) {
        Some(name) => named_space(name),
        None => Space::Opaques,
    }
}

// The space of the datatype of this name in the namespace of XML Schema.
fn named_space(name: &str) -> Space
    ensures { space_meant result ≡ space_among datatypes (xsd name.now) }
{
    space_in(&DATATYPES, name)
}

// The space of the first datatype of this name.
#[tactic(auto, unfolding(crate::specs::inner::Spaces::space_of_name))]
fn space_in(datatypes: &[Datatype], name: &str) -> Space
    ensures { result ≡ space_of_name datatypes.now name.now }
{
    for datatype in datatypes {
        if name == datatype.name {
            return datatype.space;
        }
    }
    Space::Opaques
}

/// Whether the IRI is that of a binary floating-point type.
pub fn is_float_datatype(datatype: &IriText) -> bool
    ensures { result ≡ is_float_datatype datatype.now }
{
    datatype.as_str() == "http://www.w3.org/2001/XMLSchema#double"
        || datatype.as_str() == "http://www.w3.org/2001/XMLSchema#float"
}
