/// What a literal stands for. It has no `==`, since two texts that differ have one value, [`Value::Text`]:
/// values are compared by [`ReadLiteral`](crate::ReadLiteral), with their texts.
#[derive(Clone, Copy, Debug)]
pub enum Value {
    /// A number: `whole`, and `fraction` in units of 10^-38. Zero is never negative.
    Num {
        negative: bool,
        whole: u128,
        fraction: u128,
    },
    /// A text of xsd:string, compared by its lexical form.
    Text,
    Bool(bool),
    /// A moment in nanoseconds from 1970-01-01T00:00:00, in UTC where it has a zone.
    Stamp {
        nanos: i128,
        zoned: bool,
    },
    /// A day, by the moment at which it begins.
    Day {
        nanos: i128,
        zoned: bool,
    },
    /// The lexical form is none of the datatype, or outside its range.
    IllTyped,
    /// A literal whose datatype or language tag says nothing that is known here.
    Opaque,
}
