/// What a text is read for.
#[derive(Clone, Copy, Debug, PartialEq, Eq)]
pub enum Role {
    Shapes,
    Data,
    Script,
}
