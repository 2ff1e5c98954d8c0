use std::alloc::AllocError;

/// Why a term has no place here.
#[derive(Clone, Copy, Debug, PartialEq, Eq)]
pub enum TermFaultKind {
    /// The prefix of a prefixed name is not bound.
    UnknownPrefix,
    /// A reference has a character that may not stand in an IRI.
    BadIri,
    /// A literal has a datatype of binary floating point.
    FloatLiteral,
    /// A literal needs more digits than values have here.
    WideValue,
}

/// A term that has no place here: why, and the byte at which it begins.
#[derive(Clone, Copy, Debug, PartialEq, Eq)]
pub struct TermFault {
    pub kind: TermFaultKind,
    pub at: usize,
}

/// Why there is no term.
#[derive(Clone, Copy, Debug)]
pub enum NoTerm {
    Fault(TermFaultKind),
    Memory,
}

/// Why there is no blank node.
#[derive(Clone, Copy, Debug)]
pub enum NoNode {
    /// The text has none that is called so.
    Unknown,
    Memory,
}

impl From<AllocError> for NoTerm {
    ghost use Rattle.std.specs.Prelude.{◌≡◌};
    ghost use Rattle.ttl_meaning.specs.declared.fault.NoTerm.{NoTerm};

    ghost from_gives = { λ _ fault. fault ≡ NoTerm.Memory };

    fn from(_: AllocError) -> Self {
        NoTerm::Memory
    }
}

impl From<TermFaultKind> for NoTerm {
    ghost use Rattle.std.specs.Prelude.{◌≡◌};
    ghost use Rattle.ttl_meaning.specs.declared.fault.NoTerm.{NoTerm};

    ghost from_gives = { λ kind fault. fault ≡ NoTerm.Fault kind };

    fn from(kind: TermFaultKind) -> Self {
        NoTerm::Fault(kind)
    }
}

impl From<AllocError> for NoNode {
    ghost use Rattle.std.specs.Prelude.{◌≡◌};
    ghost use Rattle.ttl_meaning.specs.declared.fault.NoNode.{NoNode};

    ghost from_gives = { λ _ fault. fault ≡ NoNode.Memory };

    fn from(_: AllocError) -> Self {
        NoNode::Memory
    }
}
