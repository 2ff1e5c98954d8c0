ghost use Rattle.std.specs.Prelude.{◌≡◌};
ghost use Rattle.ttl_read.specs.Documents.{code_of_term};

use shx_term::fault_codes::{BAD_IRI, FLOAT_LITERAL, UNKNOWN_PREFIX, WIDE_VALUE};
use std::alloc::AllocError;
use ttl_meaning::TermFaultKind;

/// Why a text is no document, or a token no term.
#[derive(Clone, Copy, Debug, PartialEq, Eq)]
pub enum TtlFault {
    /// The code of the fault, and the byte at which it stands:
    ///
    /// | code | the fault, and its byte |
    /// |---|---|
    /// | 1 | `NotUtf8`, where the first sequence that is ill formed begins |
    /// | 2 | `Syntax`, at the start of a statement without derivation |
    /// | 3 | `UnknownPrefix`, at the prefixed name |
    /// | 4 | `BadIri`, at the reference |
    /// | 5, 6 | `FloatLiteral` and `WideValue`, where the literal begins |
    /// | 7 | `TooDeep`, at the bracket that opens one too many |
    /// | 8, 9 | `TooManyTriples` and `TooManyTerms`, at the start of the statement |
    /// | 57 | `UnknownBlank`, at the label; of a term alone |
    At { code: u32, at: u64 },
    Memory,
}

impl From<AllocError> for TtlFault {
    ghost use Rattle.std.specs.Prelude.{◌≡◌};
    ghost use Rattle.ttl_read.specs.declared.fault.TtlFault.{TtlFault};

    ghost from_gives = { λ _ fault. fault ≡ TtlFault.Memory };

    fn from(_: AllocError) -> Self {
        TtlFault::Memory
    }
}

// The code of the fault of a term.
pub(crate) fn code_of(kind: TermFaultKind) -> u32
    ensures { result ≡ code_of_term kind }
{
    match kind {
        TermFaultKind::UnknownPrefix => UNKNOWN_PREFIX,
        TermFaultKind::BadIri => BAD_IRI,
        TermFaultKind::FloatLiteral => FLOAT_LITERAL,
        TermFaultKind::WideValue => WIDE_VALUE,
    }
}
