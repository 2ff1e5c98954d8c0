ghost use Rattle.std.specs.Prelude.{◌≡◌, ℕ, true, List};
ghost use Rattle.std.specs.Str.{IsUtf8};
ghost use Rattle.shx_term.specs.declared.term.BlankName.{BlankName};
ghost use Rattle.shx_term.specs.declared.term.Term.{Term as term_type};
ghost use Rattle.shx_term.specs.declared.term.Term.TheVariants.{Blank};
ghost use Rattle.shx_term.specs.ValidTriples.{IsIri, IsNotWide};
ghost use Rattle.ttl_tokens.specs.declared.token.Token.{Token as token};
ghost use Rattle.ttl_tokens.specs.declared.token.TokenKind.TheVariants.{BlankLabel};
ghost use Rattle.ttl_tokens.specs.Form.{Takes};
ghost use Rattle.ttl_meaning.specs.declared.document.Document.{Document as document};
ghost use Rattle.ttl_meaning.specs.InForce.{HasNode};
ghost use Rattle.ttl_read.specs.Depth.{IsNotTooDeep};
ghost use Rattle.ttl_read.specs.Grammar.{Place, StepsTo, is_iri, statement};
ghost use Rattle.ttl_read.specs.ReadTerm.{A, Found, GoesTo, IsFound};

/// A law: a statement none of whose brackets is one too many has a derivation within the limit.
pub fn a_shallow_statement_is_derived()
    ensures { (text : List ℕ) (limit n : ℕ) (x y : Place) → IsUtf8 text → IsNotTooDeep text limit x.at
        → Takes (StepsTo text) (statement text n) x y
        → Takes (StepsTo text) (statement text limit) x y }
{}

/// A law: where a statement has a derivation within the limit, none of its brackets is one too many.
pub fn a_derived_statement_is_shallow()
    ensures { (text : List ℕ) (limit : ℕ) (x y : Place) → IsUtf8 text
        → Takes (StepsTo text) (statement text limit) x y → IsNotTooDeep text limit x.at }
{}

/// A law: at a token of a text one thing is found behind a document, a term with its end or a fault.
pub fn one_term_is_found()
    ensures { (text : List ℕ) (t : token) (d : document) (a b : Found) → IsUtf8 text → IsFound text t d a
        → IsFound text t d b → a ≡ b }
{}

/// A law: a term that begins at a token ends at one byte.
pub fn a_term_goes_to_one_end()
    ensures { (text : List ℕ) (t : token) (a b : ℕ) → IsUtf8 text → GoesTo text t a → GoesTo text t b
        → a ≡ b }
{}

/// A law: a term that is found ends where its tokens do.
pub fn a_found_term_goes_to_its_end()
    ensures { (text : List ℕ) (t : token) (d : document) (term : term_type) (end : ℕ)
        → IsFound text t d (A term end) → GoesTo text t end }
{}

/// A law: at a token of an IRI an IRI is found, at a label a blank node of the document; and no term that is
/// found is a wide literal.
pub fn found_terms_suit_their_tokens()
    ensures iri { (text : List ℕ) (t : token) (d : document) (term : term_type) (end : ℕ)
        → is_iri t.kind ≡ true → IsFound text t d (A term end) → IsIri term }
    ensures node { (text : List ℕ) (t : token) (d : document) (term : term_type) (end : ℕ)
        → t.kind ≡ BlankLabel → IsFound text t d (A term end)
        → (node : BlankName) × HasNode d node × (term ≡ Blank node) }
    ensures narrow { (text : List ℕ) (t : token) (d : document) (term : term_type) (end : ℕ)
        → IsFound text t d (A term end) → IsNotWide term }
{}
