ghost use Rattle.std.specs.Prelude.{◌≡◌, ◌≢◌, ℕ, ◌<◌, true, List};
ghost use Rattle.std.specs.Str.{IsUtf8, chars};
ghost use Rattle.ttl_tokens.specs.declared.token.Token.{Token as token};
ghost use Rattle.ttl_tokens.specs.declared.token.TokenKind.TheVariants.{End};
ghost use Rattle.ttl_tokens.specs.Tokens.{IsTokenAt, IsNoTokenAt};
ghost use Rattle.ttl_tokens.specs.Unescaped.{content, may_escape, meaning, token_text, Unescapes};

/// A law: at a place of a text one token stands and no other, and none where no terminal begins; what is not
/// the end of the text has at least a byte.
pub fn one_token_stands()
    ensures one { (text : List ℕ) (at : ℕ) (t u : token) → IsUtf8 text → IsTokenAt text at t
        → IsTokenAt text at u → t ≡ u }
    ensures none { (text : List ℕ) (at fault : ℕ) (t : token) → IsUtf8 text → IsTokenAt text at t
        → IsNoTokenAt text at fault → ⊥ }
    ensures some { (text : List ℕ) (at : ℕ) (t : token) → IsTokenAt text at t → t.kind ≢ End
        → t.start < t.end }
{}

/// A law: of a token that may hold escapes, the part that stands for something stands for what the token
/// means, a character or an escape at a time; and characters and escapes stand for one text.
pub fn escapes_are_undone()
    ensures stands { (text : List ℕ) (at : ℕ) (t : token) → IsUtf8 text → IsTokenAt text at t
        → may_escape t.kind ≡ true
        → Unescapes (content t.kind (chars (token_text text t))) (meaning text t) }
    ensures one { (cs a b : List ℕ) → Unescapes cs a → Unescapes cs b → a ≡ b }
{}
