mod rows;

ghost use Rattle.ttl_tokens.specs.Unescaped.{IsGiven};

use super::outcomes::is_as_said;
use super::seen::add_number;
use row_tools::{RowFault, all_met};
use std::alloc::{AllocError, Global};
use std::test::Fail;
use ttl_tokens::{Lookahead, Token, TokenKind, next_token, next_token_after, unescape};

/// Adds the tokens of a text, each by its kind and its own text, up to the end or to a place where none
/// begins.
pub(super) fn add_tokens(alloc: Global, text: &str, out: &mut Vec<u8>) -> Result<(), AllocError> {
    let mut at = 0;
    let mut ahead = Lookahead::new();
    for _ in 0..40 {
        match next_token_after(text, at, &mut ahead) {
            Ok(token) => {
                if token.kind == TokenKind::End {
                    break;
                }
                add_token(alloc, text, &token, out)?;
                at = token.end;
            }
            Err(none) => return add_number(alloc, "none at ", none.at as u64, out),
        }
    }
    Ok(())
}

fn add_token(alloc: Global, text: &str, token: &Token, out: &mut Vec<u8>) -> Result<(), AllocError>
    requires { IsGiven text.now token.now }
{
    let piece = &text[token.start..token.end];
    let shown = format!(in alloc; "{:?} {piece}|", token.kind)?;
    out.extend_from_slice(shown.as_str().as_bytes())
}

/// Adds what the first token of a text stands for.
pub(super) fn add_meaning(alloc: Global, text: &str, out: &mut Vec<u8>) -> Result<(), RowFault> {
    let Ok(token) = next_token(text, 0) else {
        return Err(RowFault::Unread);
    };
    let meaning = unescape(alloc, text, &token)?;
    Ok(out.extend_from_slice(meaning.as_str().as_bytes())?)
}

#[test]
fn texts_have_their_tokens(rt: HostRuntime) -> Result<(), Fail> {
    all_met(rt.alloc(), rows::ROWS, is_as_said)
}
