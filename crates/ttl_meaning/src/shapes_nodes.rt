//! The blank nodes that a shapes text may have.
ghost use Rattle.std.specs.Prelude.{IfOk};
ghost use Rattle.std.specs.Bool.{Decides};
ghost use Rattle.ttl_meaning.specs.InForce.{IsCalled};
ghost use Rattle.ttl_meaning.specs.ShapesNodes.{IsLabel, MayBeOfShapes};

use crate::fault::NoNode;
use crate::node_number::node_number;
use crate::terms::{anonymous, labelled};
use shx_term::{Memory, Scope, Term};
use std::alloc::Global;
use ttl_tokens::{TokenKind, next_token};

/// The blank node that is spelled so in a report, where it may be one of a shapes text. It takes time and
/// memory linear in the name.
pub fn shapes_node(alloc: Global, name: &str) -> Result<Term, NoNode>
    ensures { IsCalled MayBeOfShapes name.now result }
{
    if let Some(label) = name.strip_prefix("_:s-") {
        if is_label(alloc, label)? {
            return Ok(labelled(alloc, Scope::Shapes, label)?);
        }
        return Err(NoNode::Unknown);
    }
    let Some(spelled) = name.strip_prefix("_:t-") else {
        return Err(NoNode::Unknown);
    };
    match node_number(spelled) {
        Some(number) => Ok(anonymous(Scope::Shapes, number)),
        None => Err(NoNode::Unknown),
    }
}

// Whether a text is the label of a blank node.
fn is_label(alloc: Global, text: &str) -> Result<bool, Memory>
    ensures { IfOk result (λ is. Decides is (IsLabel text.now)) }
{
    let mut name = String::from_str(alloc, "_:")?;
    name.push_str(text)?;
    match next_token(&name, 0) {
        Ok(token) => Ok(token.kind == TokenKind::BlankLabel && token.end == name.len()),
        Err(_) => Ok(false),
    }
}
