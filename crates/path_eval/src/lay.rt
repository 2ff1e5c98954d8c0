//! The edges of a path.
ghost use Rattle.std.specs.Prelude.{◌≡◌, ◌+◌, [], ◌∷◌, ◌++◌, map, IfOk, OnOk};
ghost use Rattle.path_eval.specs.Relation.{pick};
ghost use Rattle.path_eval.specs.Route.{alternative, route_of, sequence};
ghost use Rattle.path_eval.specs.inner.Laid.{edge_by};
ghost use Rattle.path_eval.specs.inner.Laying.{Lays};

use crate::edge::{Edge, Label};
use crate::{Direction, Path};
use shx_term::Memory;
use std::alloc::{AllocError, Global};

/// Edges between places, and how many places there are.
#[derive(Drop)]
pub(crate) struct Edges {
    pub(crate) edges: Vec<Edge>,
    pub(crate) places: u32,
}

impl Edges {
    pub(crate) fn new(alloc: Global, places: u32) -> Edges
        ensures edges { result.edges.items ≡ [] }
        ensures places { result.places ≡ places }
    {
        Edges {
            edges: Vec::new(alloc),
            places,
        }
    }

    /// A new place.
    pub(crate) fn place(&mut self) -> Result<u32, Memory>
        ensures place { IfOk result (λ place. place ≡ self.old.places) }
        ensures places { OnOk result (self.new.places ≡ self.old.places + 1) }
        ensures edges { self.new.edges ≡ self.old.edges }
    {
        let place = self.places;
        match place.checked_add(1) {
            Some(places) => {
                self.places = places;
                Ok(place)
            }
            None => Err(AllocError),
        }
    }

    /// An edge behind the others.
    pub(crate) fn add(&mut self, from: u32, label: Label, to: u32) -> Result<(), Memory>
        ensures edges { OnOk result
            (self.new.edges.items ≡ self.old.edges.items ++ edge_by label from to ∷ []) }
        ensures places { self.new.places ≡ self.old.places }
    {
        self.edges.push(Edge { from, label, to })?;
        Ok(())
    }
}

// The first forward, the second backward.
fn picked(direction: Direction, forward: u32, backward: u32) -> u32
    ensures { result ≡ pick direction forward backward }
{
    match direction {
        Direction::Forward => forward,
        Direction::Backward => backward,
    }
}

/// Lays a path from one place to another.
#[cycle(lay)]
pub(crate) fn lay(
    path: &Path,
    direction: Direction,
    from: u32,
    to: u32,
    edges: &mut Edges,
) -> Result<(), Memory>
    ensures { OnOk result (Lays edges.old direction (route_of path.now) from to edges.new) }
{
    match path {
        Path::Pred(p) => {
            edges.add(from, Label::Step(direction, *p), to)?;
            Ok(())
        }
        Path::Seq(parts) => {
            lay_parts(parts, direction, from, to, edges)?;
            Ok(())
        }
        Path::Alt(members) => {
            lay_members(members, direction, from, to, edges)?;
            Ok(())
        }
        Path::Inverse(inner) => {
            lay(inner, direction.opposite(), from, to, edges)?;
            Ok(())
        }
        Path::ZeroOrMore(inner) => {
            let around = edges.place()?;
            edges.add(from, Label::Free, around)?;
            edges.add(around, Label::Free, to)?;
            lay(inner, direction, around, around, edges)?;
            Ok(())
        }
        Path::OneOrMore(inner) => {
            let before = edges.place()?;
            let behind = edges.place()?;
            edges.add(from, Label::Free, before)?;
            edges.add(behind, Label::Free, before)?;
            edges.add(behind, Label::Free, to)?;
            lay(inner, direction, before, behind, edges)?;
            Ok(())
        }
        Path::ZeroOrOne(inner) => {
            edges.add(from, Label::Free, to)?;
            lay(inner, direction, from, to, edges)?;
            Ok(())
        }
    }
}

// A sequence: one part after the other, forward from the first place on, backward from the last.
#[cycle(lay)]
fn lay_parts(
    parts: &[Path],
    direction: Direction,
    from: u32,
    to: u32,
    edges: &mut Edges,
) -> Result<(), Memory>
    ensures { OnOk result
        (Lays edges.old direction (sequence (map route_of parts.now)) from to edges.new) }
{
    let mut start = from;
    let mut end = to;
    for part in parts {
        let mid = edges.place()?;
        let first = picked(direction, start, mid);
        let last = picked(direction, mid, end);
        lay(part, direction, first, last, edges)?;
        start = picked(direction, mid, start);
        end = picked(direction, end, mid);
    }
    edges.add(start, Label::Free, end)?;
    Ok(())
}

// An alternative: each member between the same places.
#[cycle(lay)]
fn lay_members(
    members: &[Path],
    direction: Direction,
    from: u32,
    to: u32,
    edges: &mut Edges,
) -> Result<(), Memory>
    ensures { OnOk result
        (Lays edges.old direction (alternative (map route_of members.now)) from to edges.new) }
{
    for member in members {
        lay(member, direction, from, to, edges)?;
    }
    Ok(())
}
