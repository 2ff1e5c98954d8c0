//! Declarations, found by their nodes.
ghost use Rattle.std.specs.Prelude.{◌≡◌, ◌<◌, ◌^◌, nat_eq, map, length, position, IfOk, IfSome};
ghost use Rattle.std.specs.List.{IsDistinct};
ghost use Rattle.std.proofs.Props.{props};

use indexmap::IndexSet;
use shape_decl::ShapeDecl;
use shx_term::{Id, Memory, Pool};
use std::alloc::Global;

/// Declarations, with the pool of their terms, and the place of each by its node.
#[derive(Drop)]
pub struct Declared<'a> {
    pub decls: &'a [ShapeDecl],
    pub pool: &'a Pool,
    places: IndexSet<Id>,
    ghost stand: { places.keys ≡ map (λ d. d.node) decls.now },
    ghost few: { length decls.now < 2 ^ 32 },
    ghost distinct: { IsDistinct nat_eq (map (λ d. d.node) decls.now) } by { Prim.hlevel props },
}

impl<'a> Declared<'a> {
    /// These declarations, which are of distinct nodes.
    pub fn of(alloc: Global, decls: &'a [ShapeDecl], pool: &'a Pool) -> Result<Declared<'a>, Memory>
        requires distinct { IsDistinct nat_eq (map (λ d. d.node) decls.now) }
        requires few { length decls.now < 2 ^ 32 }
        ensures decls { IfOk result (λ it. it.decls.now ≡ decls.now) }
        ensures pool { IfOk result (λ it. it.pool.now ≡ pool.now) }
    {
        let places = places_of(alloc, decls)?;
        Ok(Declared {
            decls,
            pool,
            places,
        })
    }

    /// The place of the declaration of a node, if it is declared.
    pub fn place(&self, node: Id) -> Option<u32>
        ensures place { result ≡ position (nat_eq node) (map (λ d. d.node) self.now.decls.now) }
        ensures within { IfSome result (λ at. at < length self.now.decls.now) }
    {
        let at = self.places.get_index_of(&node)?;
        Some(at as u32)
    }
}

// The nodes of declarations, each at its place.
fn places_of(alloc: Global, decls: &[ShapeDecl]) -> Result<IndexSet<Id>, Memory>
    requires { IsDistinct nat_eq (map (λ d. d.node) decls.now) }
    ensures { IfOk result (λ places. places.keys ≡ map (λ d. d.node) decls.now) }
{
    let mut places = IndexSet::new(alloc);
    for decl in decls {
        places.insert(decl.node)?;
    }
    Ok(places)
}
