//! The check of the declarations of a shapes graph.
ghost use Rattle.std.specs.Prelude.{◌≡◌, ◌≤◌, List, [], ◌∷◌, flat_map, map, IfOk, IfErr, IfSome, MatchOption};
ghost use Rattle.shx_term.specs.declared.term.Term.{Term};
ghost use Rattle.shape_decl.specs.Declarations.{Declaration, declarations, told_decl};
ghost use Rattle.shape_check.specs.Faults.{Tells, faults, faults_of, first, graph_faults, past_limit};
ghost use Rattle.shape_check.specs.inner.Judging.{faults_by_in, faults_in};

use crate::judged::Judged;
use crate::offenders::first_offender;
use crate::rule::rules;
use crate::shapes::PropertyShapes;
use crate::{CheckFault, Rule, ShapeFault};
use graph_view::GraphView;
use shape_decl::{ShapeDecl, declare_shapes, find_shapes};
use shx_term::fault_codes::TOO_MANY_SHAPES;
use shx_term::{Id, Limits, Pool};
use std::alloc::Global;

/// Declares the shapes of a graph and checks them, as [`collect`](shape_decl::collect) and then [`check`] do.
/// Where there are more shapes than the limit, the first past it is told before any list or path is read.
///
/// # Errors
///
/// The first fault, or `Memory` where an allocation is refused.
pub fn check_shapes<V: GraphView>(
    alloc: Global,
    graph: &V,
    limits: &Limits,
) -> Result<Vec<ShapeDecl>, CheckFault>
    requires { limits.now.path_depth ≤ 64 }
    ensures declared { IfOk result (λ decls.
        map told_decl decls.items ≡ declarations limits.now (V.graph graph.now)) }
    ensures accepted { IfOk result (λ decls. graph_faults limits.now (V.graph graph.now) ≡ []) }
    ensures refused { IfErr result (Tells (graph_faults limits.now (V.graph graph.now))) }
{
    let nodes = find_shapes(alloc, graph)?;
    if let Some(fault) = too_many_nodes(&nodes, limits) {
        return Err(CheckFault::Shape(fault));
    }
    let decls = declare_shapes(alloc, graph, limits, &nodes)?;
    match check(alloc, &decls, graph.pool(), limits) {
        Ok(()) => Ok(decls),
        Err(fault) => Err(fault),
    }
}

/// Accepts the declarations of a shapes graph, or tells the first of their faults: shapes in the order in
/// which they are given, then rules by code, predicates in the order of the vocabulary, and then terms.
///
/// `decls` are what [`collect`](shape_decl::collect) gives, over the graph whose terms `pool` holds. It takes
/// time linear in what they hold, but for looking up the values of `sh:property` and `sh:node`, and memory
/// for the numbers of the shapes and the lists of one shape.
///
/// # Errors
///
/// The first fault, or `Memory` where an allocation is refused.
pub fn check(
    alloc: Global,
    decls: &[ShapeDecl],
    pool: &Pool,
    limits: &Limits,
) -> Result<(), CheckFault>
    ensures accepted { IfOk result (λ done.
        faults limits.now pool.now.terms (map told_decl decls.now) ≡ []) }
    ensures refused { IfErr result (Tells (faults limits.now pool.now.terms (map told_decl decls.now))) }
{
    if let Some(fault) = too_many(decls, limits) {
        return Err(CheckFault::Shape(fault));
    }
    check_each(alloc, decls, pool)
}

// The first shape past the limit is at fault, and no other is then looked at.
fn too_many(decls: &[ShapeDecl], limits: &Limits) -> Option<ShapeFault>
    ensures { (terms : List Term) → MatchOption result
        (faults limits.now terms (map told_decl decls.now)
        ≡ flat_map (faults_of terms (map told_decl decls.now)) (map told_decl decls.now))
        (λ fault. faults limits.now terms (map told_decl decls.now) ≡ fault ∷ []) }
{
    let decl = decls.get(limits.shapes as usize)?;
    Some(one_too_many(decl.node))
}

// The same by the nodes alone, before anything is declared of them.
fn too_many_nodes(nodes: &[Id], limits: &Limits) -> Option<ShapeFault>
    ensures { IfSome result (λ fault. (terms : List Term) (ds : List Declaration)
        → map (λ d. d.node) ds ≡ nodes.now → faults limits.now terms ds ≡ fault ∷ []) }
{
    let node = nodes.get(limits.shapes as usize)?;
    Some(one_too_many(*node))
}

fn one_too_many(node: Id) -> ShapeFault
    ensures { result ≡ past_limit node }
{
    ShapeFault {
        code: TOO_MANY_SHAPES,
        shape: node,
        predicate: None,
        term: None,
    }
}

fn check_each(alloc: Global, decls: &[ShapeDecl], pool: &Pool) -> Result<(), CheckFault>
    ensures accepted { IfOk result (λ done.
        flat_map (faults_of pool.now.terms (map told_decl decls.now)) (map told_decl decls.now) ≡ []) }
    ensures refused { IfErr result (Tells
        (flat_map (faults_of pool.now.terms (map told_decl decls.now)) (map told_decl decls.now))) }
{
    let property_shapes = PropertyShapes::of(alloc, decls)?;
    for decl in decls {
        let judged = Judged {
            pool,
            property_shapes: &property_shapes,
            decl,
        };
        if let Some(fault) = first_fault(&judged) {
            return Err(CheckFault::Shape(fault));
        }
    }
    Ok(())
}

// The first fault of a shape.
fn first_fault(judged: &Judged) -> Option<ShapeFault>
    ensures { result ≡ first (faults_in judged.now) }
{
    for rule in rules() {
        if let Some(fault) = first_fault_by(judged, *rule) {
            return Some(fault);
        }
    }
    None
}

// The first place at which a shape breaks a rule.
fn first_fault_by(judged: &Judged, rule: Rule) -> Option<ShapeFault>
    ensures { result ≡ first (faults_by_in judged.now rule) }
{
    for declared in &judged.decl.values {
        if let Some(term) = first_offender(judged, rule, declared) {
            return Some(ShapeFault {
                code: rule.code(),
                shape: judged.decl.node,
                predicate: Some(declared.predicate),
                term: Some(term),
            });
        }
    }
    None
}
