//! Equal paths: those that say the same.
ghost use Rattle.std.specs.Prelude.{◌≡◌, ◌↔◌, map, IsTrue};
ghost use Rattle.std.specs.Cmp.Lexicographic.{pointwise};
ghost use Rattle.path_eval.specs.declared.path.Path.{Path};
ghost use Rattle.path_eval.specs.Route.{route_of};
ghost use Rattle.path_eval.specs.inner.SameRoute.{same_route};

use crate::Path;

impl PartialEq for Path {
    ghost use Rattle.std.specs.Cmp;
    ghost use Rattle.path_eval.specs.inner.SameRoute.{same_path};
    ghost use Rattle.path_eval.specs.inner.SameRouteLaws.{same_path_equiv};

    ghost eq = { same_path };

    ghost laws = { Cmp.partial_equiv_from_equiv same_path_equiv };

    fn eq(&self, other: &Self) -> bool {
        is_same(self, other)
    }
}

impl Eq for Path {
    ghost use Rattle.path_eval.specs.inner.SameRouteLaws.{same_path_equiv};

    ghost laws = { same_path_equiv };
}

/// Two paths are equal by `==` exactly where they have one route.
pub fn equal_paths_have_one_route()
    ensures { (p q : Path) → IsTrue (⟦<Path as PartialEq>⟧.eq p q) ↔ (route_of p ≡ route_of q) }
{}

// Whether the paths say the same. It recurses as deep as they nest alike, and takes no memory.
#[cycle(same)]
fn is_same(a: &Path, b: &Path) -> bool
    ensures { result ≡ same_route (route_of a.now) (route_of b.now) }
{
    match (a, b) {
        (Path::Pred(p), Path::Pred(q)) => p == q,
        (Path::Seq(parts), Path::Seq(others)) => are_same(parts, others),
        (Path::Alt(members), Path::Alt(others)) => are_same(members, others),
        (Path::Inverse(inner), Path::Inverse(other)) => is_same(inner, other),
        (Path::ZeroOrMore(inner), Path::ZeroOrMore(other)) => is_same(inner, other),
        (Path::OneOrMore(inner), Path::OneOrMore(other)) => is_same(inner, other),
        (Path::ZeroOrOne(inner), Path::ZeroOrOne(other)) => is_same(inner, other),
        _ => false,
    }
}

// Whether these are equal paths, in the same order.
#[cycle(same)]
fn are_same(a: &[Path], b: &[Path]) -> bool
    ensures { result ≡ pointwise same_route (map route_of a.now) (map route_of b.now) }
{
    if a.len() != b.len() {
        return false;
    }
    for at in 0..a.len() {
        if !is_same(&a[at], &b[at]) {
            return false;
        }
    }
    true
}
