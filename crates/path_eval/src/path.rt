ghost use Rattle.std.specs.Prelude.{◌≡◌, map, IfOk};
ghost use Rattle.path_eval.specs.Route.{route_of};

use shx_term::{Id, Memory};
use std::alloc::Global;

/// A property path (SHACL, section 2.3.1). Two of them are equal if they say the same, wherever they stand in
/// memory (`equal_paths_have_one_route`).
#[derive(Debug)]
pub enum Path {
    /// The predicate of a triple.
    Pred(Id),
    Seq(Vec<Path>),
    Alt(Vec<Path>),
    Inverse(Box<Path>),
    ZeroOrMore(Box<Path>),
    OneOrMore(Box<Path>),
    ZeroOrOne(Box<Path>),
}

impl Drop for Path {
    fn drop(self) {
        match self {
            Path::Pred(_p) => {}
            Path::Seq(_parts) => {}
            Path::Alt(_members) => {}
            Path::Inverse(_inner) => {}
            Path::ZeroOrMore(_inner) => {}
            Path::OneOrMore(_inner) => {}
            Path::ZeroOrOne(_inner) => {}
        }
    }
}

impl Path {
    /// An equal path. It recurses as deep as the path nests.
    #[cycle(copy)]
    pub fn copy(&self, alloc: Global) -> Result<Path, Memory>
        ensures { IfOk result (λ path. route_of path ≡ route_of self.now) }
    {
        match self {
            Path::Pred(p) => Ok(Path::Pred(*p)),
            Path::Seq(parts) => Ok(Path::Seq(copy_all(alloc, parts)?)),
            Path::Alt(members) => Ok(Path::Alt(copy_all(alloc, members)?)),
            Path::Inverse(inner) => Ok(Path::Inverse(Box::new(alloc, inner.copy(alloc)?)?)),
            Path::ZeroOrMore(inner) => Ok(Path::ZeroOrMore(Box::new(alloc, inner.copy(alloc)?)?)),
            Path::OneOrMore(inner) => Ok(Path::OneOrMore(Box::new(alloc, inner.copy(alloc)?)?)),
            Path::ZeroOrOne(inner) => Ok(Path::ZeroOrOne(Box::new(alloc, inner.copy(alloc)?)?)),
        }
    }
}

// Equal paths, in the same order.
#[cycle(copy)]
fn copy_all(alloc: Global, paths: &[Path]) -> Result<Vec<Path>, Memory>
    ensures { IfOk result (λ copies. map route_of copies.items ≡ map route_of paths.now) }
{
    let mut copies = Vec::with_capacity(alloc, paths.len())?;
    for path in paths {
        copies.push(path.copy(alloc)?)?;
    }
    Ok(copies)
}
