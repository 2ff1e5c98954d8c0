ghost use Rattle.std.specs.Prelude.{◌≡◌, ◌++◌, [], map};
ghost use Rattle.path_eval.specs.Route.{route_of};
ghost use Rattle.report_write.specs.PathForms.{between};
ghost use Rattle.report_write.specs.PathTexts.{enclosed, path_text};
ghost use Rattle.report_write.specs.inner.Parts.{joined, path_texts};

use crate::path_form::{PathForm, between, closing, opening};
use path_eval::Path;
use shx_term::{Pieces, Pool};
use text_output::{Format, add_term};

/// Adds a path: an IRI as its spelling, and what is made of paths between the marks of its form. It recurses
/// as deep as the path nests, and takes no memory.
#[cycle(path)]
pub fn add_path<W: Pieces>(path: &Path, format: Format, pool: &Pool, out: &mut W)
    ensures { W.added out.old out.new (path_text format pool.now.terms (route_of path.now)) }
{
    match path {
        Path::Pred(p) => add_term(*p, pool, out),
        Path::Seq(parts) => add_parts(PathForm::Sequence, parts, format, pool, out),
        Path::Alt(members) => add_parts(PathForm::Alternative, members, format, pool, out),
        Path::Inverse(inner) => add_inner(PathForm::Inverse, inner, format, pool, out),
        Path::ZeroOrMore(inner) => add_inner(PathForm::ZeroOrMore, inner, format, pool, out),
        Path::OneOrMore(inner) => add_inner(PathForm::OneOrMore, inner, format, pool, out),
        Path::ZeroOrOne(inner) => add_inner(PathForm::ZeroOrOne, inner, format, pool, out),
    }
}

// A path of one part.
#[cycle(path)]
fn add_inner<W: Pieces>(form: PathForm, inner: &Path, format: Format, pool: &Pool, out: &mut W)
    ensures { W.added out.old out.new
        (enclosed format form (path_text format pool.now.terms (route_of inner.now))) }
{
    out.add(opening(format, form).as_bytes());
    add_path(inner, format, pool, out);
    out.add(closing(format, form).as_bytes());
}

// A path of any number of parts.
#[cycle(path)]
fn add_parts<W: Pieces>(form: PathForm, parts: &[Path], format: Format, pool: &Pool, out: &mut W)
    ensures { W.added out.old out.new
        (enclosed format form (joined (between format form) (path_texts format pool.now.terms parts.now))) }
{
    out.add(opening(format, form).as_bytes());
    let mut before: &[u8] = b"";
    for part in parts {
        out.add(before);
        add_path(part, format, pool, out);
        before = between(format, form).as_bytes();
    }
    out.add(closing(format, form).as_bytes());
}
