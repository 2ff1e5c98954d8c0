//! A whole path, laid part behind part from its first place on. A closure ends at its own place.
ghost use Rattle.std.specs.Prelude.{◌≡◌, map, OnOk};
ghost use Rattle.path_eval.specs.declared.direction.Direction.TheVariants.{Forward};
ghost use Rattle.path_eval.specs.Route.{route_of, sequence};
ghost use Rattle.path_eval.specs.inner.Course.{left_closure, led, line_of, nothing_laid, passed, turning};
ghost use Rattle.path_eval.specs.inner.Course.{turning_back};

use crate::edge::Label;
use crate::lay::{Edges, lay};
use crate::{Direction, Path};
use shx_term::Memory;
use std::alloc::Global;

/// The place at which a path begins.
pub(crate) const START: u32 = 0;

/// A path as far as it is laid: its edges, the place at which it ends, and whether a closure turns there.
#[derive(Drop)]
pub(crate) struct Course {
    pub(crate) edges: Edges,
    pub(crate) end: u32,
    turns: bool,
}

impl Course {
    /// Nothing of a path, which ends where it begins. It takes no memory.
    pub(crate) fn new(alloc: Global) -> Course
        ensures { line_of result ≡ nothing_laid }
    {
        Course {
            edges: Edges::new(alloc, START + 1),
            end: START,
            turns: false,
        }
    }

    // Lays a path behind, to a new place.
    fn pass(&mut self, path: &Path) -> Result<(), Memory>
        ensures { OnOk result (line_of self.new ≡ passed Forward (route_of path.now) (line_of self.old)) }
    {
        let end = self.edges.place()?;
        lay(path, Direction::Forward, self.end, end, &mut self.edges)?;
        self.end = end;
        self.turns = false;
        Ok(())
    }

    // Goes on to a new place if a closure turns at this one: two at one place would be taken in any order.
    fn leave_closure(&mut self) -> Result<(), Memory>
        ensures { OnOk result (line_of self.new ≡ left_closure Forward (line_of self.old)) }
    {
        if !self.turns {
            return Ok(());
        }
        let end = self.edges.place()?;
        self.edges.add(self.end, Label::Free, end)?;
        self.end = end;
        self.turns = false;
        Ok(())
    }

    // Lays a closure behind, which ends at the place at which it turns.
    fn turn(&mut self, inner: &Path) -> Result<(), Memory>
        ensures { OnOk result
            (line_of self.new
            ≡ turning Forward (route_of inner.now) (left_closure Forward (line_of self.old))) }
    {
        self.leave_closure()?;
        let around = self.end;
        lay(inner, Direction::Forward, around, around, &mut self.edges)?;
        self.turns = true;
        Ok(())
    }

    // Lays a closure behind that is taken once at least: it ends where its path does, and a free edge leads
    // back from there.
    fn turn_back(&mut self, inner: &Path) -> Result<(), Memory>
        ensures { OnOk result
            (line_of self.new
            ≡ turning_back Forward (route_of inner.now) (left_closure Forward (line_of self.old))) }
    {
        self.leave_closure()?;
        let end = self.edges.place()?;
        self.edges.add(end, Label::Free, self.end)?;
        lay(inner, Direction::Forward, self.end, end, &mut self.edges)?;
        self.end = end;
        self.turns = true;
        Ok(())
    }

    /// Lays a path behind: a sequence part by part, so that a closure ends at its own place.
    #[cycle(lead)]
    pub(crate) fn lead(&mut self, path: &Path) -> Result<(), Memory>
        ensures { OnOk result (line_of self.new ≡ led Forward (route_of path.now) (line_of self.old)) }
    {
        match path {
            Path::Seq(parts) => {
                self.lead_all(parts)?;
                Ok(())
            }
            Path::ZeroOrMore(inner) => {
                self.turn(inner)?;
                Ok(())
            }
            Path::OneOrMore(inner) => {
                self.turn_back(inner)?;
                Ok(())
            }
            _ => {
                self.pass(path)?;
                Ok(())
            }
        }
    }

    // Lays paths behind, one after the other.
    #[cycle(lead)]
    fn lead_all(&mut self, paths: &[Path]) -> Result<(), Memory>
        ensures { OnOk result
            (line_of self.new ≡ led Forward (sequence (map route_of paths.now)) (line_of self.old)) }
    {
        for path in paths {
            self.lead(path)?;
        }
        Ok(())
    }
}
