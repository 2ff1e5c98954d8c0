use comp_core::ShapeNo;
use shx_outside::PatternMatcher;
use shx_term::Memory;
use std::alloc::Global;

// How many matchers are kept at most: each has what it learned of its pattern.
const MOST: usize = 64;

/// The matchers of some shapes, which are kept from one text to the next.
#[derive(Drop)]
pub(crate) struct Matchers<'p> {
    slots: Vec<Slot<'p>>,
}

/// A shape, and the matcher of its pattern once there is one.
#[derive(Drop)]
struct Slot<'p> {
    shape: ShapeNo,
    matcher: Option<PatternMatcher<'p>>,
}

impl<'p> Matchers<'p> {
    /// None. It takes no memory.
    pub(crate) fn new(alloc: Global) -> Matchers<'p> {
        Matchers {
            slots: Vec::new(alloc),
        }
    }

    /// Where the matcher of a shape stands, or is to be put. Where there are too many, all are given up.
    pub(crate) fn of(&mut self, shape: ShapeNo) -> Result<&mut Option<PatternMatcher<'p>>, Memory> {
        let place = self.slots.iter().position(|slot| slot.shape == shape);
        let place = match place {
            Some(place) => place,
            None => {
                if self.slots.len() >= MOST {
                    self.slots.clear();
                }
                self.slots.push(Slot {
                    shape,
                    matcher: None,
                })?;
                self.slots.len() - 1
            }
        };
        Ok(&mut self.slots[place].matcher)
    }
}
