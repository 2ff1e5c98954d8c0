ghost use Rattle.std.specs.Prelude.{◌≡◌, ◌+◌, ◌≤◌, length, position, Some};
ghost use Rattle.shx_outside.specs.OpenTexts.{is_named, bytes_named};
ghost use Rattle.shx_outside.specs.inner.Places.{no_places, place_of, with_place};
ghost use Rattle.shx_outside.specs.inner.Places.{left_at, whole_at, IsWithin};

use crate::{NamedText, Role};

/// A place in one of several texts: the index of the text, and how many of its bytes were read.
#[derive(Clone, Copy, Debug)]
pub(crate) struct Place {
    pub(crate) file: usize,
    pub(crate) offset: usize,
}

/// The place of each role that is opened.
#[derive(Debug, Drop)]
pub(crate) struct Places {
    shapes: Option<Place>,
    data: Option<Place>,
    script: Option<Place>,
}

impl Places {
    pub(crate) fn new() -> Places
        ensures { result ≡ no_places }
    {
        Places {
            shapes: None,
            data: None,
            script: None,
        }
    }

    pub(crate) fn get(&self, role: Role) -> Option<Place>
        ensures { result ≡ place_of self.now role }
    {
        match role {
            Role::Shapes => self.shapes,
            Role::Data => self.data,
            Role::Script => self.script,
        }
    }

    pub(crate) fn set(&mut self, role: Role, place: Option<Place>)
        ensures { self.new ≡ with_place self.old role place }
    {
        match role {
            Role::Shapes => self.shapes = place,
            Role::Data => self.data = place,
            Role::Script => self.script = place,
        }
    }
}

/// Where the first text of this name starts: past the last text, where the empty text stands, if none has it.
pub(crate) fn start_of(files: &[NamedText], name: &str) -> Place
    ensures within { IsWithin files.now (Some result) }
    ensures text { left_at files.now (Some result) ≡ Some (bytes_named files.now name.now) }
    ensures whole { whole_at files.now (Some result) ≡ Some (bytes_named files.now name.now) }
{
    let file = first_named(files, name).unwrap_or(files.len());
    Place { file, offset: 0 }
}

/// What is left of a text from a place on.
pub(crate) fn left_from(files: &[NamedText], place: Place) -> &[u8]
    requires { IsWithin files.now (Some place) }
    ensures left { left_at files.now (Some place) ≡ Some result.now }
    ensures fits { place.offset + length result.now ≤ usize.MAX }
{
    match files.get(place.file) {
        Some(file) => &file.bytes.as_slice()[place.offset..],
        None => &[],
    }
}

/// The index of the first text of this name.
pub(crate) fn first_named(files: &[NamedText], name: &str) -> Option<usize>
    ensures { result ≡ position (is_named name.now) files.now }
{
    files.iter().position(|file| file.name.as_str() == name)
}
