ghost use Rattle.std.specs.Prelude.{◌≡◌, ◌≤◌, true, false, length, is_some, IfOk};
ghost use Rattle.shx_outside.specs.declared.role.Role.{Role};
ghost use Rattle.shx_outside.specs.Outside.{admits_all};
ghost use Rattle.shx_outside.specs.FileInputs.{is_opened, files_told};
ghost use Rattle.shx_outside.specs.Opens.{opens_of};

use crate::counted::count_up;
use crate::open_counts::OpenCounts;
use crate::{Failed, Inputs, Role};
use std::io::Read;
use std::marker::Model;
use std::rt::Files;
use std::{fs, io};

/// Files, opened by their paths. It counts each file that was opened, and each call that fails.
#[derive(Drop)]
pub struct FileInputs<'a, R: Files> {
    files: &'a R,
    shapes: Option<R::File>,
    data: Option<R::File>,
    script: Option<R::File>,
    opens: OpenCounts,
    pub(crate) errors: u64,
}

impl<'a, R: Files> Model for FileInputs<'a, R> {
    ghost use Rattle.std.specs.Prelude.{is_some};
    ghost use Rattle.shx_outside.specs.Outside.{admits_all};
    ghost use Rattle.shx_outside.specs.FileInputs.{FileState};

    ghost Value = { FileState };

    ghost view = { λ a. record {
      shapes_opened = is_some a.shapes;
      data_opened = is_some a.«data»;
      script_opened = is_some a.script;
      opens = a.opens;
      errors = a.errors;
    } };
}

impl<'a, R: Files> FileInputs<'a, R> {
    pub fn new(files: &'a R) -> FileInputs<'a, R>
        ensures errors { result.errors ≡ 0 }
        ensures closed { (role : Role) → is_opened result role ≡ false }
        ensures opens { (role : Role) → opens_of result.opens role ≡ 0 }
    {
        FileInputs {
            files,
            shapes: None,
            data: None,
            script: None,
            opens: OpenCounts::new(),
            errors: 0,
        }
    }
}

impl<'a, R: Files> Inputs for FileInputs<'a, R> {
    ghost admits = { admits_all };

    ghost state = { files_told };

    fn open(&mut self, role: Role, name: &str) -> Result<(), Failed> {
        let file = fs::open(self.files, name).ok();
        let is_found = file.is_some();
        match role {
            Role::Shapes => self.shapes = file,
            Role::Data => self.data = file,
            Role::Script => self.script = file,
        }
        if !is_found {
            count_up(&mut self.errors);
            return Err(Failed);
        }
        self.opens.count(role);
        Ok(())
    }

    fn read(&mut self, role: Role, room: &mut [u8]) -> Result<usize, Failed> {
        let read = match role {
            Role::Shapes => read_from(&mut self.shapes, room),
            Role::Data => read_from(&mut self.data, room),
            Role::Script => read_from(&mut self.script, room),
        };
        match read {
            Ok(count) => Ok(count),
            Err(_) => {
                count_up(&mut self.errors);
                Err(Failed)
            }
        }
    }
}

fn read_from<F: Read>(file: &mut Option<F>, room: &mut [u8]) -> io::Result<usize>
    requires { is_some file.old ≡ true }
    ensures count { IfOk result (λ n. n ≤ length room.new) }
    ensures opened { is_some file.new ≡ true }
{
    let Some(file) = file else { unreachable!() };
    file.read(room)
}
