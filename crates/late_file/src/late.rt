//! A file that is made by its first write.

ghost use Rattle.std.specs.Prelude.{◌≡◌, OnOk, None};
ghost use Rattle.late_file.specs.Late.{lacks_call};
ghost use Rattle.late_file.specs.declared.temporary.Way.TheVariants.{PutBack};

use crate::temporary::{Beside, TRIES, Way, finish, make_beside, way_of};
use std::alloc::Global;
use std::fs::{Metadata, OpenFile, OpenOptions};
use std::io::{ErrorKind, Write};
use std::rt::Files;
use std::{fs, io};

/// Whether an error says that a file has no such call.
fn lacks_call(error: &io::Error) -> bool
    ensures { result ≡ lacks_call error.now }
{
    matches!(
        error.kind(),
        ErrorKind::InvalidInput | ErrorKind::Unsupported
    )
}

/// What is known of the file of a name now, or was seen before, where the system doesn't tell; none where there is no such file.
fn look_again<R: Files>(rt: &R, name: &str, seen: Option<Metadata>) -> Option<Metadata> {
    match fs::symlink_metadata(rt, name) {
        Ok(now) => Some(now),
        Err(error) if error.kind() == ErrorKind::NotFound => None,
        Err(_) => seen,
    }
}

/// A file that is made by its first write, so that nothing is touched before. It is written beside the file of its name,
/// where a file can be made there, and is given the name by `flush`. A file that isn't flushed is gone with its value. Where
/// nothing can be known of the file of its name, or there is no room for another, the write fails and touches nothing. Of
/// several that are written under one name at a time, the last one to be flushed has it.
pub struct LateFile<'a, R: Files> {
    rt: &'a R,
    alloc: Global,
    name: &'a str,
    file: Option<R::File>,
    // What the file beside it is called until it is flushed, if there is one.
    beside: Option<String>,
    // What is done with that file then.
    way: Way,
}

impl<'a, R: Files> LateFile<'a, R> {
    /// A file of this name that isn't made yet.
    pub fn new(rt: &'a R, alloc: Global, name: &'a str) -> Self
        ensures name { result.name.now ≡ name.now }
        ensures unmade { result.file ≡ None }
        ensures unnamed { result.beside ≡ None }
        ensures way { result.way ≡ PutBack }
    {
        LateFile {
            rt,
            alloc,
            name,
            file: None,
            beside: None,
            way: Way::PutBack,
        }
    }

    /// Makes the file beside the one of its name, where that can be replaced, and else in its place.
    fn make(&mut self) -> io::Result<R::File> {
        // A write that a signal interrupted is made again.
        self.remove_beside()?;
        match fs::symlink_metadata(self.rt, self.name) {
            Ok(about) if about.is_file() => {
                OpenOptions::new().write(true).open(self.rt, self.name)?;
                self.make_for(Some(about))
            }
            Err(error) if error.kind() == ErrorKind::NotFound => self.make_for(None),
            Err(error) if !lacks_call(&error) => Err(error),
            _ => fs::create(self.rt, self.name),
        }
    }

    /// Makes the file beside the one of its name, of which this was seen, or where none can be beside it, in its place.
    fn make_for(&mut self, seen: Option<Metadata>) -> io::Result<R::File> {
        let Some(made) = make_beside(self.rt, self.alloc, self.name)? else {
            return fs::create(self.rt, self.name);
        };
        let Beside {
            file,
            name: other,
            is_alone,
        } = made;
        self.beside = Some(other);
        let old = look_again(self.rt, self.name, seen);
        self.way = way_of(self.rt, self.alloc, self.name, &file, &old, is_alone);
        match self.way {
            Way::InPlace => self.make_in_place(),
            Way::PutBack | Way::Rename => Ok(file),
        }
    }

    /// Makes the file in its place. The file beside it is made again, as the only one, and is there until all is written. So it is
    /// known before that it can be removed. `ResourceBusy` where others have files there.
    fn make_in_place(&mut self) -> io::Result<R::File> {
        for _ in 0..TRIES {
            self.remove_beside()?;
            let Some(made) = make_beside(self.rt, self.alloc, self.name)? else {
                return fs::create(self.rt, self.name);
            };
            self.beside = Some(made.name);
            if made.is_alone {
                return fs::create(self.rt, self.name);
            }
        }
        Err(io::Error::from(ErrorKind::ResourceBusy))
    }

    /// Removes the file beside the one of its name, if it is made.
    fn remove_beside(&mut self) -> io::Result<()> {
        match &self.beside {
            Some(other) => fs::remove_file(self.rt, other.as_str())?,
            None => return Ok(()),
        }
        self.beside = None;
        Ok(())
    }

    /// Has the file's bytes reach its disk, so that what a file system may tell as late as at the close is told now. A pipe
    /// or a device has no such call.
    fn settle(&self) -> io::Result<()> {
        let Some(file) = &self.file else {
            return Ok(());
        };
        match file.sync_data() {
            Err(error) if !lacks_call(&error) => Err(error),
            _ => Ok(()),
        }
    }

    /// Gives the file its name, if it has another.
    fn take_name(&mut self) -> io::Result<()>
        ensures file { self.new.file ≡ self.old.file }
        ensures named { OnOk result (self.new.beside ≡ None) }
    {
        match &self.beside {
            Some(other) => finish(self.rt, self.alloc, other.as_str(), self.name, self.way)?,
            None => return Ok(()),
        }
        self.beside = None;
        Ok(())
    }
}

impl<R: Files> Write for LateFile<'_, R> {
    ghost use Rattle.std.specs.Option.{option_and_then};

    // What the file holds, once it is made.
    ghost contents = { λ late. option_and_then R.File.contents late.file };

    fn write(&mut self, buf: &[u8]) -> io::Result<usize> {
        let mut file = match self.file.take() {
            Some(file) => file,
            None => self.make()?,
        };
        let written = file.write(buf);
        self.file = Some(file);
        written
    }

    fn flush(&mut self) -> io::Result<()> {
        match &mut self.file {
            Some(file) => file.flush()?,
            None => return Ok(()),
        }
        self.settle()?;
        self.take_name()
    }
}

impl<R: Files> Drop for LateFile<'_, R> {
    fn drop(self) {
        let LateFile {
            rt,
            alloc: _,
            name: _,
            file: _,
            beside,
            way: _,
        } = self;
        if let Some(other) = beside {
            let _ = fs::remove_file(rt, other.as_str());
        }
    }
}
