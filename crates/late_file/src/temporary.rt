//! A file beside another, which replaces it when it is whole. What the other one has besides its bytes is kept, as far as
//! that can be: its rights by the new file, and the rest as the old file gets the new bytes, and then its name again.
//!
//! Several may be written under one name at a time. `NAME.part0`, which one alone can make, is their lock: only its owner gives
//! the old file the second name `NAME.part1`, and writes it. Until that is done one of the two names is there, so that who makes
//! `NAME.part0` meanwhile sees the other, and isn't the owner. All others rename a file of their own.

ghost use Rattle.std.specs.Prelude.{◌≡◌, ◌≢◌, None, true, false, IfErr, IsTrue};
ghost use Rattle.std.specs.Fs.{file_type, IsFile};
ghost use Rattle.late_file.specs.Temporary.{lacks_room};
ghost use Rattle.late_file.specs.declared.temporary.Way.TheVariants.{InPlace, PutBack};

use std::alloc::Global;
use std::fs::{Metadata, OpenFile, OpenOptions};
use std::io::ErrorKind;
use std::os::unix::fs::MetadataExt;
use std::rt::Files;
use std::{fs, io};

/// How many names are tried, and how often one alone.
pub const TRIES: u8 = 100;

/// A new file beside the one of a name.
#[derive(Drop)]
pub struct Beside<F: Drop> {
    /// The file.
    pub file: F,
    /// What it is called.
    pub name: String,
    /// Whether no other can give the file of the name a second name, or write it, while this one is there.
    pub is_alone: bool,
}

/// What is done with a file beside another, once all is written.
#[derive(Clone, Copy)]
pub enum Way {
    /// It gets the name, and the file that had it gets its bytes and then the name again.
    PutBack,
    /// It gets the name.
    Rename,
    /// It is removed: the file of the name was written in its place.
    InPlace,
}

/// A file that isn't there yet, and may only be written.
fn open_new<R: Files>(rt: &R, name: &str) -> io::Result<R::File> {
    OpenOptions::new()
        .write(true)
        .create_new(true)
        .open(rt, name)
}

/// Whether an error says that the disk has no room, or that its user may take no more of it.
fn lacks_room(error: &io::Error) -> bool
    ensures { result ≡ lacks_room error.now }
{
    matches!(
        error.kind(),
        ErrorKind::StorageFull | ErrorKind::QuotaExceeded
    )
}

/// Whether a file belongs to the same user and group as another.
fn is_of_same(new: &Metadata, old: &Metadata) -> bool {
    new.uid() == old.uid() && new.gid() == old.gid()
}

/// Gives a new file the rights of the one that it is to replace. False where it can't replace it.
fn take_rights<F: OpenFile>(file: &F, old: &Metadata) -> bool {
    match file.metadata() {
        Ok(new) => is_of_same(&new, old) && file.set_permissions(old.permissions()).is_ok(),
        Err(_) => false,
    }
}

/// The second name of the file of a name, while it gets other bytes.
fn second_name(alloc: Global, name: &str) -> Option<String> {
    format!(in alloc; "{name}.part1").ok()
}

/// Whether the file of a name has no second name by which it gets other bytes.
fn is_free<R: Files>(rt: &R, alloc: Global, name: &str) -> bool {
    let Some(second) = second_name(alloc, name) else {
        return false;
    };
    match fs::symlink_metadata(rt, second.as_str()) {
        Ok(_) => false,
        Err(error) => error.kind() == ErrorKind::NotFound,
    }
}

/// Whether a file has the second name by which that of a name gets other bytes.
fn is_second<R: Files>(rt: &R, alloc: Global, name: &str, about: &Metadata) -> bool {
    let Some(second) = second_name(alloc, name) else {
        return false;
    };
    match fs::symlink_metadata(rt, second.as_str()) {
        Ok(other) => other.dev() == about.dev() && other.ino() == about.ino(),
        Err(_) => false,
    }
}

/// Whether the file of a name has another one, but for the one by which it gets other bytes, which may just have gone.
fn has_other_name<R: Files>(rt: &R, alloc: Global, name: &str, about: &Metadata) -> bool {
    if about.nlink() == 1 || is_second(rt, alloc, name, about) {
        return false;
    }
    match fs::symlink_metadata(rt, name) {
        Ok(now) => now.nlink() != 1,
        Err(_) => true,
    }
}

/// Whether the file of a name can be replaced by another: it is a regular one that has no other name.
fn is_replaceable<R: Files>(rt: &R, alloc: Global, name: &str, about: &Metadata) -> bool
    ensures { IsTrue result → IsFile (file_type about.now) }
{
    about.is_file() && !has_other_name(rt, alloc, name, about)
}

/// Whether a new file can replace that of a name, if there is one, whose rights it gets.
fn fits<R: Files>(rt: &R, alloc: Global, name: &str, file: &R::File, old: &Option<Metadata>) -> bool
    ensures { old.now ≡ None → result ≡ true }
{
    match old {
        Some(old) => is_replaceable(rt, alloc, name, old) && take_rights(file, old),
        None => true,
    }
}

/// What is done with a file beside that of a name, of which this is known.
pub fn way_of<R: Files>(
    rt: &R,
    alloc: Global,
    name: &str,
    file: &R::File,
    old: &Option<Metadata>,
    is_alone: bool,
) -> Way
    ensures new { old.now ≡ None → result ≢ InPlace }
    ensures lock { is_alone ≡ false → result ≢ PutBack }
{
    if !fits(rt, alloc, name, file, old) {
        return Way::InPlace;
    }
    if is_alone {
        return Way::PutBack;
    }
    Way::Rename
}

/// A new file beside the one of a name, which is a regular file or isn't there. None where none can be made. Where that is for
/// want of room, it is an error: written in its place, the old file would lose its bytes, and might get no others.
pub fn make_beside<R: Files>(
    rt: &R,
    alloc: Global,
    name: &str,
) -> io::Result<Option<Beside<R::File>>>
    ensures { IfErr result (λ e. lacks_room e ≡ true) }
{
    for number in 0..TRIES {
        let Ok(other) = format!(in alloc; "{name}.part{number}") else {
            return Ok(None);
        };
        match open_new(rt, other.as_str()) {
            Ok(file) => {
                let is_alone = number == 0 && is_free(rt, alloc, name);
                return Ok(Some(Beside {
                    file,
                    name: other,
                    is_alone,
                }));
            }
            Err(error) if lacks_room(&error) => return Err(error),
            Err(_) => {}
        }
    }
    Ok(None)
}

/// Gives the file with a name its second name, and returns that; none where it can't have it.
fn link_second<R: Files>(rt: &R, alloc: Global, name: &str) -> Option<String> {
    let second = second_name(alloc, name)?;
    fs::symlink_metadata(rt, name).ok()?;
    fs::hard_link(rt, name, second.as_str()).ok()?;
    Some(second)
}

/// Gives the file of a name the bytes of another, on its disk, and then the other's name.
fn put_back<R: Files>(rt: &R, old: &str, name: &str) -> io::Result<()> {
    fs::copy(rt, name, old)?;
    let file = OpenOptions::new().write(true).open(rt, old)?;
    file.sync_data()?;
    fs::rename(rt, old, name)
}

/// Gives a whole file a name. The file that had the name gets its bytes, and then the name again, so that its access list and
/// its other attributes stay. At each moment the file of the name is what it was, or whole. Where the old file can't be
/// written the new one keeps the name.
fn replace<R: Files>(rt: &R, alloc: Global, made: &str, name: &str) -> io::Result<()> {
    let old = link_second(rt, alloc, name);
    let renamed = fs::rename(rt, made, name);
    if let Some(old) = old {
        if renamed.is_err() || put_back(rt, old.as_str(), name).is_err() {
            let _ = fs::remove_file(rt, old.as_str());
        }
    }
    renamed
}

/// Removes the file beside that of a name, which is whole. So where that fails the file is written all the same. A signal may
/// interrupt a removal, which is made again.
fn remove_made<R: Files>(rt: &R, made: &str) {
    for _ in 0..TRIES {
        match fs::remove_file(rt, made) {
            Err(error) if error.kind() == ErrorKind::Interrupted => {}
            _ => return,
        }
    }
}

/// Does with the file beside that of a name what is to be done with it.
pub fn finish<R: Files>(rt: &R, alloc: Global, made: &str, name: &str, way: Way) -> io::Result<()> {
    match way {
        Way::PutBack => replace(rt, alloc, made, name),
        Way::Rename => fs::rename(rt, made, name),
        Way::InPlace => {
            remove_made(rt, made);
            Ok(())
        }
    }
}
