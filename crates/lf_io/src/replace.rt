//! Replacement of a file: the text is written to a new file next to it, which then takes its name.

ghost use Rattle.std.specs.Prelude.{IfOk};
ghost use Rattle.std.specs.Io.KnownBytes.{Appends};

use crate::text_source::{TextSource, with_buffer};
use itoa::Buffer;
use std::alloc::Global;
use std::fs::{File, OpenFile, OpenOptions};
use std::io::{ErrorKind, Write};
use std::path::Path;
use std::rt::Files;
use std::{fs, io};

/// The number of names tried for the new file.
const TRIES: u32 = 1_000;

/// The most links followed.
const LINKS: u32 = 40;

/// The path that leads to the file of standard output.
const OUTPUT: &str = "/proc/self/fd/1";

/// Returns the outcome, or `None` if the file does not exist or cannot be examined. `Err` if an
/// allocation failed.
fn found<T: Drop>(outcome: io::Result<T>) -> io::Result<Option<T>> {
    match outcome {
        Ok(it) => Ok(Some(it)),
        Err(error) if error.kind() == ErrorKind::OutOfMemory => Err(error),
        Err(_) => Ok(None),
    }
}

/// Returns whether the path is something other than a regular file: a pipe or a device, which is
/// written to directly.
pub(crate) fn is_special<T: Files>(files: &T, path: &str) -> io::Result<bool> {
    match found(fs::metadata(files, path))? {
        Some(known) => Ok(!known.is_file()),
        None => Ok(false),
    }
}

/// Writes the text directly to the path.
pub(crate) fn write_through<T: Files + AllocGlobal, P: TextSource>(
    rt: &T,
    path: &str,
    text: &P,
) -> io::Result<()> {
    let file = OpenOptions::new().write(true).open(rt, path)?;
    with_buffer(rt.alloc(), file, text)?;
    Ok(())
}

/// Returns the path to which the link leads, given the path named in the link.
fn follow_link(alloc: Global, link: &str, named: &str) -> io::Result<String> {
    match Path::new(link).parent() {
        Some(folder) => Ok(String::from_str(alloc, folder.join(alloc, named)?.as_str())?),
        None => Ok(String::from_str(alloc, named)?),
    }
}

/// Returns the path to which links lead, whether a file exists there or not. `Err` after 40 links,
/// which may form a loop.
fn followed<T: Files + AllocGlobal>(rt: &T, path: &str) -> io::Result<String> {
    let mut at = String::from_str(rt.alloc(), path)?;
    for _ in 0..LINKS {
        match found(fs::read_link(rt, at.as_str()))? {
            Some(named) => at = follow_link(rt.alloc(), &at, named.as_str())?,
            None => return Ok(at),
        }
    }
    Err(io::Error::from(ErrorKind::Other))
}

/// Returns the path of the file itself, to which links may lead.
fn target_of<T: Files + AllocGlobal>(rt: &T, path: &str) -> io::Result<String> {
    match found(fs::canonicalize(rt, path))? {
        Some(target) => Ok(String::from_str(rt.alloc(), target.as_str())?),
        None => followed(rt, path),
    }
}

/// Returns whether standard output is redirected to the file of this path, as far as the system
/// shows.
fn is_output<T: Files + AllocGlobal>(rt: &T, target: &str) -> io::Result<bool> {
    match found(fs::canonicalize(rt, OUTPUT))? {
        Some(output) => Ok(output.as_str() == target),
        None => Ok(false),
    }
}

/// Writes the text to the file, and makes sure that it is stored.
fn store<T: Files + AllocGlobal, P: TextSource>(
    rt: &T,
    file: T::File,
    text: &P,
) -> io::Result<T::File>
    ensures { IfOk result
        (λ new. Appends (⟦<T::File as Write>⟧.contents file) (⟦<T::File as Write>⟧.contents new) (P.text text.now)) }
{
    let mut file = with_buffer(rt.alloc(), file, text)?;
    file.sync_all()?;
    Ok(file)
}

/// Stores the text at the end of the file.
fn store_after<T: Files + AllocGlobal, P: TextSource>(
    rt: &T,
    path: &str,
    text: &P,
) -> io::Result<()> {
    let file = OpenOptions::new().append(true).open(rt, path)?;
    store(rt, file, text)?;
    Ok(())
}

/// Returns the name of a new file next to the target.
fn name_beside(alloc: Global, target: &str, number: u32) -> io::Result<String> {
    let mut name = String::from_str(alloc, target)?;
    name.push_str(".partial")?;
    name.push_str(Buffer::new().format(number))?;
    Ok(name)
}

/// Gives the new file the permissions of the older one, and stores the text in it.
fn fill<T: Files + AllocGlobal, P: TextSource>(
    rt: &T,
    target: &str,
    file: T::File,
    text: &P,
) -> io::Result<T::File>
    ensures { IfOk result
        (λ new. Appends (⟦<T::File as Write>⟧.contents file) (⟦<T::File as Write>⟧.contents new) (P.text text.now)) }
{
    let mut file = file;
    if let Some(older) = found(fs::metadata(rt, target))? {
        file.set_permissions(older.permissions())?;
    }
    store(rt, file, text)
}

/// Fills the new file and renames it once it is closed. If that fails, removes the new file.
fn fill_and_rename<T: Files + AllocGlobal, P: TextSource>(
    rt: &T,
    name: &str,
    target: &str,
    file: T::File,
    text: &P,
) -> io::Result<()> {
    let filled = match fill(rt, target, file, text) {
        Ok(file) => {
            drop(file);
            Ok(())
        }
        Err(error) => Err(error),
    };
    let renamed = match filled {
        Ok(()) => fs::rename(rt, name, target),
        Err(error) => Err(error),
    };
    if renamed.is_err() {
        let _ = fs::remove_file(rt, name);
    }
    renamed
}

/// Makes a new file next to the target, and returns it with its name.
fn new_beside<T: Files + AllocGlobal>(rt: &T, target: &str) -> io::Result<(String, T::File)> {
    for number in 0..TRIES {
        let name = name_beside(rt.alloc(), target, number)?;
        match File::create_new(rt, &name) {
            Ok(file) => return Ok((name, file)),
            Err(error) if error.kind() == ErrorKind::AlreadyExists => {}
            Err(error) => return Err(error),
        }
    }
    Err(io::Error::from(ErrorKind::AlreadyExists))
}

/// Makes a new file next to the target, and removes it.
fn try_beside<T: Files + AllocGlobal>(rt: &T, target: &str) -> io::Result<()> {
    let (name, file) = new_beside(rt, target)?;
    drop(file);
    fs::remove_file(rt, &name)
}

/// Checks whether a text can be written to the path, as far as this can be known in advance. `Err`
/// if the path is a folder, or no file can be made there.
pub(crate) fn try_path<T: Files + AllocGlobal>(rt: &T, path: &str) -> io::Result<()> {
    if let Some(known) = found(fs::metadata(rt, path))? {
        if known.is_dir() {
            return Err(io::Error::from(ErrorKind::IsADirectory));
        }
        if !known.is_file() {
            return Ok(());
        }
    }
    let target = target_of(rt, path)?;
    if is_output(rt, &target)? {
        return Ok(());
    }
    try_beside(rt, &target)
}

/// Writes the text to a new file next to the target, and gives it the target's name. An existing
/// file is replaced at once, and is unchanged if anything fails. If standard output is redirected
/// to that file, the text is appended to it.
pub(crate) fn replace<T: Files + AllocGlobal, P: TextSource>(
    rt: &T,
    path: &str,
    text: &P,
) -> io::Result<()> {
    let target = target_of(rt, path)?;
    if is_output(rt, &target)? {
        return store_after(rt, &target, text);
    }
    let (name, file) = new_beside(rt, &target)?;
    fill_and_rename(rt, &name, &target, file, text)
}
