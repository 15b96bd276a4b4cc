//! A journal's file is found, or made, and locked.
use crate::disk::Disk;
use crate::fault::{Fault, Unopened};
use crate::refused::Refused;
use std::alloc::Global;
use std::fs::{File, TryLockError};
use std::io::{self, ErrorKind, Read};
use std::os::unix::fs::FileExt;
use std::path::{Path, PathBuf};
use std::rt::Files;

/// So many names are tried for a file of what is cut off.
const NAMES: u32 = 10_000;

/// Opens the file of this path, or makes an empty one, and locks it. Returns its path too, without symbolic links.
pub(crate) fn find<R: Files<File = File>>(
    rt: &R,
    alloc: Global,
    path: &str,
) -> Result<(Disk, PathBuf), Unopened> {
    let full = match rt.canonicalize(alloc, path) {
        Err(error) if error.kind() == ErrorKind::NotFound => PathBuf::from_str(alloc, path)?,
        told => told?,
    };
    let folder = open_folder(rt, full.as_path())?;
    let file = open_or_make(rt, full.as_path())?;
    match file.try_lock() {
        Ok(()) => Ok((Disk { file, folder }, full)),
        Err(TryLockError::WouldBlock) => Err(Unopened::Busy),
        Err(TryLockError::Error(error)) => Err(error.into()),
    }
}

fn open_folder<R: Files<File = File>>(rt: &R, path: Path<'_>) -> io::Result<File> {
    match path.parent() {
        Some(folder) if !folder.as_str().is_empty() => File::open(rt, folder),
        _ => File::open(rt, "."),
    }
}

/// A pipe or a device is not opened: that alone may do something.
fn open_or_make<R: Files<File = File>>(rt: &R, path: Path<'_>) -> Result<File, Unopened> {
    match path.metadata(rt) {
        Ok(found) if !found.is_file() => Err(Refused::NoJournal.into()),
        Ok(_) => Ok(File::options().read(true).write(true).open(rt, path)?),
        Err(error) if error.kind() == ErrorKind::NotFound => Ok(File::create_new(rt, path)?),
        Err(error) => Err(error.into()),
    }
}

/// Saves bytes in a file beside that didn't exist, on the disk. Returns its path.
pub(crate) fn save<R: Files<File = File>>(
    rt: &R,
    alloc: Global,
    folder: &File,
    path: &str,
    bytes: &[u8],
) -> Result<String, Fault> {
    let (name, file) = make_beside(rt, alloc, path)?;
    file.write_all_at(bytes, 0)?;
    file.sync_all()?;
    folder.sync_all()?;
    Ok(name)
}

fn make_beside<R: Files<File = File>>(
    rt: &R,
    alloc: Global,
    path: &str,
) -> io::Result<(String, File)> {
    for number in 1..NAMES {
        let name = format!(in alloc; "{path}.cut-{number}")?;
        match File::create_new(rt, name.as_str()) {
            Err(error) if error.kind() == ErrorKind::AlreadyExists => {}
            told => return Ok((name, told?)),
        }
    }
    Err(io::Error::from(ErrorKind::AlreadyExists))
}

/// Reads a file to its end.
pub(crate) fn read(alloc: Global, file: &mut File) -> io::Result<Vec<u8>> {
    let mut bytes = Vec::new(alloc);
    file.read_to_end(&mut bytes)?;
    Ok(bytes)
}
