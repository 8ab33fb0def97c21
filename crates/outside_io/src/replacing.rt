//! A real file whose contents are replaced, whole or not at all.
use std::fs::{Metadata, OpenFile, OpenOptions, Permissions};
use std::io::{ErrorKind, Write};
use std::os::unix::fs::{MetadataExt, chown};
use std::path::{Path, PathBuf};
use std::{fs, io, rt};

// How many names are tried for the file beside.
const NAMES: u32 = 1000;

// Puts the bytes in the place of the contents under a path. Where that is a plain file or nothing,
// a failure leaves what was there. A link, a device or a pipe is written to: renaming over
// `/dev/stdout` would take the file away that other programs write to.
pub fn put_file<R: rt::Files + AllocGlobal>(rt: &R, path: &str, bytes: &[u8]) -> io::Result<()> {
    match fs::symlink_metadata(rt, path) {
        Ok(metadata) if metadata.is_file() => {
            // One that may not be written is not replaced either.
            drop(OpenOptions::new().write(true).open(rt, path)?);
            replace(rt, path, Some(metadata), bytes)
        }
        Ok(_) => fs::write(rt, path, bytes),
        Err(error) if error.kind() == ErrorKind::NotFound => replace(rt, path, None, bytes),
        Err(error) => Err(error),
    }
}

// Fills a new file beside the path, and renames it over the path. The path then has the old
// contents or the new ones at every moment. Where something fails, the file beside is removed. The
// permissions of the old file are kept, and its owner where the system allows that.
fn replace<R: rt::Files + AllocGlobal>(
    rt: &R,
    path: &str,
    old: Option<Metadata>,
    bytes: &[u8],
) -> io::Result<()> {
    let (beside, file) = create_beside(rt, path)?;
    if let Some(old) = &old {
        let _ = chown(rt, &beside, Some(old.uid()), Some(old.gid()));
    }
    let filled = fill(file, old.map(|old| old.permissions()), bytes);
    let renamed = filled.and_then(|()| fs::rename(rt, &beside, path));
    if renamed.is_err() {
        let _ = fs::remove_file(rt, &beside);
    }
    renamed
}

// Makes a file in the directory of the path, under the first name that nothing has.
fn create_beside<R: rt::Files + AllocGlobal>(rt: &R, path: &str) -> io::Result<(PathBuf, R::File)> {
    for number in 0..NAMES {
        let name = format!(in rt.alloc(); ".hubris-{number}.part")?;
        let beside = Path::new(path).with_file_name(rt.alloc(), name.as_str())?;
        match OpenOptions::new()
            .write(true)
            .create_new(true)
            .open(rt, &beside)
        {
            Ok(file) => return Ok((beside, file)),
            Err(error) if error.kind() == ErrorKind::AlreadyExists => {}
            Err(error) => return Err(error),
        }
    }
    Err(io::Error::from(ErrorKind::AlreadyExists))
}

// Writes the bytes to a new file, gives it the permissions, has all of it on the disk, and closes
// it.
fn fill<F: Write + OpenFile + Drop>(
    mut file: F,
    permissions: Option<Permissions>,
    bytes: &[u8],
) -> io::Result<()> {
    file.write_all(bytes)?;
    if let Some(permissions) = permissions {
        file.set_permissions(permissions)?;
    }
    file.sync_all()
}
