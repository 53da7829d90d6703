//! Putting one file of the system in another's place.
//!
//! The program that owns a table must be able to open it afterwards, so the new file takes over what
//! the old one was to the system: its mode, its owner and group as far as the caller may set them, and
//! where it stands, if the name is a link to it.
use std::alloc::Global;
use std::fs::{File, Metadata};
use std::io::ErrorKind;
use std::os::unix::fs::{MetadataExt, fchown};
use std::{io, rt};

fn is_same_file(one: &Metadata, other: &Metadata) -> bool {
    one.dev() == other.dev() && one.ino() == other.ino()
}

// What a name leads to, and None where it leads to no file.
fn found(answer: io::Result<Metadata>) -> io::Result<Option<Metadata>> {
    match answer {
        Ok(metadata) => Ok(Some(metadata)),
        Err(error) if error.kind() == ErrorKind::NotFound => Ok(None),
        Err(error) => Err(error),
    }
}

// The path that is to be taken: that of the file that a link leads to, else the name itself.
fn target(alloc: Global, rt: &impl rt::Files<File = File>, name: &str) -> io::Result<String> {
    if let Some(own) = found(rt.symlink_metadata(name))? {
        if own.is_symlink() && found(rt.metadata(name))?.is_some() {
            return Ok(rt.canonicalize(alloc, name)?.into_string());
        }
    }
    Ok(String::from_str(alloc, name)?)
}

// Whether the caller may do what was tried; an owner that is not known here may not be set either.
fn allowed(answer: io::Result<()>) -> io::Result<bool> {
    match answer {
        Ok(()) => Ok(true),
        Err(error)
            if matches!(
                error.kind(),
                ErrorKind::PermissionDenied | ErrorKind::InvalidInput
            ) => { Ok(false) }
        Err(error) => Err(error),
    }
}

// Takes over owner and group, or the group alone, where the caller may set them.
fn take_owner(file: &File, own: &Metadata, old: &Metadata) -> io::Result<()> {
    if own.uid() == old.uid() && own.gid() == old.gid() {
        return Ok(());
    }
    if !allowed(fchown(file, Some(old.uid()), Some(old.gid())))? {
        allowed(fchown(file, None, Some(old.gid())))?;
    }
    Ok(())
}

/// Puts the open file of the name `from` in the place of `to`, after its bytes are on the disk. A name
/// `from` that leads elsewhere by now, or is a link, is refused, and so is a `to` that is the same
/// file. Where anything fails both names are as before; only owner and mode of the file may have
/// changed.
pub(crate) fn replace_file(
    alloc: Global,
    rt: &impl rt::Files<File = File>,
    from: &str,
    file: &File,
    to: &str,
) -> io::Result<()> {
    let own = file.metadata()?;
    if !is_same_file(&own, &rt.symlink_metadata(from)?) {
        return Err(ErrorKind::InvalidInput.into());
    }
    let target = target(alloc, rt, to)?;
    if let Some(old) = found(rt.metadata(target.as_str()))? {
        if is_same_file(&own, &old) {
            return Err(ErrorKind::AlreadyExists.into());
        }
        // In this order, since a change of the owner may take bits off the mode.
        take_owner(file, &own, &old)?;
        file.set_permissions(old.permissions())?;
    }
    file.sync_all()?;
    rt.rename(from, target.as_str())
}
