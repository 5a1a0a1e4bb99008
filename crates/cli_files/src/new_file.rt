//! A new file that replaces the file at a path once it is whole.
ghost use Rattle.std.specs.Prelude.{◌≡◌, false, None, Some, IfErr, IfOk, OnOk};
ghost use Rattle.cli_files.specs.Causes.{IsOfOpeningNew, IsOfPutting};
ghost use Rattle.cli_files.specs.Names.{is_dash};
ghost use Rattle.cli_files.specs.Replaced.{WasAllowed};

use crate::Cause;
use crate::hold::Hold;
use crate::making::{Made, Purpose, lead_to_one, make_beside};
use crate::replaceable::{Form, may_be_replaced};
use crate::stamp::{Stamp, check_unchanged, stamp_at};
use crate::target::target_of;
use std::alloc::Global;
use std::fs::{self, Files, OpenFile, OpenOptions, Permissions};
use std::io::{self, ErrorKind, Write};
use std::path::PathBuf;

// The path of a new file, the path that it is renamed to once it is whole, and what stood there at first.
#[derive(Drop)]
struct Names {
    new: PathBuf,
    target: PathBuf,
    was: Option<Stamp>,
}

/// What stands at a path before a request reads anything.
#[derive(Clone, Copy)]
pub struct Noted {
    was: Option<Stamp>,
}

impl Noted {
    /// Notes what stands at the path. If that can't be told, it is as if nothing stood there.
    pub fn at<E: Files>(rt: &E, path: &str) -> Noted {
        Noted {
            was: stamp_at(rt, path).unwrap_or(None),
        }
    }
}

/// A file that is being made for a path. The bytes are written to a new file in the same folder, which `put` renames to
/// the path. A pipe or a device is written directly.
#[derive(Drop)]
pub struct NewFile<F> {
    file: F,
    names: Option<Names>,
    fault: Option<io::Error>,
}

impl<F: Write> Write for NewFile<F> {
    ghost use Rattle.cli_files.specs.NewFile.{file_of};

    ghost contents = { λ new. F.contents (file_of new) };

    fn write(&mut self, buf: &[u8]) -> io::Result<usize> {
        let done = self.file.write(buf);
        if let Err(error) = &done {
            self.fault = Some(*error);
        }
        done
    }

    fn flush(&mut self) -> io::Result<()> {
        self.file.flush()
    }
}

// Refuses a file that may not be written, or, if a form is given, that is neither empty nor of this form.
fn check_replaceable<E: Files>(
    alloc: Global,
    rt: &E,
    path: &str,
    form: Option<Form>,
) -> Result<(), Cause>
    ensures allowed { OnOk result (WasAllowed E.File.remaining form) }
    ensures refused { IfErr result (IsOfOpeningNew form) }
{
    let file = OpenOptions::new().read(true).write(true).open(rt, path)?;
    let Some(form) = form else {
        return Ok(());
    };
    if may_be_replaced(alloc, form, file)? {
        return Ok(());
    }
    match form {
        Form::Pwad => Err(Cause::NoPwad),
        Form::Picture => Err(Cause::NoPicture),
    }
}

// What a new file is made for, and what must still stand at its path.
#[derive(Clone, Copy)]
struct Order<'a> {
    purpose: Purpose<'a>,
    // The form that the file at the path must have; any if there is none.
    over: Option<Form>,
    was: Option<Stamp>,
}

// Opens a new file beside the one that the path leads to, with the permissions of that one.
fn open_beside<E: Files>(
    alloc: Global,
    rt: &E,
    path: &str,
    order: Order<'_>,
    permissions: Option<Permissions>,
) -> Result<NewFile<E::File>, Cause>
where
    E::File: Hold,
    ensures { IfErr result (IsOfOpeningNew order.entry.over) }
{
    let target = target_of(alloc, rt, path)?;
    if permissions.is_some() {
        check_replaceable(alloc, rt, target.as_path().as_str(), order.over)?;
    }
    let Made { file, path: new } = make_beside(
        alloc,
        rt,
        target.as_path().as_str(),
        order.purpose,
    )?;
    if let Some(permissions) = permissions {
        if let Err(error) = file.set_permissions(permissions) {
            let _ = rt.remove_file(new.as_path().as_str());
            return Err(Cause::System(error));
        }
    }
    Ok(NewFile {
        file,
        names: Some(Names {
            new,
            target,
            was: order.was,
        }),
        fault: None,
    })
}

// Opens a pipe or a device, which is written directly.
fn open_itself<E: Files>(rt: &E, path: &str) -> Result<NewFile<E::File>, Cause>
    ensures { IfErr result (IsOfOpeningNew None) }
{
    let file = OpenOptions::new().write(true).open(rt, path)?;
    Ok(NewFile {
        file,
        names: None,
        fault: None,
    })
}

// Whether the path is `-`, by which people mean standard output.
fn is_dash(path: &str) -> bool
    ensures { result ≡ is_dash path.now }
{
    path == "-"
}

// Opens a new file for a path other than `-`. A file that is there must be the one that was noted.
fn open_for<E: Files>(
    alloc: Global,
    rt: &E,
    path: &str,
    order: Order<'_>,
) -> Result<NewFile<E::File>, Cause>
where
    E::File: Hold,
    ensures refused { IfErr result (IsOfOpeningNew order.entry.over) }
    ensures named { IfOk result (λ new. is_dash path.now ≡ false) }
{
    if is_dash(path) {
        return Err(Cause::Dash);
    }
    match rt.metadata(path) {
        Ok(found) if found.is_file() => {
            open_beside(alloc, rt, path, order, Some(found.permissions()))
        }
        Ok(_) => open_itself(rt, path),
        Err(error) if error.kind() == ErrorKind::NotFound => {
            open_beside(alloc, rt, path, order, None)
        }
        Err(error) => Err(Cause::System(error)),
    }
}

/// Opens a new file of the form for a path. At the path there may be nothing, an empty file or a file of the form,
/// which stays until `put`. A symbolic link is followed. A pipe or a device is opened directly.
///
/// # Errors
///
/// `Dash` if the path is `-`, `NoPwad` or `NoPicture` if the file at the path may not be replaced, `Held` if another
/// program is making a new file for this path, `System`, or `OutOfMemory`.
pub fn open_new<E: Files>(
    alloc: Global,
    rt: &E,
    path: &str,
    form: Form,
) -> Result<NewFile<E::File>, Cause>
where
    E::File: Hold,
    ensures refused { IfErr result (IsOfOpeningNew (Some form)) }
    ensures named { IfOk result (λ new. is_dash path.now ≡ false) }
{
    let order = Order {
        purpose: Purpose { form, read: None },
        over: Some(form),
        was: Noted::at(rt, path).was,
    };
    open_for(alloc, rt, path, order)
}

/// Opens a new file as `open_new` does, for bytes that are made from the file at `read`, which is never removed. If the
/// path leads to that same file, it may be of any form. `noted` is what stood at the path before that file was read:
/// if it has been changed or replaced since, `put` refuses.
///
/// # Errors
///
/// Those of `open_new`.
pub fn open_new_of<E: Files>(
    alloc: Global,
    rt: &E,
    read: &str,
    path: &str,
    form: Form,
    noted: Noted,
) -> Result<NewFile<E::File>, Cause>
where
    E::File: Hold,
    ensures refused { IfErr result (IsOfOpeningNew (Some form)) }
    ensures named { IfOk result (λ new. is_dash path.now ≡ false) }
{
    let purpose = Purpose {
        form,
        read: Some(read),
    };
    let was = noted.was;
    let over = match lead_to_one(rt, read, path) {
        Ok(true) => None,
        _ => Some(form),
    };
    let order = Order { purpose, over, was };
    open_for(alloc, rt, path, order)
}

// Syncs the folder of a path, if possible.
fn sync_folder<E: Files>(rt: &E, path: &PathBuf) {
    let folder = match path.as_path().parent() {
        Some(folder) if !folder.as_str().is_empty() => folder.as_str(),
        _ => ".",
    };
    if let Ok(folder) = fs::open(rt, folder) {
        let _ = folder.sync_all();
    }
}

// Syncs a new file, and renames it to its path if there still stands what stood there.
fn synced_over<E: Files, F: OpenFile>(rt: &E, file: &F, names: &Names) -> Result<(), Cause>
    ensures { IfErr result IsOfPutting }
{
    file.sync_all()?;
    let target = names.target.as_path().as_str();
    check_unchanged(rt, target, names.was)?;
    rt.rename(names.new.as_path().as_str(), target)?;
    Ok(())
}

impl<F: OpenFile + Drop> NewFile<F> {
    ghost use Rattle.std.specs.Prelude.{◌≡◌, IfErr, IfOk, IfSome};
    ghost use Rattle.cli_files.specs.Causes.{IsOfPutting, IsOfSystem};
    ghost use Rattle.cli_files.specs.NewFile.{file_of};

    /// Why the last failed write failed; `None` if none failed.
    pub fn fault(&self) -> Option<Cause>
        ensures { IfSome result IsOfSystem }
    {
        self.fault.map(Cause::System)
    }

    /// Syncs the new file, renames it to the path and returns it. If that fails, removes the new file.
    ///
    /// # Errors
    ///
    /// `Changed` if another file stands at the path than when this one was opened, or the same one changed; `System`.
    /// What stands at the path then stays.
    pub fn put<E: Files>(self, rt: &E) -> Result<F, Cause>
        ensures put { IfOk result (λ file. file ≡ file_of self) }
        ensures refused { IfErr result IsOfPutting }
    {
        let NewFile { file, names, .. } = self;
        let Some(names) = names else {
            return Ok(file);
        };
        let new = names.new.as_path().as_str();
        match synced_over(rt, &file, &names) {
            Ok(()) => {
                sync_folder(rt, &names.target);
                Ok(file)
            }
            Err(cause) => {
                let _ = rt.remove_file(new);
                Err(cause)
            }
        }
    }

    /// Removes the new file. The file at the path stays as it was.
    pub fn take_away<E: Files>(self, rt: &E) {
        if let Some(names) = &self.names {
            let _ = rt.remove_file(names.new.as_path().as_str());
        }
    }
}
