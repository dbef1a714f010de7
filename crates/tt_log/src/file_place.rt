//! Where the file of a log is, and where a new one is made beside it.
use std::alloc::Global;
use std::fs::{File, Files, OpenOptions};
use std::io;
use std::io::ErrorKind;
use std::os::unix::fs::{MetadataExt, OpenOptionsExt, fchown};
use std::path::PathBuf;

/// The place of a file in its folder, and that of a new file beside it, whose name has `.new` at
/// the end. It has both paths, so that making a log anew takes no memory for them.
#[derive(Drop)]
pub struct FilePlace {
    path: PathBuf,
    new_path: PathBuf,
}

impl FilePlace {
    /// The place of a file that is there: that of the file itself, also where the path leads to it
    /// by a link. The error is that of the system, or `OutOfMemory`.
    pub fn of(files: &impl Files<File = File>, alloc: Global, path: &str) -> io::Result<FilePlace> {
        let path = files.canonicalize(alloc, path)?;
        let new_path = path.as_path().with_added_extension(alloc, "new")?;
        Ok(FilePlace { path, new_path })
    }

    /// Whether an open file is the one that has the name now, and not one that had it before. The
    /// error is that of the system, `NotFound` where no file has the name.
    pub fn is_of(&self, files: &impl Files<File = File>, file: &File) -> io::Result<bool> {
        let there = files.symlink_metadata(self.path.as_str())?;
        let opened = file.metadata()?;
        Ok(there.dev() == opened.dev() && there.ino() == opened.ino())
    }

    /// Whether the name is surely that of an open file: not where that can't be told.
    pub(crate) fn is_surely_of(&self, files: &impl Files<File = File>, file: &File) -> bool {
        match self.is_of(files, file) {
            Ok(is_of) => is_of,
            Err(_) => false,
        }
    }

    /// Puts the names of its folder on the disk. The error is that of the system: the names may
    /// then be on the disk or not.
    pub fn sync_folder(&self, files: &impl Files<File = File>) -> io::Result<()> {
        let folder = match self.path.as_path().parent() {
            Some(folder) => folder.as_str(),
            None => "/",
        };
        OpenOptions::new()
            .read(true)
            .open(files, folder)?
            .sync_all()
    }

    /// Removes a new file that was left when its maker was killed. One that is locked stays, as
    /// does what is no file: the error tells that, or is that of the system.
    pub fn remove_left(&self, files: &impl Files<File = File>) -> io::Result<()> {
        let new_path = self.new_path.as_str();
        if !files.symlink_metadata(new_path)?.is_file() {
            return Err(io::Error::from(ErrorKind::InvalidInput));
        }
        let left = OpenOptions::new().read(true).open(files, new_path)?;
        left.try_lock()?;
        self.remove_new(files)
    }

    /// Removes the new file.
    pub(crate) fn remove_new(&self, files: &impl Files<File = File>) -> io::Result<()> {
        files.remove_file(self.new_path.as_str())
    }

    /// Makes the new file, with the owner and the permissions of the file, and locks it. It is
    /// `AlreadyExists` where there is one, which stays.
    pub(crate) fn create_new(
        &self,
        files: &impl Files<File = File>,
        file: &File,
    ) -> io::Result<File> {
        let new_file = OpenOptions::new()
            .read(true)
            .write(true)
            .create_new(true)
            .mode(0o600)
            .open(files, self.new_path.as_str())?;
        match take_over(file, &new_file) {
            Ok(()) => Ok(new_file),
            Err(error) => {
                let _ = self.remove_new(files);
                Err(error)
            }
        }
    }

    /// Gives the new file the name of the file, in one step.
    pub(crate) fn rename_new(&self, files: &impl Files<File = File>) -> io::Result<()> {
        files.rename(self.new_path.as_str(), self.path.as_str())
    }
}

/// Gives a new file the owner and the permissions of another one, and locks it.
fn take_over(file: &File, new_file: &File) -> io::Result<()> {
    let metadata = file.metadata()?;
    fchown(new_file, Some(metadata.uid()), Some(metadata.gid()))?;
    new_file.set_permissions(metadata.permissions())?;
    new_file.try_lock()?;
    Ok(())
}
