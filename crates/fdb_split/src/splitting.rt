//! A log that is being cut: what has been read of it, its parts, and their files. Until all are
//! whole these are in a folder of their own.

ghost use Rattle.std.specs.Prelude.{◌≡◌, ◌⊎◌, IfErr};
ghost use Rattle.fdb_split.specs.private.{HasReleased};

use fdb_audit::LogsRefused;
use fdb_command::Failure;
use fdb_log_reader::Splitter;
use std::alloc::Global;
use std::convert::Infallible;
use std::fs::{Files, OpenOptions, create_dir, exists, remove_dir, remove_file, rename};
use std::io::{self, ErrorKind, Write};

/// What stops the program.
pub(crate) type Stop = Failure<LogsRefused, Infallible>;

/// How many bytes of a part are held at least before they are written.
const MUCH: usize = 65_536;

/// A log that is being cut.
#[derive(Drop)]
pub struct Splitting {
    pub(crate) splitter: Splitter,
}

impl Splitting {
    /// Writes the texts of parts that are long.
    pub(crate) fn write_long<R: Files>(&mut self, rt: &R, files: &PartFiles) -> Result<(), Stop>
        ensures released { HasReleased self.old.splitter self.new.splitter }
        ensures stops { IfErr result (λ fault. (fault ≡ Failure.Memory) ⊎ (fault ≡ Failure.Writing)) }
    {
        write_texts(rt, files, &mut self.splitter, MUCH)
    }

    /// Writes all that is left of the texts of parts, and gives those that have lines their names.
    pub(crate) fn finish<R: Files>(&mut self, rt: &R, files: &PartFiles) -> Result<(), Stop>
        ensures released { HasReleased self.old.splitter self.new.splitter }
        ensures stops { IfErr result (λ fault. (fault ≡ Failure.Memory) ⊎ (fault ≡ Failure.Writing)) }
    {
        write_texts(rt, files, &mut self.splitter, 1)?;
        name_parts(rt, files, &self.splitter)
    }
}

/// Writes the texts of parts that have so many bytes, and releases them.
fn write_texts<R: Files>(
    rt: &R,
    files: &PartFiles,
    splitter: &mut Splitter,
    least: usize,
) -> Result<(), Stop>
    ensures released { HasReleased splitter.old splitter.new }
    ensures stops { IfErr result (λ fault. (fault ≡ Failure.Memory) ⊎ (fault ≡ Failure.Writing)) }
{
    for part in 0..splitter.part_count() {
        if splitter.text(part).len() >= least {
            put(files.append(rt, part, splitter.text(part)))?;
            splitter.release(part);
        }
    }
    Ok(())
}

/// Gives the parts that have lines their names.
fn name_parts<R: Files>(rt: &R, files: &PartFiles, splitter: &Splitter) -> Result<(), Stop>
    ensures { IfErr result (λ fault. (fault ≡ Failure.Memory) ⊎ (fault ≡ Failure.Writing)) }
{
    for part in 0..splitter.part_count() {
        if splitter.line_count(part) > 0 {
            put(files.finish(rt, part))?;
        }
    }
    put(files.end(rt))
}

/// What stops the program where a file could not be written.
pub(crate) fn put(written: io::Result<()>) -> Result<(), Stop>
    ensures { IfErr result (λ fault. (fault ≡ Failure.Memory) ⊎ (fault ≡ Failure.Writing)) }
{
    match written {
        Ok(()) => Ok(()),
        Err(error) => Err(unwritten(error)),
    }
}

/// The same of an error.
pub(crate) fn unwritten(error: io::Error) -> Stop
    ensures { (result ≡ Failure.Memory) ⊎ (result ≡ Failure.Writing) }
{
    match error.kind() {
        ErrorKind::OutOfMemory => Failure::Memory,
        _ => Failure::Writing,
    }
}

/// How many names of parts there are.
const NAMES: usize = 1024;

/// The folder, in that of the parts, for those that are not whole.
const UNFINISHED: &str = "unfinished";

/// The folder in which a log is cut into parts.
#[derive(Drop)]
pub(crate) struct PartFiles {
    alloc: Global,
    folder: String,
    /// Whether it was made for them.
    is_new: bool,
}

impl PartFiles {
    /// A folder for parts, which has none, and no other program writes there.
    pub(crate) fn begin<R: Files>(rt: &R, alloc: Global, folder: &str) -> io::Result<Self> {
        let is_new = made(rt, folder)?;
        let files = PartFiles {
            alloc,
            folder: String::from_str(alloc, folder)?,
            is_new,
        };
        if let Err(error) = files.occupy(rt) {
            files.leave(rt);
            return Err(error);
        }
        Ok(files)
    }

    /// Makes the folder for what is not whole, where there is no part yet.
    fn occupy<R: Files>(&self, rt: &R) -> io::Result<()> {
        for part in 0..NAMES {
            if exists(rt, self.name(part)?.as_str())? {
                return Err(io::Error::from(ErrorKind::AlreadyExists));
            }
        }
        create_dir(rt, self.unfinished()?.as_str())
    }

    /// Adds to the text of a part.
    pub(crate) fn append<R: Files>(&self, rt: &R, part: usize, text: &[u8]) -> io::Result<()> {
        let mut options = OpenOptions::new();
        options.append(true).create(true);
        let mut file = options.open(rt, self.unfinished_name(part)?.as_str())?;
        file.write_all(text)
    }

    /// Gives a part its name, which is whole.
    pub(crate) fn finish<R: Files>(&self, rt: &R, part: usize) -> io::Result<()> {
        rename(
            rt,
            self.unfinished_name(part)?.as_str(),
            self.name(part)?.as_str(),
        )
    }

    /// Lets the folder go for what is not whole, once all is.
    pub(crate) fn end<R: Files>(&self, rt: &R) -> io::Result<()> {
        remove_dir(rt, self.unfinished()?.as_str())
    }

    /// Removes all parts, where they are not to stay. What cannot be removed stays.
    pub(crate) fn remove<R: Files>(&self, rt: &R) {
        for part in 0..NAMES {
            if let Ok(name) = self.unfinished_name(part) {
                let _ = remove_file(rt, name.as_str());
            }
            if let Ok(name) = self.name(part) {
                let _ = remove_file(rt, name.as_str());
            }
        }
        let _ = self.end(rt);
        self.leave(rt);
    }

    /// Removes the folder, if it was made for the parts.
    fn leave<R: Files>(&self, rt: &R) {
        if self.is_new {
            let _ = remove_dir(rt, self.folder.as_str());
        }
    }

    /// The name of the file of a part.
    fn name(&self, part: usize) -> io::Result<String> {
        let folder = self.folder.as_str();
        Ok(format!(in self.alloc; "{folder}/{part:04}.jsonl")?)
    }

    /// The same until it is whole.
    fn unfinished_name(&self, part: usize) -> io::Result<String> {
        let folder = self.folder.as_str();
        Ok(format!(in self.alloc; "{folder}/{UNFINISHED}/{part:04}.jsonl")?)
    }

    fn unfinished(&self) -> io::Result<String> {
        let folder = self.folder.as_str();
        Ok(format!(in self.alloc; "{folder}/{UNFINISHED}")?)
    }
}

/// Makes a folder; false where it is there.
fn made<R: Files>(rt: &R, folder: &str) -> io::Result<bool> {
    match create_dir(rt, folder) {
        Ok(()) => Ok(true),
        Err(error) if error.kind() == ErrorKind::AlreadyExists => Ok(false),
        Err(error) => Err(error),
    }
}
