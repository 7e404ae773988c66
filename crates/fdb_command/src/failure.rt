//! Why a program ends with another status than 0.

ghost use Rattle.std.specs.Prelude.{◌≡◌, ◌⊎◌, ◌<◌, ◌≤◌};
ghost use Rattle.fdb_command.specs.Driving.{HasFailed};
ghost use Rattle.fdb_command.specs.Input.{IsCauseOf};

use crate::arguments::ArgumentsFault;
use std::alloc::AllocError;
use std::error::Error;
use std::fmt::{Debug, Display};
use std::io::ErrorKind;
use std::{fmt, io};

/// Why a program ends with another status than 0. Its text
/// is the line that the program writes, behind its name.
#[derive(Debug, Drop)]
pub enum Failure<E: Debug + Display + Drop, F: Debug + Display + Drop> {
    /// The input is refused, whole or in part, and why, with what the input is called.
    Refused(E),
    /// The arguments are refused, by clap or by the program, or could not be had.
    Arguments,
    /// Memory was refused, before anything was written to the output but what was told.
    Memory,
    /// A fault was found in what the input stands for.
    Found(F),
    /// The input could not be read, or has too many bytes.
    Reading,
    /// What is printed could not be written, or not flushed.
    Writing,
    /// A file of the program's own failed, which a second line names.
    OwnFile(FileFault),
}

/// Why a file of the program's own failed.
#[derive(Debug, Drop)]
pub struct FileFault {
    /// What was done with the file.
    pub access: Access,
    /// A line for standard error that names the file, with the program's name in front: it stands
    /// behind the line that says what failed.
    pub line: String,
}

/// What is done with a file.
#[derive(Clone, Copy, Debug, PartialEq, Eq)]
pub enum Access {
    Reading,
    Writing,
    Locking,
}

impl<E: Debug + Display + Drop, F: Debug + Display + Drop> Failure<E, F> {
    /// The status that the program ends with: 1 to 5 in the order of [`Failure`], 5 also for writing
    /// and for a file of the program's own.
    pub fn status(&self) -> u8
        ensures range { (0 < result) × (result ≤ 5) }
        ensures refused { (error : E) → self.now ≡ Failure.Refused error → result ≡ 1 }
        ensures only_refused { result ≡ 1 → (error : E) × (self.now ≡ Failure.Refused error) }
        ensures arguments { self.now ≡ Failure.Arguments → result ≡ 2 }
        ensures only_arguments { result ≡ 2 → self.now ≡ Failure.Arguments }
        ensures memory { self.now ≡ Failure.Memory → result ≡ 3 }
        ensures only_memory { result ≡ 3 → self.now ≡ Failure.Memory }
        ensures found { (found : F) → self.now ≡ Failure.Found found → result ≡ 4 }
        ensures only_found { result ≡ 4 → (found : F) × (self.now ≡ Failure.Found found) }
        ensures reading { self.now ≡ Failure.Reading → result ≡ 5 }
        ensures writing { self.now ≡ Failure.Writing → result ≡ 5 }
        ensures own_file { (file : FileFault) → self.now ≡ Failure.OwnFile file → result ≡ 5 }
        ensures only_failed { result ≡ 5 → HasFailed self.now }
    {
        match self {
            Failure::Refused(_) => 1,
            Failure::Arguments => 2,
            Failure::Memory => 3,
            Failure::Found(_) => 4,
            Failure::Reading | Failure::Writing | Failure::OwnFile(_) => 5,
        }
    }
}

impl<E: Debug + Display + Drop, F: Debug + Display + Drop> Display for Failure<E, F> {
    ghost use Rattle.fdb_command.specs.Text.{failure_text};

    ghost output = { failure_text E.output F.output };

    fn fmt<W: fmt::Write>(&self, f: &mut fmt::Formatter<W>) -> fmt::Result {
        match self {
            Failure::Refused(error) => write!(f, "{error}"),
            Failure::Arguments => f.write_str("words refused"),
            Failure::Memory => f.write_str("want of memory"),
            Failure::Found(found) => write!(f, "audit fault: {found}"),
            Failure::Reading => f.write_str("reading failed"),
            Failure::Writing => f.write_str("writing failed"),
            Failure::OwnFile(fault) => write!(f, "{fault}"),
        }
    }
}

impl Display for FileFault {
    ghost use Rattle.std.specs.Prelude.{Some};
    ghost use Rattle.fdb_command.specs.Text.{file_text};

    ghost output = { λ fault. Some (file_text fault) };

    fn fmt<W: fmt::Write>(&self, f: &mut fmt::Formatter<W>) -> fmt::Result {
        let line = &self.line;
        match self.access {
            Access::Reading => write!(f, "reading failed\n{line}"),
            Access::Writing => write!(f, "writing failed\n{line}"),
            Access::Locking => write!(f, "locking failed\n{line}"),
        }
    }
}

impl<E: Debug + Display + Drop, F: Debug + Display + Drop> Error for Failure<E, F> {}

impl<E: Debug + Display + Drop, F: Debug + Display + Drop> From<AllocError> for Failure<E, F> {
    ghost use Rattle.fdb_command.specs.declared.failure.Failure.TheVariants.{Memory};

    ghost from_gives = { λ _ fault. fault ≡ Memory };

    fn from(_refused: AllocError) -> Self {
        Failure::Memory
    }
}

impl<E: Debug + Display + Drop, F: Debug + Display + Drop> From<ArgumentsFault> for Failure<E, F> {
    ghost use Rattle.fdb_command.specs.declared.failure.Failure.TheVariants as made;
    ghost use Rattle.fdb_command.specs.declared.arguments.ArgumentsFault.TheVariants as cause;

    ghost from_gives = { λ fault result. (fault ≡ cause.Refused → result ≡ made.Arguments)
        × (fault ≡ cause.Memory → result ≡ made.Memory) };

    fn from(fault: ArgumentsFault) -> Self {
        match fault {
            ArgumentsFault::Refused => Failure::Arguments,
            ArgumentsFault::Memory => Failure::Memory,
        }
    }
}

/// Why a program ends whose input, or a file, answers this error.
pub(crate) fn unread<E: Debug + Display + Drop, F: Debug + Display + Drop>(
    error: io::Error,
) -> Failure<E, F>
    ensures cause { IsCauseOf error result }
    ensures kinds { (result ≡ Failure.Reading) ⊎ (result ≡ Failure.Memory) }
{
    match error.kind() {
        ErrorKind::OutOfMemory => Failure::Memory,
        _ => Failure::Reading,
    }
}
