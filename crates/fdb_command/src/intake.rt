//! All bytes of a file or of the input, as a program takes them.

ghost use Rattle.std.specs.Prelude.{◌≡◌, ◌⊎◌, ◌+◌, ◌<◌, ◌≤◌, List, [], IfOk, IfErr, IsErrAnd, None};
ghost use Rattle.std.specs.Prelude.{OnErr, OnOk, false, is_some, length, option_map, true, ◌≢◌};
ghost use Rattle.std.specs.Prelude.{Some, Ok, MatchOption, take};
ghost use Rattle.std.specs.Io.KnownBytes.{IsAtEnd, Consumes, Keeps};
ghost use Rattle.std.specs.IoError.{error_kind};
ghost use Rattle.clap.specs.Words.{Text};
ghost use Rattle.fdb_command.specs.Input.{IsCauseOf, TakesAtMost};
ghost use Rattle.fdb_command.specs.Driving.{StopsAnyhow, TellsOf};
ghost use Rattle.fdb_command.specs.Output.{TakesAny};
ghost use Rattle.fdb_command.specs.private.Taking.{IsFailure, IsPut, IsTaken, MayStop, StopsAt};
ghost use Rattle.fdb_command.specs.private.Taking.{TakesOn, TellsLast, TellsOn};

use crate::failure::{Failure, unread};
use crate::output::{warn, write_flushed};
use crate::program::{Program, Told};
use std::alloc::Global;
use std::fmt::{Debug, Display};
use std::fs::{File, Files};
use std::io::{self, ErrorKind, Read, Write};
use std::time::Clock;

/// The most bytes that one read asks for.
const PIECE: usize = 65_536;

/// After each so many bytes, progress is told where that is asked for.
const STRIDE: u64 = 67_108_864;

/// A piece of an input that a program has taken.
#[derive(Drop)]
struct Piece<T: Drop> {
    /// What the program keeps of the input, with this piece.
    intake: T,
    /// How many bytes came: none where the read was interrupted, or the input is at its end.
    count: usize,
    /// Whether the input is at its end.
    is_last: bool,
}

/// What a program takes its input by: what it runs on, what its flags say, and memory.
#[derive(Drop)]
pub(crate) struct Taker<'a, P: Program, R> {
    pub(crate) program: &'a P,
    pub(crate) rt: &'a R,
    pub(crate) alloc: Global,
    pub(crate) options: &'a P::Options,
}

impl<P: Program, R: Files<File = File> + Clock> Taker<'_, P, R> {
    /// Has the program take the bytes of the file that is named, or else of the input, if there are
    /// no more than it may have, writes what it tells of them, and tells of progress where that is
    /// asked for. What stops the program leaves the rest unread. One byte more than it may have is
    /// taken from the input at the most, and none where a file is named.
    pub(crate) fn take_input<I: Read, O: Write, E: Write>(
        &self,
        file: Option<&str>,
        input: &mut I,
        out: &mut O,
        err: &mut E,
    ) -> Result<P::Intake, Failure<P::Refusal, P::Finding>>
        ensures all { IfOk result (IsTaken P.promise self.now.options.now
            (option_map (λ path. path.now) file.entry) (I.remaining input.old)
            O.contents out.old out.new) }
        ensures stops { IfErr result (λ fault. IsFailure fault
            ⊎ MayStop P.promise self.now.options.now
            (option_map (λ path. path.now) file.entry) (I.remaining input.old) fault) }
        ensures begun { OnErr result ((out.new ≡ out.old) ⊎ TellsOf P.promise
            self.now.options.now (option_map (λ path. path.now) file.entry)
            (I.remaining input.old) (O.contents out.old) (O.contents out.new)) }
        ensures left { is_some file.entry ≡ true → input.new ≡ input.old }
        ensures few { TakesAtMost (P.promise.most + 1)
            (I.remaining input.old) (I.remaining input.new) }
        ensures quiet { (arguments : List Text) → P.promise.asks arguments self.now.options.now
            → P.promise.tells arguments ≡ false → P.promise.warns arguments ≡ false
            → err.new ≡ err.old }
    {
        match file {
            Some(path) => self.take_file(File::open(self.rt, path), out, err),
            None => self.take_all(input, out, err),
        }
    }

    /// Has the program take all bytes of a file, if it could be opened and has no more than it may.
    fn take_file<F: Read + Drop, O: Write, E: Write>(
        &self,
        opened: io::Result<F>,
        out: &mut O,
        err: &mut E,
    ) -> Result<P::Intake, Failure<P::Refusal, P::Finding>>
        ensures all { IfOk opened (λ file. IfOk result (IsTaken P.promise
            self.now.options.now None (F.remaining file) O.contents out.old out.new)) }
        ensures stops { IfOk opened (λ file. IfErr result (λ fault. IsFailure fault
            ⊎ MayStop P.promise self.now.options.now None (F.remaining file) fault)) }
        ensures begun { IfOk opened (λ file. OnErr result ((out.new ≡ out.old)
            ⊎ TellsOf P.promise self.now.options.now None (F.remaining file)
            (O.contents out.old) (O.contents out.new))) }
        ensures untouched { OnErr opened (out.new ≡ out.old) }
        ensures unopened { IfErr opened (λ error. IsErrAnd result (λ fault.
            IsCauseOf error fault)) }
        ensures quiet { (arguments : List Text) → P.promise.asks arguments self.now.options.now
            → P.promise.tells arguments ≡ false → P.promise.warns arguments ≡ false
            → err.new ≡ err.old }
    {
        match opened {
            Ok(mut file) => self.take_all(&mut file, out, err),
            Err(error) => Err(unread(error)),
        }
    }

    /// Has the program take all bytes that the input has, if they are no more than it may have, and
    /// writes what it tells of them. One byte more is taken at most.
    fn take_all<I: Read, O: Write, E: Write>(
        &self,
        input: &mut I,
        out: &mut O,
        err: &mut E,
    ) -> Result<P::Intake, Failure<P::Refusal, P::Finding>>
        ensures all { IfOk result (IsTaken P.promise self.now.options.now None
            (I.remaining input.old) O.contents out.old out.new) }
        ensures stops { IfErr result (λ fault. IsFailure fault
            ⊎ MayStop P.promise self.now.options.now None (I.remaining input.old) fault) }
        ensures begun { OnErr result ((out.new ≡ out.old)
            ⊎ TellsOf P.promise self.now.options.now None (I.remaining input.old)
            (O.contents out.old) (O.contents out.new)) }
        ensures few { TakesAtMost (P.promise.most + 1)
            (I.remaining input.old) (I.remaining input.new) }
        ensures quiet { (arguments : List Text) → P.promise.asks arguments self.now.options.now
            → P.promise.tells arguments ≡ false → P.promise.warns arguments ≡ false
            → err.new ≡ err.old }
    {
        let mut room = Vec::new(self.alloc);
        if room.resize(PIECE, 0).is_err() {
            return Err(Failure::Memory);
        }
        let room = room.as_mut_slice();
        let most = self.program.most();
        let begun = self.program.begin(self.rt, self.alloc, self.options)?;
        let mut intake = begun;
        let mut read = 0;
        // A reader may be interrupted as often as it likes, but a loop has an end.
        for _ in 0..u64::MAX {
            let asked = room_at(read, most);
            let piece = self.take_piece(intake, input, &mut room[..asked])?;
            let count = piece.count as u64;
            if count > most - read {
                return Err(Failure::Reading);
            }
            read += count;
            if piece.is_last {
                self.tell_end(&piece.intake, read, err);
                let last = self.write_told(piece.intake, true, out, err)?;
                return Ok(last);
            }
            self.tell_stride(&piece.intake, read, count, err);
            intake = self.tell_piece(piece, asked, out, err)?;
        }
        Err(Failure::Reading)
    }

    /// Reads once, into the room, and has the program take what came.
    fn take_piece<I: Read>(
        &self,
        intake: P::Intake,
        input: &mut I,
        room: &mut [u8],
    ) -> Result<Piece<P::Intake>, Failure<P::Refusal, P::Finding>>
        requires { 0 < length room.old }
        ensures taken { IfOk result (λ piece. (piece.count ≤ length room.old)
            × TakesOn P.promise intake piece.intake piece.count
            (I.remaining input.old) (I.remaining input.new)) }
        ensures last { IfOk result
            (λ piece. piece.is_last ≡ true → IsAtEnd (I.remaining input.new)) }
        ensures stops { IfErr result (StopsAt P.promise intake (length room.old)
            (I.remaining input.old) (I.remaining input.new)) }
        ensures room { length room.new ≡ length room.old }
    {
        let Some(count) = read_piece(input, room)? else {
            return Ok(Piece {
                intake,
                count: 0,
                is_last: false,
            });
        };
        if count == 0 {
            return Ok(Piece {
                intake,
                count,
                is_last: true,
            });
        }
        let intake = self.program.take(intake, &room[..count])?;
        Ok(Piece {
            intake,
            count,
            is_last: false,
        })
    }

    /// Has the program tell of the bytes that came, if some did, of those that were asked for.
    fn tell_piece<O: Write, E: Write>(
        &self,
        piece: Piece<P::Intake>,
        asked: usize,
        out: &mut O,
        err: &mut E,
    ) -> Result<P::Intake, Failure<P::Refusal, P::Finding>>
        ensures told { IfOk result (TellsOn P.promise self.now.options.now piece.intake
            O.contents out.old out.new) }
        ensures begun { OnErr result ((out.new ≡ out.old)
            ⊎ TellsLast P.promise self.now.options.now piece.intake
            (O.contents out.old) (O.contents out.new)) }
        ensures stops { IfErr result (λ fault. (fault ≡ Failure.Writing)
            ⊎ StopsAnyhow P.promise self.now.options.now fault) }
        ensures quiet { (arguments : List Text) → P.promise.asks arguments self.now.options.now
            → P.promise.warns arguments ≡ false → err.new ≡ err.old }
    {
        if piece.count == 0 {
            return Ok(piece.intake);
        }
        self.write_told(piece.intake, piece.count < asked, out, err)
    }

    /// Has the program tell of what it has taken, and writes that: what it leaves out to `err`, and
    /// the text to `out`, whole, which is then flushed. Then has it keep what it is to keep.
    fn write_told<O: Write, E: Write>(
        &self,
        intake: P::Intake,
        is_idle: bool,
        out: &mut O,
        err: &mut E,
    ) -> Result<P::Intake, Failure<P::Refusal, P::Finding>>
        ensures told { IfOk result (TellsOn P.promise self.now.options.now intake
            O.contents out.old out.new) }
        ensures begun { OnErr result ((out.new ≡ out.old)
            ⊎ TellsLast P.promise self.now.options.now intake
            (O.contents out.old) (O.contents out.new)) }
        ensures stops { IfErr result (λ fault. (fault ≡ Failure.Writing)
            ⊎ StopsAnyhow P.promise self.now.options.now fault) }
        ensures quiet { (arguments : List Text) → P.promise.asks arguments self.now.options.now
            → P.promise.warns arguments ≡ false → err.new ≡ err.old }
    {
        let told = self
            .program
            .tell(self.rt, self.alloc, self.options, intake, is_idle)?;
        warn(&told.warnings, err);
        let intake = put_told(told, out)?;
        self.program.keep(self.rt, self.alloc, self.options, intake)
    }

    /// Tells how far the input has been read, where the last of these bytes end a stride.
    fn tell_stride<E: Write>(&self, intake: &P::Intake, read: u64, count: u64, err: &mut E)
        ensures { (arguments : List Text) → P.promise.asks arguments self.now.options.now
            → P.promise.tells arguments ≡ false → err.new ≡ err.old }
    {
        if count > 0 && read % STRIDE == 0 {
            self.tell_progress(intake, read, "", err);
        }
    }

    /// Tells that all of the input has been read, where it has a stride at least: less is read at
    /// once.
    fn tell_end<E: Write>(&self, intake: &P::Intake, read: u64, err: &mut E)
        ensures { (arguments : List Text) → P.promise.asks arguments self.now.options.now
            → P.promise.tells arguments ≡ false → err.new ≡ err.old }
    {
        if read >= STRIDE {
            self.tell_progress(intake, read, "; judging", err);
        }
    }

    /// Tells how far the input has been read, where the arguments ask for that. A line that cannot
    /// be written changes nothing.
    fn tell_progress<E: Write>(&self, intake: &P::Intake, read: u64, next: &str, err: &mut E)
        ensures { (arguments : List Text) → P.promise.asks arguments self.now.options.now
            → P.promise.tells arguments ≡ false → err.new ≡ err.old }
    {
        if let Some(calls) = self.program.progress(self.options, intake) {
            let _ = writeln!(err, "{}: {read} bytes, {calls} calls read{next}", P::NAME);
        }
    }
}

/// Writes what was told and flushes it, if there is a text, and gives the intake back.
fn put_told<T: Drop, E: Debug + Display + Drop, F: Debug + Display + Drop, W: Write>(
    told: Told<T>,
    out: &mut W,
) -> Result<T, Failure<E, F>>
    ensures ok { IfOk result (λ intake. (intake ≡ told.intake)
        × IsPut W.contents told.text.items out.old out.new) }
    ensures begun { OnErr result ((0 < length told.text.items)
        × TakesAny told.text.items (W.contents out.old) (W.contents out.new)) }
    ensures kind { IfErr result (λ fault. fault ≡ Failure.Writing) }
{
    if !told.text.is_empty() && write_flushed(out, &told.text).is_err() {
        return Err(Failure::Writing);
    }
    Ok(told.intake)
}

/// How many bytes are to be read next: no more than one above the most, and none past a place
/// where progress is told.
fn room_at(read: u64, most: u64) -> usize
    requires { read ≤ most }
    ensures some { 0 < result }
    ensures piece { result ≤ PIECE }
    ensures few { read + result ≤ most + 1 }
{
    let room = (most - read).saturating_add(1).min(STRIDE - read % STRIDE);
    room.min(PIECE as u64) as usize
}

/// Reads once, into the room. Answers how many bytes came, none only at the end of the input; and
/// `None` where the read was interrupted, and is to be tried again.
pub(crate) fn read_piece<I: Read, E: Debug + Display + Drop, F: Debug + Display + Drop>(
    input: &mut I,
    room: &mut [u8],
) -> Result<Option<usize>, Failure<E, F>>
    requires { 0 < length room.old }
    ensures came { IfOk result (λ came. MatchOption came
        (Keeps (I.remaining input.old) (I.remaining input.new))
        (λ count. (count ≤ length room.new)
        × Consumes (I.remaining input.old) (I.remaining input.new) (take count room.new)
        × (count ≡ 0 → IsAtEnd (I.remaining input.new)))) }
    ensures failed { OnErr result (Keeps (I.remaining input.old) (I.remaining input.new)) }
    ensures kinds { IfErr result
        (λ fault. (fault ≡ Failure.Reading) ⊎ (fault ≡ Failure.Memory)) }
    ensures room { length room.new ≡ length room.old }
{
    count_read(input.read(room))
}

/// How many bytes a read gave; `None` where it was interrupted, and is to be tried again.
fn count_read<E: Debug + Display + Drop, F: Debug + Display + Drop>(
    read: io::Result<usize>,
) -> Result<Option<usize>, Failure<E, F>>
    ensures came { IfOk read (λ count. result ≡ Ok (Some count)) }
    ensures interrupted { IfErr read (λ error. error_kind error ≡ ErrorKind.Interrupted
        → result ≡ Ok None) }
    ensures failed { IfErr read (λ error. error_kind error ≢ ErrorKind.Interrupted
        → IsErrAnd result (IsCauseOf error)) }
    ensures kinds { IfErr result
        (λ fault. (fault ≡ Failure.Reading) ⊎ (fault ≡ Failure.Memory)) }
{
    match read {
        Ok(count) => Ok(Some(count)),
        Err(error) if error.kind() == ErrorKind::Interrupted => Ok(None),
        Err(error) => Err(unread(error)),
    }
}
