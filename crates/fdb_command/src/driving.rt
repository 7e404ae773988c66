//! A program, over a reader and two writers.

ghost use Rattle.std.specs.Prelude.{◌≡◌, ◌≢◌, ◌⊎◌, ◌+◌, ◌++◌, ℕ, [], List, IfOk, IfErr, IsOkAnd};
ghost use Rattle.std.specs.Prelude.{OnErr, map, string_bytes};
ghost use Rattle.clap.specs.Words.{Text};
ghost use Rattle.fdb_command.specs.Arguments.{AreWrong, ReadsInput};
ghost use Rattle.fdb_command.specs.Input.{TakesAtMost};
ghost use Rattle.fdb_command.specs.private.Asked.{Ask, AskBy, AskOf};
ghost use Rattle.fdb_command.specs.Driving.{AreRefused, HasAtMostTold, HasEnded, IsBegun};
ghost use Rattle.fdb_command.specs.Driving.{IsCallable, IsDriven, IsMissing, IsPrinted};
ghost use Rattle.fdb_command.specs.Driving.{KeepsPromise, MayFind, MayRefuse, RefusesWhole};
ghost use Rattle.fdb_command.specs.Driving.{TellsNothing, TellsProgress, Warns};
ghost use Rattle.fdb_command.specs.private.Taking.{IsPut};

use crate::arguments::{ArgumentsFault, Invocation, file_of, parse};
use crate::failure::{Failure, FileFault};
use crate::intake::Taker;
use crate::output::put;
use crate::program::{Output, Program};
use clap::{ArgMatches, Error};
use std::alloc::Global;
use std::fmt::{Debug, Display};
use std::fs::{File, Files};
use std::io::{self, ErrorKind, Read, Write};
use std::time::Clock;

/// What the body of a program makes: an answer, or the fault at which it stops.
type Made<P> = Result<
    Output<<P as Program>::Refusal, <P as Program>::Finding>,
    Failure<<P as Program>::Refusal, <P as Program>::Finding>,
>;

/// Does what the arguments of the command line ask for. `arguments` are these without the program's
/// own name, or why they could not be had. Where they ask for the help or the version, that is
/// written to `out`. Else the program takes the bytes of the file that the arguments name, or of
/// `input` where they name none, and what it tells of each piece is written to `out` and flushed
/// before more is read. Then `body` makes the rest of the text, from what the program's flags say
/// and from what it took, and that is written to `out`.
///
/// Answers the status of the program. It is 0 where all is done and no fault was found, 1 where the
/// input is refused, or where a part of it was and the text is written, 2 where the arguments are
/// refused, 3 where memory ran out, 4 where a fault was found, and 5 where reading or writing
/// failed, also where a file cannot be opened or the input has more bytes than it may have. The
/// first of these causes counts, in this order: the arguments, reading and what is told, what stops
/// the program before it has its whole text, writing, the fault that the text tells of, and the
/// part that is refused. A line to `err` reports each status but 0; where that line cannot be
/// written, the status is the same. Where the program refuses something whatever may come after it,
/// the rest of the input is left unread. At most one byte more is taken from the input than it may
/// have, and nothing is written after a write that failed.
///
/// Where the arguments ask that progress is told, a line to `err` says after each 67,108,864 bytes
/// how far the input has been read, and so does one at the end of an input of at least as many
/// bytes.
pub fn drive<R, P, I, O, E, B>(
    program: &P,
    rt: &R,
    alloc: Global,
    arguments: io::Result<Vec<String>>,
    input: &mut I,
    out: &mut O,
    err: &mut E,
    body: B,
) -> u8
where
    R: Files<File = File> + Clock,
    P: Program,
    I: Read,
    O: Write,
    E: Write,
    B: FnOnce(P::Options, P::Intake) -> Made<P> + Drop,
    requires callable { IsCallable P.promise (B.pre body) }
    requires promised { KeepsPromise P.promise (B.post body) }
    ensures driven { IsDriven P.promise I.remaining O.contents arguments
        input.old input.new out.old out.new err.old err.new result }
    ensures unwritten { IfOk arguments (λ list.
        TellsNothing P.promise (map string_bytes list.items)
        × RefusesWhole P.promise (map string_bytes list.items))
        → (result ≡ 1) ⊎ ((result ≡ 2) ⊎ (result ≡ 3)) → out.new ≡ out.old }
    ensures begun { IfOk arguments (λ list. TellsNothing P.promise (map string_bytes list.items))
        → result ≡ 5 → (out.new ≡ out.old) ⊎ IsOkAnd arguments (λ list.
        IsBegun P.promise (map string_bytes list.items)
        (I.remaining input.old) (O.contents out.old) (O.contents out.new)) }
{
    match carry_out(program, rt, alloc, arguments, input, out, err, body) {
        Ok(()) => 0,
        Err(fault) => {
            let _ = writeln!(err, "{}: {fault}", P::NAME);
            fault.status()
        }
    }
}

/// Does what [`drive`] does, but does not write the line that says why the program ends with
/// another status than 0. Instead it answers the failure: its text is that line, behind the
/// program's name.
pub fn carry_out<R, P, I, O, E, B>(
    program: &P,
    rt: &R,
    alloc: Global,
    arguments: io::Result<Vec<String>>,
    input: &mut I,
    out: &mut O,
    err: &mut E,
    body: B,
) -> Result<(), Failure<P::Refusal, P::Finding>>
where
    R: Files<File = File> + Clock,
    P: Program,
    I: Read,
    O: Write,
    E: Write,
    B: FnOnce(P::Options, P::Intake) -> Made<P> + Drop,
    requires callable { IsCallable P.promise (B.pre body) }
    requires promised { KeepsPromise P.promise (B.post body) }
    ensures given { IfOk arguments (λ list. HasEnded P.promise (map string_bytes list.items)
        I.remaining O.contents input.old input.new out.old out.new err.old err.new result) }
    ensures missing { IfErr arguments (λ error.
        IsMissing error result × (input.new ≡ input.old) × (out.new ≡ out.old)
        × (err.new ≡ err.old)) }
{
    let arguments = match arguments {
        Ok(arguments) => arguments,
        Err(error) => return Err(Failure::from(ArgumentsFault::from(error))),
    };
    match asked(program, alloc, &arguments)? {
        Request::Help(help) => show(&help, out),
        Request::Input(matches, options) => {
            let run = Run {
                program,
                rt,
                alloc,
                body,
            };
            match run.answer_of(&matches, options, input, out, err) {
                Ok(answer) => put(answer, out, err),
                Err(fault) => Err(fault),
            }
        }
    }
}

/// A program that is to be run, and what it is run with beside its arguments and its streams.
#[derive(Drop)]
struct Run<'a, P, R, B> {
    program: &'a P,
    rt: &'a R,
    alloc: Global,
    body: B,
}

impl<P, R, B> Run<'_, P, R, B>
where
    P: Program,
    R: Files<File = File> + Clock,
    B: FnOnce(P::Options, P::Intake) -> Made<P> + Drop,
{
    /// What the program makes of the file that the arguments name, or else of the input, behind
    /// what it told of that, which is written.
    fn answer_of<I: Read, O: Write, E: Write>(
        self,
        matches: &ArgMatches<'_>,
        options: P::Options,
        input: &mut I,
        out: &mut O,
        err: &mut E,
    ) -> Made<P>
        requires callable { IsCallable P.promise (B.pre self.body) }
        requires promised { KeepsPromise P.promise (B.post self.body) }
        requires matches { (arguments : List Text)
            × AskBy P.promise arguments matches.now options }
        ensures printed { (arguments : List Text) → AskBy P.promise arguments matches.now options
            → IfOk result (λ answer. (told : List ℕ) × IsPut O.contents told out.old out.new
            × IsPrinted P.promise arguments (I.remaining input.old)
            answer.found answer.refused (told ++ answer.text.items)) }
        ensures refused { (arguments : List Text) → AskBy P.promise arguments matches.now options
            → IfErr result (λ fault. (error : P.Refusal) → fault ≡ Failure.Refused error
            → MayRefuse P.promise arguments (I.remaining input.old) error) }
        ensures faulty { (arguments : List Text) → AskBy P.promise arguments matches.now options
            → IfErr result (λ fault. (found : P.Finding) → fault ≡ Failure.Found found
            → MayFind P.promise arguments (I.remaining input.old) found) }
        ensures own_file { (arguments : List Text) → AskBy P.promise arguments matches.now options
            → IfErr result (λ fault. (file : FileFault) → fault ≡ Failure.OwnFile file
            → P.promise.fails arguments fault) }
        ensures own { IfErr result (λ fault. fault ≢ Failure.Arguments) }
        ensures unsaid { (arguments : List Text) → AskBy P.promise arguments matches.now options
            → (Warns P.promise arguments → ⊥)
            → IfOk result (λ answer. answer.warnings.items ≡ []) }
        ensures begun { (arguments : List Text) → AskBy P.promise arguments matches.now options
            → OnErr result (HasAtMostTold P.promise arguments
            (I.remaining input.old) O.contents out.old out.new) }
        ensures left { (arguments : List Text) → AskBy P.promise arguments matches.now options
            → (ReadsInput P.promise.app arguments → ⊥) → input.new ≡ input.old }
        ensures quiet { (arguments : List Text) → AskBy P.promise arguments matches.now options
            → (TellsProgress P.promise arguments → ⊥) → (Warns P.promise arguments → ⊥)
            → err.new ≡ err.old }
        ensures few { TakesAtMost (P.promise.most + 1)
            (I.remaining input.old) (I.remaining input.new) }
    {
        let Run {
            program,
            rt,
            alloc,
            body,
        } = self;
        let taker = Taker {
            program,
            rt,
            alloc,
            options: &options,
        };
        let intake = taker.take_input(file_of(matches), input, out, err)?;
        body(options, intake)
    }
}

/// What a program is asked for.
#[derive(Drop)]
enum Request<'a, T: Drop> {
    /// Its input, by these matches of the arguments, and what its flags say.
    Input(ArgMatches<'a>, T),
    /// The help or the version, which is this error's text.
    Help(Error),
}

/// What the arguments ask the program for.
fn asked<'a, P: Program>(
    program: &P,
    alloc: Global,
    arguments: &'a [String],
) -> Result<Request<'a, P::Options>, ArgumentsFault>
    ensures ok { IfOk result (AskOf P.promise (map string_bytes arguments.entry.now)) }
    ensures err { IfErr result (λ fault. fault ≡ ArgumentsFault.Refused
        → AreRefused P.promise (map string_bytes arguments.entry.now)) }
{
    match invoked(program, alloc, arguments)? {
        Invocation::Help(help) => Ok(Request::Help(help)),
        Invocation::Input(matches) => match program.options(alloc, &matches) {
            Ok(options) => Ok(Request::Input(matches, options)),
            Err(fault) => Err(fault),
        },
    }
}

/// What the arguments ask for, as the program's command takes them.
fn invoked<'a, P: Program>(
    program: &P,
    alloc: Global,
    arguments: &'a [String],
) -> Result<Invocation<'a>, ArgumentsFault>
    ensures ok { IfOk result (Ask P.promise.app (map string_bytes arguments.entry.now)) }
    ensures err { IfErr result (λ fault. fault ≡ ArgumentsFault.Refused
        → AreWrong P.promise.app (map string_bytes arguments.entry.now)) }
{
    match program.command(alloc) {
        Ok(command) => parse(command, arguments),
        Err(_) => Err(ArgumentsFault::Memory),
    }
}

/// Writes the help or the version, and flushes it. What a writer that fails has taken is not said.
fn show<E: Debug + Display + Drop, F: Debug + Display + Drop, W: Write>(
    help: &Error,
    out: &mut W,
) -> Result<(), Failure<E, F>>
    ensures { IfErr result (λ fault. fault ≡ Failure.Writing) }
{
    if write!(out, "{help}").is_err() || out.flush().is_err() {
        return Err(Failure::Writing);
    }
    Ok(())
}
