//! What each program gives of its own, over which the driver runs.

ghost use Rattle.std.specs.Prelude.{◌≡◌, ◌++◌, ℕ, List, [], IfOk, IfErr, OnOk, false, is_some};
ghost use Rattle.std.specs.Prelude.{true};
ghost use Rattle.clap.specs.Faults.{is_simple_and_free};
ghost use Rattle.clap.specs.Words.{Text, app_of};
ghost use Rattle.fdb_command.specs.Arguments.{AreMatches};
ghost use Rattle.fdb_command.specs.Driving.{Promise, Stops, StopsAnyhow};

use crate::arguments::ArgumentsFault;
use crate::failure::Failure;
use clap::{ArgMatches, Command};
use std::alloc::{AllocError, Global};
use std::fmt::{Debug, Display};
use std::fs::{File, Files};
use std::time::Clock;

/// What a program makes of its input.
#[derive(Debug, Drop)]
pub struct Output<E: Debug + Display + Drop, F: Debug + Display + Drop> {
    /// What is written to the output, whole, behind what was told, also where a fault was found.
    pub text: Vec<u8>,
    /// Whole lines for standard error, in front of the text. Where they cannot be written, nothing
    /// changes.
    pub warnings: Vec<u8>,
    /// The fault that was found, if one was.
    pub found: Option<F>,
    /// Why a part of the input was refused, where the rest was read on.
    pub refused: Option<E>,
}

/// What a program tells while it reads.
#[derive(Drop)]
pub struct Told<T: Drop> {
    /// The intake, of which the text has been told.
    pub intake: T,
    /// What is written to the output and flushed, if it is not empty.
    pub text: Vec<u8>,
    /// Whole lines for standard error. Where they cannot be written, nothing changes.
    pub warnings: Vec<u8>,
}

/// A program that reads a file or its input, and prints a text, of which it may tell a part while
/// it reads. What it makes of all of the input is no method, but a closure that
/// [`drive`](crate::drive) is given, since a closure may start threads.
pub trait Program {
    /// What its flags say, which its body is given.
    type Options: Drop;

    /// What the program keeps of the bytes of its input, which it is given a piece at a time,
    /// together with those of its flags that it needs for taking the next bytes.
    type Intake: Drop;

    /// Why its input is refused, with status 1; the line to standard error has its text.
    type Refusal: Debug + Display + Drop;

    /// What it may find in its input, with status 4; the line to standard error has its text.
    type Finding: Debug + Display + Drop;

    /// Its name, which begins each line that it writes to standard error.
    const NAME: &'static str;

    // What it promises.
    ghost promise: { Promise Self.Options Self.Intake Self.Refusal Self.Finding };

    /// The most bytes that its input may have. Where more come, reading fails.
    fn most(&self) -> u64
        ensures { result ≡ promise.most };

    /// The command that clap is given: the argument `file`, and what flags it has.
    fn command<'a>(&self, alloc: Global) -> Result<Command<'a>, AllocError>
        ensures { IfOk result (λ command. app_of command ≡ promise.app) };

    /// What its flags say, by the matches of its arguments; or that they do not suit it, though the
    /// command takes them.
    fn options(
        &self,
        alloc: Global,
        matches: &ArgMatches<'_>,
    ) -> Result<Self::Options, ArgumentsFault>
        requires { (arguments : List Text) × AreMatches promise.app arguments matches.now }
        ensures said { (arguments : List Text) → AreMatches promise.app arguments matches.now
            → IfOk result (promise.asks arguments) }
        ensures suited { (arguments : List Text) → AreMatches promise.app arguments matches.now
            → OnOk result (promise.suits arguments ≡ true) }
        ensures refused { (arguments : List Text) → AreMatches promise.app arguments matches.now
            → IfErr result (λ fault. fault ≡ ArgumentsFault.Refused
            → promise.suits arguments ≡ false) };

    /// An intake that has taken no bytes yet, and that is to take them by what the flags say. It is
    /// asked for before anything of the input is read, and may read a file of the program's own. An
    /// error is that such a file could not be read, or a refusal or a fault that holds whatever the
    /// input is, or that memory was refused.
    fn begin<R: Files<File = File>>(
        &self,
        rt: &R,
        alloc: Global,
        options: &Self::Options,
    ) -> Result<Self::Intake, Failure<Self::Refusal, Self::Finding>>
        ensures taken { IfOk result (λ intake. promise.taken options.now intake [] []) }
        ensures stops { IfErr result (λ fault. (arguments : List Text) (bytes : List ℕ)
            → promise.asks arguments options.now → Stops promise arguments bytes fault) };

    /// Takes the next bytes, by what the flags say that the intake was begun with. An error is a
    /// refusal or a fault that holds whatever bytes come after these, or that memory was refused.
    fn take(
        &self,
        intake: Self::Intake,
        bytes: &[u8],
    ) -> Result<Self::Intake, Failure<Self::Refusal, Self::Finding>>
        ensures taken { IfOk result (λ next. (options : Self.Options) (before told : List ℕ)
            → promise.taken options intake before told
            → promise.taken options next (before ++ bytes.now) told) }
        ensures stops { IfErr result
            (λ fault. (arguments : List Text) (options : Self.Options)
            (before told after : List ℕ)
            → promise.asks arguments options → promise.taken options intake before told
            → Stops promise arguments (before ++ (bytes.now ++ after)) fault) };

    /// What is to be told of what the intake has taken, before more is read, and what is to be said
    /// on standard error of what is left out. `is_idle`: the last read gave fewer bytes than it was
    /// asked for, so that no more may come for a while. A program that leaves this out tells
    /// nothing.
    fn tell<R: Files + Clock>(
        &self,
        rt: &R,
        alloc: Global,
        options: &Self::Options,
        intake: Self::Intake,
        is_idle: bool,
    ) -> Result<Told<Self::Intake>, Failure<Self::Refusal, Self::Finding>>
        ensures told { IfOk result (λ it. (before told : List ℕ)
            → promise.taken options.now intake before told
            → promise.taken options.now it.intake before (told ++ it.text.items)) }
        ensures quiet { IfOk result (λ it. (arguments : List Text)
            → promise.asks arguments options.now → promise.warns arguments ≡ false
            → it.warnings.items ≡ []) }
        ensures stops { IfErr result (λ fault. fault ≡ Failure.Memory) }
    {
        Ok(Told {
            intake,
            text: Vec::new(alloc),
            warnings: Vec::new(alloc),
        })
    }

    /// Keeps elsewhere what the program is to go on from later, where it does. It is called when
    /// what was told has been written and flushed, before more is read. A program that leaves this
    /// out keeps nothing.
    fn keep<R: Files + Clock>(
        &self,
        rt: &R,
        alloc: Global,
        options: &Self::Options,
        intake: Self::Intake,
    ) -> Result<Self::Intake, Failure<Self::Refusal, Self::Finding>>
        ensures taken { IfOk result (λ next. (before told : List ℕ)
            → promise.taken options.now intake before told
            → promise.taken options.now next before told) }
        ensures stops { IfErr result (StopsAnyhow promise options.now) }
    {
        Ok(intake)
    }

    /// How many calls the intake has, where the arguments ask that progress is told.
    fn progress(&self, options: &Self::Options, intake: &Self::Intake) -> Option<u64>
        ensures { (arguments : List Text) → promise.asks arguments options.now
            → is_some result ≡ promise.tells arguments };

    ghost simple: { is_simple_and_free promise.app ≡ true };
}
