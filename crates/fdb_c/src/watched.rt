//! A log that is watched as it grows, and what was said of it last.

ghost use Rattle.std.specs.Prelude.{◌≡◌, ◌≢◌, ◌↔◌, ◌⊎◌, ℕ, Err, IfErr, IfOk, MatchOption, None};
ghost use Rattle.std.specs.Prelude.{Some, false, true};
ghost use Rattle.fdb_audit.specs.declared.printer.LogFault.{LogFault};
ghost use Rattle.fdb_c.specs.Audit.{IsRefusal, IsToldWhy, IsUntold, asked_with};
ghost use Rattle.fdb_c.specs.Watch.{GoesOnOrEnds, HasCounted, HasTold, IsKept, IsKeptGiven};
ghost use Rattle.fdb_c.specs.Watch.{IsToldBesides, IsWatchEnded, IsWatchVerdict, kept_refused};
ghost use Rattle.fdb_c.specs.Watch.{new_watch, opts_in, restored, status_of_why, unjudged_at};
ghost use Rattle.fdb_c.specs.Watch.{wanted_in, with_bytes};

use crate::audit::{FdbRefused, refuse};
use crate::audit_listing::write_text;
use crate::status::{
    FDB_FAULT, FDB_MEMORY, FDB_NOT_KEPT, FDB_OK, FDB_OVER, FDB_ROOM, FDB_UNJUDGED,
    status_of_writing,
};
use crate::watch_options::{FdbWatchCounted, FdbWatchOptions, Story, asked_of, counted_of};
use fdb_audit::{AuditArguments, Follower, KeptRefused, LogFault, Said};
use fdb_log_reader::ReadError;
use std::alloc::{AllocError, Global};
use std::marker::Model;
use std::mem;

/// A watch, and what it said last.
#[derive(Drop)]
pub struct Watched {
    asked: AuditArguments,
    /// How far behind the newest end a line may begin.
    behind: u64,
    /// None once the log has ended, or memory was refused.
    follower: Option<Follower>,
    /// What was said last.
    text: String,
    /// What was warned of by then: lines that were refused, or came early.
    warnings: String,
    /// The text of the lines that are kept, where there was no room for it and nothing has come or
    /// been told since.
    kept: Option<String>,
    story: Story,
}

impl Model for Watched {
    ghost use Rattle.std.specs.Prelude.{IfSome, is_none, string_bytes};
    ghost use Rattle.fdb_c.specs.Audit.{asked_in};
    ghost use Rattle.fdb_audit.specs.Watched.{HasFollowed, HasSaid};
    ghost use Rattle.fdb_c.specs.Watch.{IsKeptOf, Watch, started};

    ghost Value = { Watch };

    ghost view = { λ it.
        record {
          asked = asked_in it.asked;
          behind = it.behind;
          from = it.story.from;
          bytes = it.story.bytes;
          told = it.story.told;
          warned = it.story.warned;
          text = string_bytes it.text;
          warnings = string_bytes it.warnings;
          is_over = is_none it.follower;
        } };

    ghost invariant = { λ it. IfSome it.follower
        (λ follower. HasFollowed it.asked (started it.asked it.behind it.story.from) follower
        it.story.bytes it.story.told × HasSaid it.asked
        (started it.asked it.behind it.story.from) follower it.story.bytes it.story.warned)
        × IfSome it.kept (λ text. IsKeptOf (asked_in it.asked) it.behind it.story.from
        it.story.bytes it.story.told it.story.warned (string_bytes text)) };
}

impl Watched {
    ghost use Rattle.std.specs.Prelude.{string_bytes};

    /// A watch of a log of which nothing has come.
    pub(crate) fn new(
        alloc: Global,
        options: FdbWatchOptions,
        key: &str,
        shown: &str,
    ) -> Result<Self, AllocError>
        ensures { IfOk result (λ watched. watched ≡ new_watch
            (asked_with (opts_in options) (wanted_in options) key.now shown.now)
            options.behind) }
    {
        let asked = asked_of(alloc, options, key, shown)?;
        let follower = Follower::new(alloc, &asked, options.behind)?;
        Ok(Watched {
            asked,
            behind: options.behind,
            follower: Some(follower),
            text: String::new(alloc),
            warnings: String::new(alloc),
            kept: None,
            story: Story::new(),
        })
    }

    /// A watch that goes on by a text of kept lines, or why that is refused.
    pub(crate) fn restore(
        alloc: Global,
        options: FdbWatchOptions,
        key: &str,
        shown: &str,
        text: &[u8],
    ) -> Result<Result<Self, KeptRefused>, AllocError>
        ensures made { IfOk result (λ it. IfOk it (λ watched. watched ≡ restored
            (asked_with (opts_in options) (wanted_in options) key.now shown.now)
            options.behind text.now)) }
        ensures told { IfOk result (λ it. IfOk it HasTold) }
    {
        let asked = asked_of(alloc, options, key, shown)?;
        let follower = match Follower::restore(alloc, &asked, options.behind, text)? {
            Ok(follower) => follower,
            Err(refused) => return Ok(Err(refused)),
        };
        Ok(Ok(Watched {
            asked,
            behind: options.behind,
            follower: Some(follower),
            text: String::new(alloc),
            warnings: String::new(alloc),
            kept: None,
            story: Story::of_kept(&text),
        }))
    }

    /// What was said last.
    pub(crate) fn text(&self) -> &str
        ensures { result.now ≡ self.now.text }
    {
        self.text.as_str()
    }

    /// What was warned of by then: lines that were refused, or came early.
    pub(crate) fn warnings(&self) -> &str
        ensures { result.now ≡ self.now.warnings }
    {
        self.warnings.as_str()
    }

    /// How much has come, and how far it was told, unless the watch is over.
    pub(crate) fn counts(&self) -> Option<FdbWatchCounted>
        ensures { MatchOption result (self.now.is_over ≡ true)
            (λ counts. (self.now.is_over ≡ false) × HasCounted self.now counts) }
    {
        match &self.follower {
            Some(follower) => Some(counted_of(follower.progress())),
            None => None,
        }
    }

    /// Writes the text of the lines that are kept to the start of `text`, and its size. Where there is
    /// no room for it, it is held for the next time.
    pub(crate) fn keep(&mut self, text: &mut [u8], size: &mut u64) -> u8
        ensures given { IsKeptGiven self.old text.old text.new size.old size.new result }
        ensures kept { self.new ≡ self.old }
    {
        let kept = match self.take_kept() {
            Ok(kept) => kept,
            Err(status) => return status,
        };
        let is_written = write_text(kept.as_str(), text, size);
        if !is_written {
            self.kept = Some(kept);
        }
        status_of_writing(is_written)
    }

    /// The text of the lines that are kept: what is held, or else made anew.
    fn take_kept(&mut self) -> Result<String, u8>
        ensures kept { IfOk result (λ text. IsKept self.old (string_bytes text)) }
        ensures over { (result ≡ Err FDB_OVER) ↔ (self.old.is_over ≡ true) }
        ensures statuses { IfErr result (λ status. (status ≡ FDB_NOT_KEPT) ⊎ (status ≡ FDB_OVER)
            ⊎ (status ≡ FDB_MEMORY)) }
        ensures same { self.new ≡ self.old }
    {
        let Some(follower) = &self.follower else {
            return Err(FDB_OVER);
        };
        if let Some(kept) = mem::replace(&mut self.kept, None) {
            return Ok(kept);
        }
        let Ok(made) = follower.kept("") else {
            return Err(FDB_MEMORY);
        };
        let Ok(text) = made else {
            return Err(FDB_NOT_KEPT);
        };
        Ok(text)
    }

    /// Reads on. Where memory is refused, the watch is over.
    pub(crate) fn push(&mut self, bytes: &[u8]) -> u8
        ensures ok { (result ≡ FDB_OK) → self.new ≡ with_bytes self.old bytes.now }
        ensures told { (result ≡ FDB_OK) → HasTold self.new }
        ensures goes_on { GoesOnOrEnds self.old self.new result }
    {
        let Some(mut follower) = mem::replace(&mut self.follower, None) else {
            return FDB_OVER;
        };
        match follower.feed(bytes) {
            Ok(()) => {
                self.story = Story::with_bytes(&self.story, &bytes);
                self.follower = Some(follower);
                let_go(&mut self.kept);
                FDB_OK
            }
            Err(_) => FDB_MEMORY,
        }
    }

    /// Says what has become certain. Where memory is refused, the watch is over.
    pub(crate) fn tell(&mut self, is_idle: bool) -> u8
        ensures ok { (result ≡ FDB_OK)
            → IsToldBesides self.old self.new × (self.new.is_over ≡ false) }
        ensures told { (result ≡ FDB_OK) → HasTold self.new }
        ensures goes_on { GoesOnOrEnds self.old self.new result }
    {
        let Some(mut follower) = mem::replace(&mut self.follower, None) else {
            return FDB_OVER;
        };
        match follower.tell(is_idle) {
            Ok(said) => {
                self.story = Story::with_text(&self.story, &said.text);
                self.story = Story::with_warnings(&self.story, &said.warnings);
                self.follower = Some(follower);
                self.text = said.text;
                self.warnings = said.warnings;
                let_go(&mut self.kept);
                FDB_OK
            }
            Err(_) => FDB_MEMORY,
        }
    }

    /// Says what is left, where the log ends here: the watch is then over. The status is the verdict,
    /// or why the last line was refused that was, or that lines came early.
    pub(crate) fn end(&mut self, refused: &mut FdbRefused) -> u8
        ensures ended { IsWatchEnded self.old self.new result }
        ensures verdict { IsWatchVerdict self.new refused.new result }
        ensures untold { IsUntold (IsRefusal result ⊎ (result ≡ FDB_UNJUDGED)) self.old.is_over
            refused.old refused.new result }
        ensures statuses { (result ≡ FDB_OK) ⊎ (result ≡ FDB_FAULT) ⊎ (result ≡ FDB_MEMORY)
            ⊎ (result ≡ FDB_UNJUDGED) ⊎ IsRefusal result }
    {
        let Some(follower) = mem::replace(&mut self.follower, None) else {
            return FDB_OVER;
        };
        match follower.finish() {
            Ok(end) => {
                self.story = Story::with_text(&self.story, &end.said.text);
                self.story = Story::with_warnings(&self.story, &end.said.warnings);
                self.text = end.said.text;
                self.warnings = end.said.warnings;
                let_go(&mut self.kept);
                status_at_end(end.found, end.refused, end.last_early, refused)
            }
            Err(_) => FDB_MEMORY,
        }
    }
}

/// Lets go of a text that was held, if one was.
fn let_go(held: &mut Option<String>)
    ensures { held.new ≡ None }
{
    *held = None;
}

/// The verdict of a log that was watched, or why the last line was refused that was, or that lines
/// came early, and which was the last of them: a fault goes first, and a refusal second.
fn status_at_end(
    found: Option<LogFault>,
    left_out: Option<ReadError>,
    last_early: Option<u64>,
    refused: &mut FdbRefused,
) -> u8
    ensures ok { (result ≡ FDB_OK) → (found ≡ None) × (left_out ≡ None) × (last_early ≡ None) }
    ensures fault { (result ≡ FDB_FAULT) → (first : LogFault) × (found ≡ Some first) }
    ensures unjudged { (result ≡ FDB_UNJUDGED) → (found ≡ None) × (left_out ≡ None)
        × (line : ℕ) × (last_early ≡ Some line) × (refused.new ≡ unjudged_at line) }
    ensures refused { IsRefusal result → (found ≡ None)
        × IsToldWhy (λ error. left_out ≡ Some error) refused.new result }
    ensures untold { ¬ (IsRefusal result ⊎ (result ≡ FDB_UNJUDGED))
        → refused.new ≡ refused.old }
    ensures statuses { (result ≡ FDB_OK) ⊎ (result ≡ FDB_FAULT) ⊎ (result ≡ FDB_MEMORY)
        ⊎ (result ≡ FDB_UNJUDGED) ⊎ IsRefusal result }
    ensures not_over { result ≢ FDB_OVER }
{
    if found.is_some() {
        return FDB_FAULT;
    }
    match left_out {
        Some(error) => refuse(error, refused),
        None => match last_early {
            Some(line) => {
                *refused = FdbRefused { line, member: 0 };
                FDB_UNJUDGED
            }
            None => FDB_OK,
        },
    }
}

/// Refuses a text of kept lines by the status, and tells the line.
pub(crate) fn refuse_kept(it: KeptRefused, refused: &mut FdbRefused) -> u8
    ensures status { result ≡ status_of_why it.why }
    ensures told { ((result ≡ FDB_MEMORY) × (refused.new ≡ refused.old))
        ⊎ (IsRefusal result × (refused.new ≡ kept_refused it)) }
{
    match it.why {
        Some(why) => refuse(ReadError { line: it.line, why }, refused),
        None => {
            *refused = FdbRefused {
                line: it.line,
                member: 0,
            };
            FDB_NOT_KEPT
        }
    }
}
