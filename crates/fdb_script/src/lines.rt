//! The lines of the printed text, each without its newline.

ghost use Rattle.std.specs.Prelude.{◌≡◌};
ghost use Rattle.fdb_script.specs.Text.{act_text, fresh_text, raised_text};

use crate::script::Act;
use fdb_history::{Call, CallAnswer, Event, Input, Record, TagLimit};
use std::fmt;

/// A tag, each of its bytes as the character of that number.
#[derive(Clone, Copy)]
struct TagText<'a>(&'a [u8]);

impl fmt::Display for TagText<'_> {
    ghost use Rattle.std.specs.Prelude.{Some, encode_utf8};
    ghost use Rattle.std.specs.List.{flat_map};

    ghost output = { λ tag. Some (flat_map encode_utf8 tag.0.now) };

    fn fmt<W: fmt::Write>(&self, f: &mut fmt::Formatter<W>) -> fmt::Result {
        for byte in self.0 {
            f.write_char(char::from(*byte))?;
        }
        Ok(())
    }
}

/// The limits of a read's tags, each with a space before it.
#[derive(Clone, Copy)]
struct LimitsText<'a>(&'a [TagLimit]);

impl fmt::Display for LimitsText<'_> {
    ghost use Rattle.std.specs.Prelude.{Some};
    ghost use Rattle.std.specs.List.{flat_map};
    ghost use Rattle.fdb_script.specs.Text.{limit_text};

    ghost output = { λ limits. Some (flat_map limit_text limits.0.now) };

    fn fmt<W: fmt::Write>(&self, f: &mut fmt::Formatter<W>) -> fmt::Result {
        for limit in self.0 {
            let tag = TagText(limit.tag.as_slice());
            write!(f, " limit {tag} {} {}", limit.rate, limit.expires)?;
        }
        Ok(())
    }
}

/// The version that a read got, which is told where it asked for the minimum known committed
/// version, with a space before it.
#[derive(Clone, Copy)]
struct UsedText<'a> {
    input: &'a Input,
    rec: Record,
}

impl fmt::Display for UsedText<'_> {
    ghost use Rattle.std.specs.Prelude.{Some};
    ghost use Rattle.fdb_script.specs.Text.{used_text};

    ghost output = { λ used. Some (used_text used.input.now used.rec) };

    fn fmt<W: fmt::Write>(&self, f: &mut fmt::Formatter<W>) -> fmt::Result {
        match self.input {
            Input::Grv(opts) if opts.use_min => {
                let version = self.rec.version_for(opts.use_min);
                write!(f, " used {version}")
            }
            _ => Ok(()),
        }
    }
}

/// What is printed of a call's answer, after the word of its act.
#[derive(Clone, Copy)]
struct AnswerText<'a>(&'a Call);

impl fmt::Display for AnswerText<'_> {
    ghost use Rattle.std.specs.Prelude.{Some};
    ghost use Rattle.fdb_script.specs.Text.{answer_text};

    ghost output = { λ call.
        Some (answer_text call.0.now.input call.0.now.position call.0.now.answer) };

    fn fmt<W: fmt::Write>(&self, f: &mut fmt::Formatter<W>) -> fmt::Result {
        let position = self.0.position;
        match &self.0.answer {
            CallAnswer::Version {
                rec,
                locked_out: true,
                ..
            } => write!(f, "refused Locked {} pos {position}", rec.version),
            CallAnswer::Version {
                rec,
                limits,
                locked_out: false,
            } => {
                let input = &self.0.input;
                let used = UsedText { input, rec: *rec };
                let limits = LimitsText(limits.as_slice());
                write!(f, "{rec}{used} pos {position}{limits}")
            }
            CallAnswer::Answered(issued) => {
                let fresh = fresh_word(issued.fresh);
                write!(
                    f,
                    "prev {} version {} ordinal {} {fresh}",
                    issued.prev, issued.version, issued.ordinal
                )
            }
            CallAnswer::Acked {
                rec,
                raised,
                changed,
            } => {
                let raised = raised_words(*raised, *changed);
                write!(f, "{} {raised} pos {position}", rec.version)
            }
            CallAnswer::Told => match &self.0.input {
                Input::Tell { to } => write!(f, "{to} pos {position}"),
                Input::Learn { from } => write!(f, "{from} pos {position}"),
                _ => write!(f, "pos {position}"),
            },
            CallAnswer::Refused(cause) => write!(f, "refused {cause}"),
        }
    }
}

/// `fresh` where this request drew the version, `kept` where an earlier answer is given again.
fn fresh_word(fresh: bool) -> &'static str
    ensures { result.now ≡ fresh_text fresh }
{
    if fresh { "fresh" } else { "kept" }
}

/// Whether a report raised the live committed version, or the minimum known committed version
/// alone, or neither.
fn raised_words(raised: bool, changed: bool) -> &'static str
    ensures { result.now ≡ raised_text raised changed }
{
    match (raised, changed) {
        (true, _) => "raised",
        (false, true) => "min raised",
        (false, false) => "not raised",
    }
}

/// The word that a script has for an act.
fn act_word(act: &Act) -> &'static str
    ensures { result.now ≡ act_text act.now }
{
    match act {
        Act::Grv(_) => "grv",
        Act::Ask { .. } => "ask",
        Act::Reask { .. } => "reask",
        Act::Report { .. } => "report",
        Act::Tell { .. } => "tell",
    }
}

/// The line of a command: who did what where, and the reply.
#[derive(Clone, Copy)]
pub(crate) struct ReplyLine<'a> {
    pub(crate) round: u64,
    pub(crate) client: u64,
    /// The command's place in the round, counted from 0.
    pub(crate) number: u64,
    pub(crate) act: &'a Act,
    /// The call by which the client did it, with its answer.
    pub(crate) call: &'a Call,
}

impl fmt::Display for ReplyLine<'_> {
    ghost use Rattle.std.specs.Prelude.{Some};
    ghost use Rattle.fdb_script.specs.Text.{reply_text};

    ghost output = { λ line.
        Some (reply_text line.round line.client line.number line.act.now line.call.now) };

    fn fmt<W: fmt::Write>(&self, f: &mut fmt::Formatter<W>) -> fmt::Result {
        write!(
            f,
            "{} {} {} {} {}",
            self.round,
            self.client,
            self.number,
            act_word(self.act),
            AnswerText(self.call)
        )
    }
}

/// The line of an audit that found no fault.
#[derive(Clone, Copy)]
pub(crate) struct AuditLine {
    /// How many reads and reports were answered.
    pub(crate) events: u64,
    /// How many of them are reports that raised the live committed version.
    pub(crate) raised: u64,
    /// How many commit versions were drawn, reported or not.
    pub(crate) versions: u64,
}

impl fmt::Display for AuditLine {
    ghost use Rattle.std.specs.Prelude.{Some};
    ghost use Rattle.fdb_script.specs.Text.{counts_text};

    ghost output = { λ line. Some (counts_text line.events line.raised line.versions) };

    fn fmt<W: fmt::Write>(&self, f: &mut fmt::Formatter<W>) -> fmt::Result {
        write!(
            f,
            "audit ok events {} raised {} versions {}",
            self.events, self.raised, self.versions
        )
    }
}

/// The line of an event, read or report, in the history.
#[derive(Clone, Copy)]
pub(crate) struct HistoryLine<'a> {
    /// The event's place in the history, counted from 0.
    pub(crate) number: u64,
    pub(crate) event: &'a Event,
}

impl fmt::Display for HistoryLine<'_> {
    ghost use Rattle.std.specs.Prelude.{Some};
    ghost use Rattle.fdb_script.specs.Text.{history_text};

    ghost output = { λ line. Some (history_text line.number line.event.now) };

    fn fmt<W: fmt::Write>(&self, f: &mut fmt::Formatter<W>) -> fmt::Result {
        let number = self.number;
        match self.event {
            Event::Read { client, call, rec } => {
                write!(f, "history {number} client {client} call {call} read {rec}")
            }
            Event::Report {
                client,
                call,
                rec,
                raised,
                changed,
            } => {
                let raised = raised_words(*raised, *changed);
                write!(
                    f,
                    "history {number} client {client} call {call} report {rec} {raised}"
                )
            }
        }
    }
}
