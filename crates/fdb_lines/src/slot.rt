//! What the register and the sequencer are asked, one after another, as the steps of an order, and
//! where in it each stands.

ghost use Rattle.std.specs.Prelude.{◌≡◌, ◌<◌, ◌^◌, Some, option_map};

use crate::line::{Line, Operation};

/// An effect of a history, with its version. A commit is two of them: it asks, and reports.
#[derive(Clone, Copy, Debug, PartialEq, Eq)]
pub enum Effect {
    /// The sequencer draws a commit version (`GetCommitVersionRequest`).
    Asks(u64),
    /// A version is reported as committed (`reportLiveCommittedVersion`).
    Reports(u64),
    /// The newest version that was reported is read (`getLiveCommittedVersion`).
    Reads(u64),
}

/// An effect of an order, and the line whose effect it is.
#[derive(Clone, Copy, Debug, PartialEq, Eq)]
pub struct OrderStep {
    pub effect: Effect,
    /// The place of the line, counted from 0. There is none where others did this, who logged
    /// nothing.
    pub place: Option<u32>,
    /// Whether this is the effect of the step above once more: commits may share a version.
    pub shared: bool,
}

/// Where effects stand among those of a level: the version, or of a late report what was known.
#[derive(Clone, Copy, Debug, PartialEq, Eq, PartialOrd, Ord)]
pub(crate) enum Stage {
    /// The version is asked for, once for all lines that need it.
    Asked,
    /// Commits that share the version report it, or callers who logged nothing.
    Shared,
    /// It is reported by one who knew less.
    Raising,
    /// It is read, or an older version is reported.
    Shown,
}

/// Where an effect stands: by level and stage, then by when the call began, then by line. Of effects that
/// may be of several lines `began` and `place` are 0.
#[derive(Clone, Copy, Debug, PartialEq, Eq, PartialOrd, Ord)]
pub(crate) struct Key {
    pub(crate) level: u64,
    pub(crate) stage: Stage,
    pub(crate) began: u64,
    pub(crate) place: u32,
    ghost fits: { place < 2 ^ 33 },
}

/// An effect where it stands, and the line whose effect it is. There is none where others did it.
#[derive(Clone, Copy, Debug, Drop)]
pub(crate) struct Slot {
    pub(crate) key: Key,
    pub(crate) effect: Effect,
    pub(crate) place: Option<u32>,
}

impl Slot {
    ghost use Rattle.fdb_lines.specs.private.Slots.{ask_entry, entry_of, item_by, take_entry};
    ghost use Rattle.fdb_lines.specs.private.Slots.{report_entry};

    /// An effect that may be of several lines, or of none.
    fn sharing(level: u64, stage: Stage, effect: Effect, place: Option<u32>) -> Self
        ensures { entry_of result ≡ (item_by level stage 0 0 effect, place) }
    {
        Slot {
            place,
            ..Slot::single(level, stage, 0, 0, effect)
        }
    }

    /// An effect of one line alone, which stands by when that began.
    fn single(level: u64, stage: Stage, began: u64, place: u32, effect: Effect) -> Self
        ensures { entry_of result ≡ (item_by level stage began place effect, Some place) }
    {
        let key = Key {
            level,
            stage,
            began,
            place,
        };
        let place = Some(place);
        Slot { key, effect, place }
    }

    /// The ask of a line, if it needs one.
    pub(crate) fn ask(line: &Line, place: u32, start: u64) -> Option<Self>
        ensures { option_map entry_of result ≡ ask_entry line.now place start }
    {
        let version = line.call.version();
        let of = if line.call.draws() { Some(place) } else { None };
        match line.call {
            Operation::Learn(_) => None,
            Operation::Read(_) if version == start => None,
            _ => Some(Slot::sharing(version, Stage::Asked, Effect::Asks(version), of)),
        }
    }

    /// The read or report of a line, if it has one.
    pub(crate) fn take(line: &Line, place: u32, known: u64) -> Option<Self>
        ensures { option_map entry_of result ≡ take_entry line.now place known }
    {
        let began = line.began();
        match line.call {
            Operation::Read(version) => {
                Some(Slot::single(version, Stage::Shown, began, place, Effect::Reads(version)))
            }
            Operation::Commit(version) => {
                let effect = Effect::Reports(version);
                Some(Slot::sharing(version, Stage::Shared, effect, Some(place)))
            }
            Operation::Report(version) if known < version => {
                Some(Slot::single(
                    version,
                    Stage::Raising,
                    began,
                    place,
                    Effect::Reports(version),
                ))
            }
            Operation::Report(version) => {
                Some(Slot::single(known, Stage::Shown, began, place, Effect::Reports(version)))
            }
            _ => None,
        }
    }

    /// The report by others of what a line read, if it needs one.
    pub(crate) fn report(line: &Line, start: u64, reported: bool) -> Option<Self>
        ensures { option_map entry_of result ≡ report_entry line.now start reported }
    {
        let version = line.call.version();
        if !line.call.is_read() || version == start || reported {
            return None;
        }
        Some(Slot::sharing(version, Stage::Shared, Effect::Reports(version), None))
    }
}
