//! How far the ends of a log's lines are believed; and when the lines of each key came, so that a
//! key can be forgotten of which none has come for long.

ghost use Rattle.std.specs.Prelude.{◌≡◌, ◌-◌, ◌≤◌, if◌then◌else◌, ℕ, [], IfSome, None, Option};
ghost use Rattle.std.specs.Prelude.{Some, is_some, option_map, unwrap_or, IfOk, OnOk, slice_get};
ghost use Rattle.std.proofs.Props.{props};
ghost use Rattle.std.specs.List.{filter};
ghost use Rattle.fdb_audit.specs.Clocks.{believed_from};
ghost use Rattle.fdb_audit.specs.private.KeyTimes.{is_near};

use fdb_lines::{KeptLine, Line};
use std::alloc::{AllocError, Global};

/// How far the ends of lines are believed that have come. One clock that is ahead moves nothing: an
/// end far ahead is believed no further than another client's line has ended. Where no line of
/// another client has ended, any line above counts.
#[derive(Clone, Copy, Debug)]
pub(crate) struct Clocks {
    /// So far ahead of what is known an end may be.
    pub(crate) behind: u64,
    /// The newest end that is believed.
    pub(crate) believed: u64,
    /// The newest end.
    newest: u64,
    /// Of the clients that are known the one with the newest end.
    leader: Option<Leader>,
    /// The newest end of all others that are known, if one of them has ended a call.
    second: Option<u64>,
    /// The newest end that was found to be ahead of a line that came later.
    pub(crate) ahead: u64,
    ghost second_is_behind: { IfSome second
        (λ second. second ≤ unwrap_or (option_map (λ leader. leader.end) leader) 0) } by { Prim.hlevel props },
}

/// A client, and the newest end of its lines.
#[derive(Clone, Copy, Debug)]
struct Leader {
    client: u32,
    end: u64,
}

impl Clocks {
    ghost use Rattle.fdb_audit.specs.Clocks.{ahead_of_end, floor_of, newer, no_clocks};
    ghost use Rattle.fdb_audit.specs.Taken.{is_client, others_of, HasHeard};
    ghost use Rattle.fdb_audit.specs.private.Clocks.{ahead_of, ahead_on, known_to, Carries};
    ghost use Rattle.fdb_audit.specs.private.Clocks.{GoesOn, Hears};

    /// No line has come.
    pub(crate) fn new(behind: u64) -> Self
        ensures heard { HasHeard no_clocks result [] }
        ensures believed { (result.believed ≡ 0) × (result.ahead ≡ 0) }
        ensures behind { result.behind ≡ behind }
    {
        Clocks {
            behind,
            believed: 0,
            newest: 0,
            leader: None,
            second: None,
            ahead: 0,
        }
    }

    /// Whether more than one client is known to log.
    pub(crate) fn are_many(&self) -> bool
        ensures { result ≡ is_some self.now.second }
    {
        self.second.is_some()
    }

    /// The moment before which no line is expected to begin any more.
    pub(crate) fn certain_to(&self) -> u64
        ensures { result ≡ self.now.believed - self.now.behind }
    {
        self.believed.saturating_sub(self.behind)
    }

    /// Goes on where it was settled up to a moment, so that ends were believed that far ahead of that,
    /// and more than one client is known to log or not: then none vouches for itself.
    pub(crate) fn go_on(&mut self, settled: u64, are_many: bool)
        ensures { GoesOn self.old self.new settled are_many }
    {
        self.believed = believed_from(settled, self.behind);
        self.doubt(are_many);
    }

    /// Goes on from others that have heard more lines: what was believed stays so, and what was found to
    /// be ahead.
    pub(crate) fn carry(&mut self, others: &Clocks)
        ensures { Carries others.now self.old self.new }
    {
        self.believed = others.believed;
        self.newest = self.newest.max(others.newest);
        self.ahead = others.ahead;
        self.doubt(others.are_many());
    }

    /// Where more than one client is known to log, none vouches for itself.
    fn doubt(&mut self, are_many: bool)
        ensures others { (client : Option ℕ) → others_of self.new client
            ≡ newer (floor_of are_many) (others_of self.old client) }
        ensures behind { self.new.behind ≡ self.old.behind }
        ensures believed { self.new.believed ≡ self.old.believed }
        ensures newest { self.new.newest ≡ self.old.newest }
        ensures ahead { self.new.ahead ≡ self.old.ahead }
    {
        if are_many {
            self.second = Some(self.second.unwrap_or(0));
        }
    }

    /// Hears a line that comes: by how much another client's line above it is ahead of it, where that
    /// is more than a line may be behind, and was not found of one as new; else 0.
    pub(crate) fn hear(&mut self, line: &Line) -> u64
        ensures hears { Hears self.old self.new line.now }
        ensures ahead { result ≡ ahead_of self.old line.now }
    {
        let ahead_by = self.note_ahead(line);
        let end = line.ended().unwrap_or(0);
        let known = self.known_to(line);
        self.believed = if end > known.saturating_add(self.behind) {
            known
        } else {
            self.believed.max(end)
        };
        self.newest = self.newest.max(end);
        if let (Some(client), Some(end)) = (line.client, line.ended()) {
            self.note(client, end);
        }
        ahead_by
    }

    /// Notes that another client's line above a line is ahead of it, where it is: by how much.
    fn note_ahead(&mut self, line: &Line) -> u64
        ensures ahead { result ≡ ahead_of self.old line.now }
        ensures same { self.new ≡ record self.old { ahead = ahead_on self.old line.now } }
    {
        let others = self.others(line.client).unwrap_or(0);
        let by = self.ahead_of(others, line.ended());
        if by > 0 {
            self.ahead = others;
        }
        by
    }

    /// By how much others are ahead of an end.
    fn ahead_of(&self, others: u64, ended: Option<u64>) -> u64
        ensures { result ≡ ahead_of_end self.now.behind self.now.ahead others ended }
    {
        match ended {
            Some(end) if others > self.ahead && others > end.saturating_add(self.behind) => {
                others - end
            }
            _ => 0,
        }
    }

    /// What is known when a line comes.
    fn known_to(&self, line: &Line) -> u64
        ensures { result ≡ known_to self.now line.now }
    {
        let vouched = self.others(line.client).unwrap_or(self.newest);
        self.believed.max(vouched)
    }

    /// The newest end of the lines of other clients, if one is known.
    fn others(&self, client: Option<u32>) -> Option<u64>
        ensures { result ≡ others_of self.now client }
    {
        match self.leader {
            Some(leader) if client != Some(leader.client) => Some(leader.end),
            _ => self.second,
        }
    }

    /// Notes when a line of a client ended.
    fn note(&mut self, client: u32, end: u64)
        ensures others { (other : Option ℕ) → others_of self.new other ≡ newer
            (others_of self.old other) (if is_client client other then None else Some end) }
        ensures behind { self.new.behind ≡ self.old.behind }
        ensures believed { self.new.believed ≡ self.old.believed }
        ensures newest { self.new.newest ≡ self.old.newest }
        ensures ahead { self.new.ahead ≡ self.old.ahead }
    {
        match self.leader {
            Some(leader) if leader.client == client => {
                self.leader = Some(Leader {
                    client,
                    end: leader.end.max(end),
                });
            }
            Some(leader) if end <= leader.end => {
                self.second = Some(self.second.unwrap_or(0).max(end));
            }
            Some(leader) => {
                self.second = Some(leader.end);
                self.leader = Some(Leader { client, end });
            }
            None => self.leader = Some(Leader { client, end }),
        }
    }
}

/// How far ends were believed where all was told up to a moment.
fn believed_from(settled: u64, behind: u64) -> u64
    ensures { result ≡ believed_from settled behind }
{
    if settled > 0 {
        settled.saturating_add(behind)
    } else {
        0
    }
}

/// When the lines of a key came.
#[derive(Clone, Copy)]
struct LastLine {
    /// The newest end that was believed when the last one came.
    seen: u64,
    /// The newest end of one of them; where it has none yet, the moment at which it began counts.
    end: u64,
}

/// When the lines of each key came, where keys may be forgotten.
#[derive(Drop)]
pub(crate) struct KeyTimes {
    are_wanted: bool,
    /// By the keys' numbers.
    last: Vec<LastLine>,
}

impl KeyTimes {
    ghost use Rattle.fdb_audit.specs.private.KeyTimes.{is_staying, HearsKey, NotesKey, last_line};
    ghost use Rattle.fdb_audit.specs.private.KeyTimes.{seen_when};

    /// No line has come.
    pub(crate) fn new(alloc: Global, are_wanted: bool) -> Self
        ensures wanted { result.are_wanted ≡ are_wanted }
        ensures none { result.last.items ≡ [] }
    {
        KeyTimes {
            are_wanted,
            last: Vec::new(alloc),
        }
    }

    /// Notes that a line of a key came, where the newest end that is believed is this one.
    pub(crate) fn hear(
        &mut self,
        key: Option<u32>,
        line: &Line,
        believed: u64,
    ) -> Result<(), AllocError>
        ensures hears { OnOk result
            (HearsKey key (last_line believed line.now) self.old self.new) }
        ensures wanted { self.new.are_wanted ≡ self.old.are_wanted }
    {
        match key {
            Some(key) if self.are_wanted => {
                let end = line.ended().unwrap_or(line.began());
                self.note(
                    key as usize,
                    LastLine {
                        seen: believed,
                        end,
                    },
                )
            }
            _ => Ok(()),
        }
    }

    /// Notes that this is the last line of a key.
    fn note(&mut self, key: usize, line: LastLine) -> Result<(), AllocError>
        ensures notes { OnOk result (NotesKey key line self.old self.new) }
        ensures wanted { self.new.are_wanted ≡ self.old.are_wanted }
    {
        if let Some(last) = self.last.get_mut(key) {
            last.seen = line.seen;
            last.end = last.end.max(line.end);
            return Ok(());
        }
        // (a name that only lines have which were refused has a number too)
        'new: while self.last.len() <= key {
            self.last.push(line)?;
        }
        Ok(())
    }

    /// Notes of all keys that a line of theirs has just come.
    pub(crate) fn refresh(&mut self, believed: u64)
        ensures seen { (key : ℕ) → slice_get self.new.last.items key
            ≡ option_map (seen_when believed) (slice_get self.old.last.items key) }
        ensures wanted { self.new.are_wanted ≡ self.old.are_wanted }
    {
        for last in self.last.iter_mut() {
            last.seen = believed;
        }
    }

    /// Whether a key is to be remembered, where one is forgotten of which no line came within a while
    /// of the newest end that is believed. Lines without a key always are.
    pub(crate) fn is_staying(&self, forget: Option<u64>, believed: u64, key: Option<u32>) -> bool
        ensures { result ≡ is_staying self.now forget believed key }
    {
        match (forget, key) {
            (Some(after), Some(key)) => match self.last.get(key as usize) {
                Some(last) => is_recent(after, believed, *last),
                None => true,
            },
            _ => true,
        }
    }

    /// Leaves out the lines of the keys that are to be forgotten.
    pub(crate) fn forget(&self, forget: Option<u64>, believed: u64, kept: &mut Vec<KeptLine>)
        ensures { kept.new.items
            ≡ filter (λ line. is_staying self.now forget believed line.key) kept.old.items }
    {
        kept.retain(|line| self.is_staying(forget, believed, line.key));
    }

    /// Whether a quarter of all keys, or more, are to be forgotten.
    pub(crate) fn are_many_old(&self, after: u64, believed: u64) -> bool {
        let old = self
            .last
            .iter()
            .filter(|last| !is_recent(after, believed, **last))
            .count();
        old > 0 && old >= self.last.len() / 4
    }

    /// What a watch has of the keys that goes on from these lines, as it numbers them: a key comes in
    /// with its first line.
    pub(crate) fn of_lines(&self, alloc: Global, kept: &[KeptLine]) -> Result<Self, AllocError>
        ensures { IfOk result (λ next. next.are_wanted ≡ self.now.are_wanted) }
    {
        let mut next = KeyTimes::new(alloc, self.are_wanted);
        let mut is_in = Vec::new(alloc);
        for _ in 0..self.last.len() {
            is_in.push(false)?;
        }
        for line in kept {
            if let Some(last) = self.newly_in(&mut is_in, line.key) {
                next.last.push(last)?;
            }
        }
        Ok(next)
    }

    /// What there is of a key, if it was not in yet; it is then.
    fn newly_in(&self, is_in: &mut Vec<bool>, key: Option<u32>) -> Option<LastLine> {
        let key = key? as usize;
        let is_in = is_in.get_mut(key)?;
        if *is_in {
            return None;
        }
        *is_in = true;
        self.last.get(key).copied()
    }
}

/// Whether the newest end that is believed has not gone on by more than this since the last line of a
/// key came, or the newest end of its lines is that near to it.
fn is_recent(after: u64, believed: u64, last: LastLine) -> bool
    ensures { result ≡ is_near after believed last }
{
    let since = believed.saturating_sub(last.seen);
    let behind = believed.saturating_sub(last.end);
    let ahead = last.end.saturating_sub(believed);
    since <= after || (behind <= after && ahead <= after)
}
