//! An audit that watches a log with keys: each key is watched by itself.

ghost use Rattle.std.specs.Prelude.{◌≡◌, ◌⊎◌, ◌<◌, ◌≤◌, ◌++◌, ◌∷◌, ℕ, All, List, IfErr, IfOk, []};
ghost use Rattle.std.specs.Prelude.{IfSome, None, OnErr, OnOk, Option, Some, false, true, ◌↔◌};
ghost use Rattle.std.specs.Prelude.{◌==◌, cond, length, max, slice_index_or, IsPermutation};
ghost use Rattle.std.specs.BTreeMap.{get};
ghost use Rattle.std.specs.Ordering.{nat_cmp};
ghost use Rattle.fdb_lines.specs.Before.{began};
ghost use Rattle.fdb_lines.specs.KeyParts.{names_of, HaveStayed};
ghost use Rattle.fdb_lines.specs.Lines.{has_times, Lines};
ghost use Rattle.fdb_lines.specs.Log.{refusal_of};
ghost use Rattle.fdb_lines.specs.private.Keys.{number_of, AreNumbered};
ghost use Rattle.fdb_lines.specs.private.KeyParts.{flags_of, AreOpen, IsAlike};
ghost use Rattle.fdb_lines.specs.declared.fault.Found.{Found};
ghost use Rattle.fdb_lines.specs.declared.key_part.KeyPart.{KeyPart};
ghost use Rattle.fdb_lines.specs.declared.line.Line.{Line};

use crate::key_part::{KeptLine, KeyPart, SettledKey};
use crate::key_parts::{add_line, finish_parts, keep_open, kept_lines, next_parts, put_parts};
use crate::line::Line;
use crate::log::{LineError, Log, number_of};
use crate::watch::WatchError;
use std::alloc::{AllocError, Global};
use std::collections::BTreeMap;

/// An audit that watches a log each line of which may have a key. Each key is a register of its
/// own, and the lines without a key are one register more: the lines of each register are watched
/// by a [`Watch`](crate::Watch) of their own.
///
/// A push is logarithmic in the keys. A settling goes over the keys alone to which a line was added
/// since they settled last, and those that still keep more than two lines, or one of which it was
/// not yet time to tell. All others are quiet, and stay as they are: such a key goes on from the
/// moment up to which it settled last.
#[derive(Drop)]
pub struct KeyWatch {
    margin: u64,
    horizon: u64,
    from: u64,
    count: u64,
    parts: Vec<KeyPart>,
    numbers: BTreeMap<u64, usize>,
    open_parts: Vec<usize>,
    ghost numbered: { AreNumbered (λ q. get nat_cmp numbers q) (names_of parts.items) },
    ghost alike: { All (IsAlike margin horizon from) parts.items },
    ghost opened: { AreOpen (flags_of parts.items) open_parts.items },
}

impl KeyWatch {
    ghost use Rattle.fdb_lines.specs.declared.watch.WatchError.TheVariants.{NoTimes};
    ghost use Rattle.fdb_lines.specs.KeyWatch.{AreKept, AreTold, SettlesOrStays, HasEntry};
    ghost use Rattle.fdb_lines.specs.KeyWatch.{HasNothingToTell, HasSeenByKey, IsLogOf, KeepsOn};
    ghost use Rattle.fdb_lines.specs.KeyWatch.{GoesTo, IsJudgedFrom, not_settled, settled_in};
    ghost use Rattle.fdb_lines.specs.KeyParts.{lines_of_one};
    ghost use Rattle.fdb_lines.specs.Watch.{refusal_in, IsRefusedFor};
    ghost use Rattle.fdb_lines.specs.ToldByKey.{audited, told_by_all, HasTold};

    /// A watch that has seen no line. Margin and horizon are in the unit of the times: the clocks
    /// of two clients may be `margin` apart, and a line that comes late is judged if it began at
    /// most `horizon` before the moment up to which its key has settled.
    pub fn new(alloc: Global, margin: u64, horizon: u64) -> Self
        ensures seen { HasSeenByKey result [] [] }
        ensures told { HasTold result [] [] [] }
        ensures far { (key : Option ℕ) → settled_in result.parts.items key ≡ not_settled }
        ensures from { result.from ≡ 0 }
        ensures margin { result.margin ≡ margin }
        ensures horizon { result.horizon ≡ horizon }
    {
        KeyWatch {
            margin,
            horizon,
            from: 0,
            count: 0,
            parts: Vec::new(alloc),
            numbers: BTreeMap::new(alloc),
            open_parts: Vec::new(alloc),
        }
    }

    /// The moment up to which it has settled.
    pub fn settled_to(&self) -> u64
        ensures { result ≡ self.now.from }
    {
        self.from
    }

    /// The moment from which on the next line of a key is judged: a line that begins then or later
    /// is, even if it comes late. It is 0 where the key has no line yet.
    pub fn judged_from(&self, key: Option<u32>) -> u64
        ensures { IsJudgedFrom self.now.parts.items key result }
    {
        match self.numbers.get(&number_of(key)) {
            Some(place) => self.parts[*place].watch.judged_from(),
            None => 0,
        }
    }

    /// The lines that it keeps, of each key in the order in which they came.
    pub fn kept(&self, alloc: Global) -> Result<Vec<KeptLine>, AllocError>
        ensures { IfOk result (λ kept. (lines : List Line) → (keys : List (Option ℕ))
            → HasSeenByKey self.now lines keys
            → AreKept lines keys self.now.parts.items kept.items) }
    {
        let kept = kept_lines(alloc, &self.parts)?;
        Ok(kept)
    }

    /// Adds a line of a key, or of none. An error says why it is refused; nothing is added then.
    pub fn push(&mut self, alloc: Global, key: Option<u32>, line: Line) -> Result<(), WatchError>
        ensures ok { OnOk result ((lines : List Line) → (keys : List (Option ℕ))
            → HasSeenByKey self.old lines keys
            → HasSeenByKey self.new (lines ++ line ∷ []) (keys ++ key ∷ [])) }
        ensures told { OnOk result ((lines : List Line) → (keys : List (Option ℕ))
            → (told : List Found) → HasSeenByKey self.old lines keys
            → HasTold self.old lines keys told → self.old.from ≤ began line
            → HasTold self.new (lines ++ line ∷ []) (keys ++ key ∷ []) told) }
        ensures taken { OnOk result (has_times line ≡ true) }
        ensures untimed { IfErr result (λ error. error ≡ NoTimes ↔ (has_times line ≡ false)) }
        ensures refused { (log : Lines) × IsLogOf self.old.parts.items key log
            × OnOk result (refusal_in self.old.count log line ≡ None)
            × IfErr result (IsRefusedFor (refusal_in self.old.count log line)) }
        ensures err { OnErr result ((lines : List Line) → (keys : List (Option ℕ))
            → HasSeenByKey self.old lines keys → HasSeenByKey self.new lines keys) }
        ensures stays { HaveStayed self.old.parts.items self.new.parts.items }
        ensures far { OnOk result ((key : Option ℕ)
            → settled_in self.new.parts.items key ≡ settled_in self.old.parts.items key) }
        ensures settled { self.new.from ≡ self.old.from }
        ensures margin { (self.new.margin ≡ self.old.margin)
            × (self.new.horizon ≡ self.old.horizon) }
    {
        if let Some(error) = self.refusal(key, &line) {
            return Err(error);
        }
        if let Some(place) = self.numbers.get(&number_of(key)).copied() {
            if let Err(_refused) = add_line(
                &mut self.parts,
                &mut self.open_parts,
                place,
                line,
                self.count,
            ) {
                return Err(WatchError::Line(LineError::Memory));
            }
            self.count += 1;
            return Ok(());
        }
        self.push_first(alloc, key, line)
    }

    /// Why a line of a key is not taken, if it is not, but for want of memory.
    fn refusal(&self, key: Option<u32>, line: &Line) -> Option<WatchError>
        ensures why { (log : Lines) × IsLogOf self.now.parts.items key log
            × (result ≡ refusal_in self.now.count log line.now) }
        ensures untimed { IfSome result (λ error. error ≡ NoTimes ↔ (has_times line.now ≡ false)) }
        ensures taken { result ≡ None → (has_times line.now ≡ true)
            × (self.now.count < 18446744073709551615) }
    {
        let why = self.refusal_of_key(key, line);
        if line.times.is_none() {
            return Some(WatchError::NoTimes);
        }
        if self.count == u64::MAX {
            return Some(WatchError::Line(LineError::TooMany));
        }
        match why {
            Some(error) => Some(WatchError::Line(error)),
            None => None,
        }
    }

    /// Why the lines that are kept of a key do not take a line, if they do not.
    fn refusal_of_key(&self, key: Option<u32>, line: &Line) -> Option<LineError>
        ensures { (log : Lines) × IsLogOf self.now.parts.items key log
            × (result ≡ refusal_of log line.now) }
    {
        match self.numbers.get(&number_of(key)) {
            Some(place) => self.parts[*place].watch.log.refusal(line),
            None => Log::refusal_alone(line),
        }
    }

    /// Adds the first line of a key.
    fn push_first(&mut self, alloc: Global, key: Option<u32>, line: Line) -> Result<(), WatchError>
        requires absent { get nat_cmp self.old.numbers (number_of key) ≡ None }
        requires room { self.old.count < 18446744073709551615 }
        ensures ok { OnOk result ((lines : List Line) → (keys : List (Option ℕ))
            → HasSeenByKey self.old lines keys
            → HasSeenByKey self.new (lines ++ line ∷ []) (keys ++ key ∷ [])) }
        ensures err { OnErr result ((lines : List Line) → (keys : List (Option ℕ))
            → HasSeenByKey self.old lines keys → HasSeenByKey self.new lines keys) }
        ensures memory { IfErr result (λ error. error ≡ WatchError.Line LineError.Memory) }
        ensures stays { HaveStayed self.old.parts.items self.new.parts.items }
        ensures far { OnOk result ((key : Option ℕ)
            → settled_in self.new.parts.items key ≡ settled_in self.old.parts.items key) }
        ensures settled { self.new.from ≡ self.old.from }
        ensures margin { (self.new.margin ≡ self.old.margin)
            × (self.new.horizon ≡ self.old.horizon) }
    {
        let mut part = KeyPart::new(alloc, key, self.margin, self.horizon);
        if let Err(_refused) = part.push(line, self.count) {
            return Err(WatchError::Line(LineError::Memory));
        }
        if self.open_parts.reserve(1).is_err() {
            return Err(WatchError::Line(LineError::Memory));
        }
        if self.parts.reserve(1).is_err() {
            return Err(WatchError::Line(LineError::Memory));
        }
        let place = self.parts.len();
        if let Err(_refused) = give_number(&mut self.numbers, number_of(key), place) {
            return Err(WatchError::Line(LineError::Memory));
        }
        self.open_parts.push_reserved(place);
        self.parts.push_reserved(part);
        self.count += 1;
        Ok(())
    }

    /// Settles each key up to a moment, or up to where all have settled, if that is later. What is
    /// told of a key is what its watch tells. Of a key that has no entry there is nothing to tell.
    /// Where no line began before what had been settled, each fault of the lines that began before
    /// the moment has been told once. An error only where memory is refused; all is as it was then.
    pub fn settle(&mut self, alloc: Global, at: u64) -> Result<Vec<SettledKey>, AllocError>
        ensures told { IfOk result (λ told. (lines : List Line) → (keys : List (Option ℕ))
            → HasSeenByKey self.old lines keys
            → AreTold (Some (max self.old.from at)) lines keys self.old.parts.items told.items) }
        ensures rest { IfOk result (λ told. (lines : List Line) → (keys : List (Option ℕ))
            → HasSeenByKey self.old lines keys
            → (i : ℕ) → (d : KeyPart) → i < length self.old.parts.items
            → SettlesOrStays (max self.old.from at) lines keys told.items
            (slice_index_or self.old.parts.items i d) (slice_index_or self.new.parts.items i d)) }
        ensures far { IfOk result (λ told. (lines : List Line) → (keys : List (Option ℕ))
            → HasSeenByKey self.old lines keys → (key : Option ℕ)
            → GoesTo (max self.old.from at) (length (lines_of_one lines keys key)) told.items key
            (settled_in self.old.parts.items key) (settled_in self.new.parts.items key)) }
        ensures once { IfOk result (λ entries. (lines : List Line) → (keys : List (Option ℕ))
            → (told : List Found) → HasSeenByKey self.old lines keys
            → HasTold self.old lines keys told
            → HasTold self.new lines keys (told ++ told_by_all entries.items)) }
        ensures kept { IfOk result (λ entries. All (KeepsOn self.new.parts.items) entries.items) }
        ensures seen { (lines : List Line) → (keys : List (Option ℕ))
            → HasSeenByKey self.old lines keys → HasSeenByKey self.new lines keys }
        ensures settled { OnOk result (self.new.from ≡ max self.old.from at) }
        ensures err { OnErr result (self.new ≡ self.old) }
        ensures margin { (self.new.margin ≡ self.old.margin)
            × (self.new.horizon ≡ self.old.horizon) }
    {
        let at = at.max(self.from);
        let mut next = next_parts(alloc, &self.parts, &self.open_parts, at)?;
        put_parts(
            &mut self.parts,
            &self.open_parts,
            next.parts,
            &mut next.told,
        );
        keep_open(&self.parts, &mut self.open_parts);
        self.from = at;
        Ok(next.told)
    }

    /// Tells of all lines that it has not told of. Where no line began before what had been settled,
    /// what was told in all is what an audit of all lines finds, each fault once. An error only where
    /// memory is refused.
    pub fn finish(self, alloc: Global) -> Result<Vec<SettledKey>, AllocError>
        ensures told { IfOk result (λ told. (lines : List Line) → (keys : List (Option ℕ))
            → HasSeenByKey self lines keys
            → AreTold None lines keys self.parts.items told.items) }
        ensures rest { IfOk result (λ told. (lines : List Line) → (keys : List (Option ℕ))
            → HasSeenByKey self lines keys
            → All (λ part. HasEntry told.items part.key
            ⊎ HasNothingToTell None lines keys part) self.parts.items) }
        ensures once { IfOk result (λ entries. (lines : List Line) → (keys : List (Option ℕ))
            → (told : List Found) → HasSeenByKey self lines keys → HasTold self lines keys told
            → IsPermutation (told ++ told_by_all entries.items)
            (audited self.margin lines keys)) }
        ensures kept { IfOk result (λ entries.
            All (λ entry. entry.settled.kept.items ≡ []) entries.items) }
    {
        let told = finish_parts(alloc, self.parts, &self.open_parts)?;
        Ok(told)
    }
}

/// Gives the key of a number its part.
fn give_number(
    numbers: &mut BTreeMap<u64, usize>,
    code: u64,
    place: usize,
) -> Result<(), AllocError>
    ensures ok { OnOk result ((q : ℕ) → get nat_cmp numbers.new q
        ≡ cond (q == code) (Some place) (get nat_cmp numbers.old q)) }
    ensures err { OnErr result
        ((q : ℕ) → get nat_cmp numbers.new q ≡ get nat_cmp numbers.old q) }
{
    numbers.insert(code, place)?;
    Ok(())
}
