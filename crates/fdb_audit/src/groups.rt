//! Faults by whose they are: how many the clients, and the texts of a member, with most faults
//! have.

ghost use Rattle.std.specs.Prelude.{◌≡◌, ◌++◌, ◌∷◌, ◌==◌, ℕ, All, IfOk, List, OnOk, Option, cond};
ghost use Rattle.std.specs.Prelude.{[], length, take, false, map, string_bytes, true};
ghost use Rattle.std.specs.BTreeMap.{get};
ghost use Rattle.fdb_lines.specs.declared.fault.Found.{Found};
ghost use Rattle.fdb_audit.specs.Groups.{kinds_of, number_of, of_group, AreRanked, Owned};
ghost use Rattle.fdb_audit.specs.Groups.{group_head, group_lines, groupings, owned_by, AreMost};
ghost use Rattle.fdb_audit.specs.Groups.{AreMostOfEach};
ghost use Rattle.fdb_audit.specs.private.{owners_in, grouping_of, shown_in};
ghost use Rattle.fdb_audit.specs.Tallied.{count_in, kinds_at, HasKinds, HasTallied, IsGroupIn};
ghost use Rattle.fdb_audit.specs.Text.{line};
ghost use Rattle.fdb_audit.specs.Totals.{faults_line};

use crate::figures::KindCounts;
use crate::members::MemberTexts;
use crate::printer::Printer;
use crate::reason::push_or_null;
use fdb_lines::{Fault, Found};
use std::alloc::{AllocError, Global};
use std::cmp::Reverse;
use std::collections::BTreeMap;
use std::fmt::Write;

/// How many groups are told.
const TOLD: usize = 10;

/// A group: how many faults it has, and whose they are. Groups are in order by how many, most first,
/// and then by whose.
#[derive(Clone, Copy, PartialEq, Eq, PartialOrd, Ord)]
pub(crate) struct Group {
    pub faults: Reverse<u64>,
    pub owner: Option<u32>,
}

/// Faults, counted by whose they are.
#[derive(Drop)]
pub(crate) struct Tally {
    /// Whose faults there are, in the order of their first.
    pub(crate) owners: Vec<Option<u32>>,
    /// How many each has, by its number. A table that compares: no choice of owners makes it slow, as
    /// it would one that hashes.
    pub(crate) counts: BTreeMap<u64, KindCounts>,
}

impl Tally {
    /// Of no fault.
    pub(crate) fn new(alloc: Global) -> Self
        ensures { HasTallied result [] }
    {
        Tally {
            owners: Vec::new(alloc),
            counts: BTreeMap::new(alloc),
        }
    }

    /// Counts one more.
    pub(crate) fn add(&mut self, owner: Option<u32>, fault: Fault) -> Result<(), AllocError>
        ensures { OnOk result ((owned : List Owned) → (one : Owned) → one.owner ≡ owner
            → one.kind ≡ fault → HasTallied self.old owned
            → HasTallied self.new (owned ++ one ∷ [])) }
    {
        let mut counts = self.kinds(owner);
        if counts.faults == 0 {
            self.owners.push(owner)?;
        }
        counts.add(fault)?;
        self.set(owner, counts)
    }

    /// Sets how many an owner has.
    fn set(&mut self, owner: Option<u32>, counts: KindCounts) -> Result<(), AllocError>
        ensures counts { OnOk result ((q : ℕ) → kinds_at self.new q
            ≡ cond (q == number_of owner) counts (kinds_at self.old q)) }
        ensures owners { self.new.owners ≡ self.old.owners }
    {
        self.counts.insert(number_of(owner), counts)?;
        Ok(())
    }

    /// How many an owner has.
    pub(crate) fn kinds(&self, owner: Option<u32>) -> KindCounts
        ensures at { result ≡ kinds_at self.now (number_of owner) }
        ensures counted { (owned : List Owned) → HasTallied self.now owned
            → HasKinds result (kinds_of (of_group owned owner)) }
    {
        match self.counts.get(&number_of(owner)) {
            Some(counts) => *counts,
            None => KindCounts::new(),
        }
    }

    /// The ten groups with most faults. `n log n` in how many groups there are.
    pub(crate) fn most(&self, alloc: Global) -> Result<Vec<Group>, AllocError>
        ensures { IfOk result (λ most. (owned : List Owned) → HasTallied self.now owned
            → (groups : List (Option ℕ)) × AreRanked (λ group. length (of_group owned group)) groups
            × (owners_in most.items ≡ take 10 groups)) }
    {
        let mut groups = self.groups(alloc)?;
        groups.sort_unstable();
        // Each stands once already; that no two are left is what their order is proved by.
        groups.dedup();
        groups.truncate(TOLD);
        Ok(groups)
    }

    /// All groups.
    fn groups(&self, alloc: Global) -> Result<Vec<Group>, AllocError>
        ensures owners { IfOk result (λ groups. owners_in groups.items ≡ self.now.owners.items) }
        ensures faults { IfOk result (λ groups. All (IsGroupIn (count_in self.now)) groups.items) }
    {
        let mut groups = Vec::new(alloc);
        for owner in &self.owners {
            let faults = Reverse(self.kinds(*owner).faults);
            groups.push(Group {
                faults,
                owner: *owner,
            })?;
        }
        Ok(groups)
    }
}

/// A number for each owner: 0 for none.
pub(crate) fn number_of(owner: Option<u32>) -> u64
    ensures { result ≡ number_of owner }
{
    match owner {
        Some(owner) => owner as u64 + 1,
        None => 0,
    }
}

/// What faults are grouped by: whose calls they are of, or the texts of a member.
#[derive(Clone, Copy)]
pub(crate) enum By<'a> {
    Client(Printer<'a>),
    Member(MemberTexts<'a>),
}

/// Writes how many faults of the lines there are, in all, of each kind, and of the groups with most.
pub(crate) fn push_totals(
    alloc: Global,
    out: &mut String,
    json: bool,
    printer: Printer<'_>,
    found: &[Found],
) -> Result<(), AllocError>
    ensures { OnOk result ((groups : List ℕ)
        × AreMostOfEach json (groupings (shown_in printer.entry)) found.now groups
        × (string_bytes out.new
        ≡ string_bytes out.old
        ++ line (faults_line json (map (λ (it : Found). it.fault) found.now)) ++ groups)) }
{
    kinds_of(found)?.push_line(out, json)?;
    push_most_of_each(alloc, out, json, printer, found)
}

/// How many faults there are, in all and of each kind.
fn kinds_of(found: &[Found]) -> Result<KindCounts, AllocError>
    ensures { IfOk result (λ kinds. HasKinds kinds (map (λ (it : Found). it.fault) found.now)) }
{
    let mut kinds = KindCounts::new();
    for it in found {
        kinds.add(it.fault)?;
    }
    Ok(kinds)
}

/// Writes how many faults the groups with most have: of the clients, and of each member that is
/// printed beside the calls.
fn push_most_of_each(
    alloc: Global,
    out: &mut String,
    json: bool,
    printer: Printer<'_>,
    found: &[Found],
) -> Result<(), AllocError>
    ensures { OnOk result ((text : List ℕ)
        × AreMostOfEach json (groupings (shown_in printer.entry)) found.now text
        × (string_bytes out.new ≡ string_bytes out.old ++ text)) }
{
    By::Client(printer).push_most(alloc, out, json, found)?;
    for member in printer.beside {
        By::Member(member.member()).push_most(alloc, out, json, found)?;
    }
    Ok(())
}

impl By<'_> {
    /// Writes how many faults the ten groups with most have.
    fn push_most(
        self,
        alloc: Global,
        out: &mut String,
        json: bool,
        found: &[Found],
    ) -> Result<(), AllocError>
        ensures { let by = grouping_of self.entry in OnOk result ((text : List ℕ)
            × AreMost json false by.name (owned_by by found.now) text
            × (string_bytes out.new ≡ string_bytes out.old ++ text)) }
    {
        let tally = self.tally(alloc, found)?;
        self.push_tally(alloc, out, json, &tally, false)
    }

    /// Counts faults by their groups.
    fn tally(self, alloc: Global, found: &[Found]) -> Result<Tally, AllocError>
        ensures { IfOk result (λ tally. HasTallied tally (owned_by (grouping_of self.entry) found.now)) }
    {
        let mut tally = Tally::new(alloc);
        for it in found {
            tally.add(self.owner(it.place), it.fault)?;
        }
        Ok(tally)
    }

    /// Writes how many faults the ten groups with most have, of those that are counted, and whether
    /// there are more.
    pub(crate) fn push_tally(
        self,
        alloc: Global,
        out: &mut String,
        json: bool,
        tally: &Tally,
        more: bool,
    ) -> Result<(), AllocError>
        ensures { OnOk result ((owned : List Owned) → HasTallied tally.now owned → (text : List ℕ)
            × AreMost json more (grouping_of self.entry).name owned text
            × (string_bytes out.new ≡ string_bytes out.old ++ text)) }
    {
        let most = tally.most(alloc)?;
        self.push_groups(out, json, tally, &most, more)
    }

    /// Writes some groups, a line or an object for each.
    fn push_groups(
        self,
        out: &mut String,
        json: bool,
        tally: &Tally,
        groups: &[Group],
        more: bool,
    ) -> Result<(), AllocError>
        ensures { OnOk result ((owned : List Owned) → HasTallied tally.now owned
            → string_bytes out.new ≡ string_bytes out.old ++ group_lines json more
            (grouping_of self.entry).name owned (owners_in groups.now)) }
    {
        for group in groups {
            self.push_head(out, json, group.owner)?;
            tally.kinds(group.owner).push(out, json, more)?;
            writeln!(out)?;
        }
        Ok(())
    }

    /// Writes which group it is.
    fn push_head(self, out: &mut String, json: bool, owner: Option<u32>) -> Result<(), AllocError>
        ensures { OnOk result (string_bytes out.new
            ≡ string_bytes out.old ++ group_head json (grouping_of self.entry).name owner) }
    {
        if json {
            write!(out, "{{")?;
            self.push_name(out, true, owner)?;
            write!(out, ",")
        } else {
            write!(out, "audit total")?;
            self.push_name(out, false, owner)
        }
    }

    /// Of which group the line at a place is.
    fn owner(self, place: u32) -> Option<u32>
        ensures { result ≡ (grouping_of self.entry).owner place }
    {
        match self {
            By::Client(printer) => printer.line(place).client,
            By::Member(member) => *member.numbers.get(place as usize)?,
        }
    }

    /// Writes which group it is, by its name.
    fn push_name(self, out: &mut String, json: bool, owner: Option<u32>) -> Result<(), AllocError>
        ensures { OnOk result (string_bytes out.new
            ≡ string_bytes out.old ++ (grouping_of self.entry).name json owner) }
    {
        match (self, json) {
            (By::Client(printer), false) => {
                printer.push_client_or(out, " client ", owner, " no client")
            }
            (By::Client(printer), true) => {
                printer.push_client_or(out, "\"client\":", owner, "\"client\":null")
            }
            (By::Member(member), false) => member.push_owner(out, owner),
            (By::Member(member), true) => {
                write!(out, "\"members\":{{{}:", member.name)?;
                push_or_null(out, member.value(owner))?;
                write!(out, "}}")
            }
        }
    }
}
