//! Laws of the definitions: what a reader would ask of a history and of a chain of commit versions.
//!
//! Each is the contract of a function that does nothing, so that the check proves it. It
//! holds of every list that the definitions speak of, and so of each that the service makes.

ghost use Rattle.std.specs.Prelude.{◌≡◌, ℕ, Bool, ◌+◌, ◌*◌, ◌<◌, ◌≤◌, ◌≢◌, ◌==◌, ◌&&◌, [], ◌∷◌};
ghost use Rattle.std.specs.Prelude.{◌++◌, List, length, take, slice_get, false, Some, Ok, IsTrue};
ghost use Rattle.std.specs.Prelude.{filter, option_map, true};
ghost use Rattle.std.specs.List.{All, AllPairs, find, list_any};
ghost use mathlib.Core.List.{IsPrefix};
ghost use Rattle.fdb_history.specs.Issuing.{Chain, kept, answer_to, chain_after, after_asks};
ghost use Rattle.fdb_history.specs.Chain.{IsChain, IsNext, latest};
ghost use Rattle.fdb_history.specs.Event.{IsLegal, register_after, reports_of, change_count};
ghost use Rattle.fdb_history.specs.Event.{positions_from};
ghost use Rattle.fdb_history.specs.Explained.{explained};
ghost use Rattle.fdb_history.specs.Faults.{IsFaultless};
ghost use Rattle.fdb_history.specs.Laws.{HaveMinimaWithin, seen_at};
ghost use Rattle.fdb_history.specs.Linear.{IsLinear};
ghost use Rattle.fdb_history.specs.Log.{calls_of, fresh_answers};
ghost use Rattle.fdb_history.specs.Strays.{is_justified, is_same, logged_as};
ghost use Rattle.fdb_history.specs.declared.log.TagLimit.{TagLimit};
ghost use Rattle.fdb_history.specs.declared.log.Call.{Call};
ghost use Rattle.fdb_history.specs.declared.log.CallAnswer.TheVariants.{Acked, Version};
ghost use Rattle.fdb_history.specs.declared.log.ClientLog.{ClientLog};
ghost use Rattle.fdb_history.specs.declared.log.Input.TheVariants as input;
ghost use Rattle.fdb_history.specs.declared.chain.Ask.{Ask};
ghost use Rattle.fdb_history.specs.declared.chain.Issued.{Issued};
ghost use Rattle.fdb_history.specs.declared.register.Event.{Event};
ghost use Rattle.fdb_history.specs.declared.register.Record.{Record};
ghost use Rattle.fdb_history.specs.declared.register.TheConstants.{MAX_VERSION};

/// The versions of a chain rise: an answer has a lower version than each later one.
pub fn versions_rise()
    ensures { (epoch_end recovery : ℕ) (answers : List Issued) → IsChain epoch_end recovery answers
        → AllPairs (λ earlier later. earlier.version < later.version) answers }
{}

/// Each answer of a chain is the next one after those before it: so it is fresh, and stands at its
/// ordinal.
pub fn each_is_next()
    ensures { (epoch_end recovery : ℕ) (answers : List Issued) (place : ℕ) (answer : Issued)
        → IsChain epoch_end recovery answers → slice_get answers place ≡ Some answer
        → IsNext epoch_end recovery (take place answers) answer }
{}

/// Answers that are the same in each member are equal.
pub fn same_are_equal()
    ensures { (one other : Issued) → is_same one other ≡ true → one ≡ other }
{}

/// A chain has no gap and no fork: it begins at the end of the epoch before, each answer
/// goes on from the version of the one before it, and no two answers go on from one version.
pub fn no_gap_no_fork()
    ensures begins { (epoch_end recovery : ℕ) (answers : List Issued) (first : Issued)
        → IsChain epoch_end recovery answers
        → slice_get answers 0 ≡ Some first → first.prev ≡ epoch_end }
    ensures no_gap { (epoch_end recovery : ℕ) (answers : List Issued)
        (place : ℕ) (before after : Issued)
        → IsChain epoch_end recovery answers
        → slice_get answers place ≡ Some before → slice_get answers (place + 1) ≡ Some after
        → after.prev ≡ before.version }
    ensures no_fork { (epoch_end recovery : ℕ) (answers : List Issued) → epoch_end < recovery
        → IsChain epoch_end recovery answers
        → AllPairs (λ one other. one.prev ≢ other.prev) answers }
{}

/// Reads never go back: in a legal history a read or a change sees at least
/// the version that each earlier one saw, and at least that of the start.
pub fn reads_never_go_back()
    ensures in_order { (start : Record) (events : List Event) (j k : ℕ) (earlier later : ℕ)
        → IsLegal start events → j ≤ k
        → seen_at events j ≡ Some earlier → seen_at events k ≡ Some later → earlier ≤ later }
    ensures from_the_start { (start : Record) (events : List Event) (place seen : ℕ)
        → IsLegal start events
        → seen_at events place ≡ Some seen → start.version ≤ seen }
{}

/// The position of an event is the number of changes up to and including it, and in a legal history
/// the version of the register and its minimum known committed version, added up, have risen by at
/// least that much. So where no report tells of a minimum above its own version, a position is
/// never above twice the version there.
pub fn positions_below_versions()
    ensures counts { (events : List Event) (place : ℕ) → place < length events
        → slice_get (positions_from 0 events) place
        ≡ Some (change_count (take (place + 1) events)) }
    ensures below { (start : Record) (events : List Event) → IsLegal start events
        → let register = register_after start events in
        change_count events + (start.version + start.min_known)
        ≤ register.version + register.min_known }
    ensures at_each_event { (start : Record) (events : List Event) (place position : ℕ)
        → IsLegal start events
        → slice_get (positions_from 0 events) place ≡ Some position
        → let register = register_after start (take (place + 1) events) in
        position + (start.version + start.min_known) ≤ register.version + register.min_known }
    ensures twice { (start : Record) (events : List Event) (place position : ℕ)
        → IsLegal start events
        → All (λ rec. rec.min_known ≤ rec.version) (start ∷ reports_of events)
        → slice_get (positions_from 0 events) place ≡ Some position
        → position ≤ 2 * (register_after start (take (place + 1) events)).version }
{}

/// Where no acknowledged report of the logs told of a minimum above its own version, no report of a
/// history that explains them does: what `twice` of [`positions_below_versions`] asks for.
pub fn minima_stay_within()
    ensures { (start : Record) (logs : List ClientLog) (history : List Event)
        → IsLinear start logs history → HaveMinimaWithin logs
        → All (λ rec. rec.min_known ≤ rec.version) (reports_of history) }
{}

/// The register has the greatest version and the greatest minimum known committed version, of the
/// start record and all that were reported; all else of it is that of the first record with its
/// version.
pub fn register_is_greatest()
    ensures greatest { (start : Record) (events : List Event)
        → All (λ rec. rec.version ≤ (register_after start events).version)
        (start ∷ reports_of events) }
    ensures first { (start : Record) (events : List Event)
        → let register = register_after start events in
        option_map (λ (rec : Record). record rec { min_known = register.min_known })
        (find (λ rec. rec.version == register.version) (start ∷ reports_of events))
        ≡ Some register }
    ensures greatest_known { (start : Record) (events : List Event)
        → All (λ rec. rec.min_known ≤ (register_after start events).min_known)
        (start ∷ reports_of events) }
    ensures known { (start : Record) (events : List Event)
        → IsTrue (list_any (λ rec. rec.min_known == (register_after start events).min_known)
        (start ∷ reports_of events)) }
{}

/// In a chain the kept answer is the first answer that its proxy got under the number, and stands
/// at its ordinal. A repeated request gets it unchanged but for `fresh`.
pub fn kept_is_first()
    ensures first { (epoch_end recovery : ℕ) (answers : List Issued)
        (proxy num : ℕ) (answer : Issued)
        → IsChain epoch_end recovery answers → kept proxy num answers ≡ Some answer
        → find (λ a. a.proxy == proxy && (a.num == num)) answers ≡ Some answer }
    ensures of_the_request { (answers : List Issued) (proxy num : ℕ) (answer : Issued)
        → kept proxy num answers ≡ Some answer
        → (answer.proxy ≡ proxy) × (answer.num ≡ num) }
    ensures stands { (epoch_end recovery : ℕ) (answers : List Issued)
        (proxy num : ℕ) (answer : Issued)
        → IsChain epoch_end recovery answers → kept proxy num answers ≡ Some answer
        → slice_get answers answer.ordinal ≡ Some answer }
    ensures repeated { (chain : Chain) (ask : Ask) (answer : Issued)
        → IsChain chain.epoch_end chain.recovery chain.answers
        → ask.proxy < chain.proxies → kept ask.proxy ask.num chain.answers ≡ Some answer
        → answer_to chain ask ≡ Ok (record answer { fresh = false }) }
{}

/// The answers to a proxy alone decide what its latest number is, and which answer is kept under a
/// number of its own: the answers to other proxies change neither.
pub fn own_answers_decide()
    ensures latest { (proxy : ℕ) (answers : List Issued)
        → latest proxy (filter (λ answer. answer.proxy == proxy) answers)
        ≡ latest proxy answers }
    ensures kept { (proxy num : ℕ) (answers : List Issued)
        → kept proxy num (filter (λ answer. answer.proxy == proxy) answers)
        ≡ kept proxy num answers }
{}

/// Whatever is asked for, the answers are one chain: a request leaves a
/// chain one, and so do any number of requests from no answers on. An
/// answer that was given stays, and nothing but the answers changes.
pub fn asks_make_a_chain()
    ensures step { (chain : Chain) (ask : Ask)
        → IsChain chain.epoch_end chain.recovery chain.answers
        → IsChain chain.epoch_end chain.recovery (chain_after chain (answer_to chain ask)).answers }
    ensures all { (chain : Chain) (asks : List Ask) → chain.answers ≡ []
        → IsChain chain.epoch_end chain.recovery (after_asks chain asks).answers }
    ensures keeps { (chain : Chain) (asks : List Ask)
        → take (length chain.answers) (after_asks chain asks).answers ≡ chain.answers }
    ensures stays { (chain : Chain) (asks : List Ask)
        → after_asks chain asks ≡ record chain { answers = (after_asks chain asks).answers } }
{}

/// What a request is answered is never found to be stray: each chain that goes on from that answer
/// justifies the call, after calls whose fresh answers are those that its proxy had been given.
pub fn answers_are_justified()
    ensures { (given : Chain) (ask : Ask) (calls : List Call) (chain : List Issued)
        (asked position : ℕ)
        → ask.proxy < given.proxies → given.recovery ≤ MAX_VERSION
        → fresh_answers calls ≡ filter (λ answer. answer.proxy == ask.proxy) given.answers
        → IsChain given.epoch_end given.recovery chain
        → IsPrefix (chain_after given (answer_to given ask)).answers chain
        → is_justified chain ask.proxy calls (record {
          input = input.Ask ask.num ask.processed ask.at;
          asked = asked;
          position = position;
          answer = logged_as (answer_to given ask);
        }) ≡ true }
{}

/// Logs that a history explains have no fault of the history: where a linear
/// history exists, no call is answered from before what its client had seen, no
/// two changes share a position, no position that is reached lacks its change,
/// and each read and report is answered as the register at its position would.
pub fn explained_logs_are_faultless()
    ensures { (start : Record) (logs : List ClientLog) (history : List Event)
        → IsLinear start logs history → IsFaultless start logs }
{}

/// Logs without a fault of the history are explained by their events in the fixed order.
pub fn faultless_logs_are_explained()
    ensures { (start : Record) (logs : List ClientLog) → IsFaultless start logs
        → IsLinear start logs (explained logs) }
{}

/// A read never misses a commit that its client knows of: its version, and its minimum known
/// committed version, are at least those of each report that was acknowledged before it in its own
/// log, or up to a position that its client had come to, by a learn or otherwise.
pub fn reads_see_what_was_acknowledged()
    ensures known { (start : Record) (logs : List ClientLog) (history : List Event)
        (writer reader committed place : ℕ) (commit read : Call)
        (reported seen : Record) (raised changed locked_out : Bool) (limits : List TagLimit)
        → IsLinear start logs history
        → slice_get (calls_of logs writer) committed ≡ Some commit
        → commit.answer ≡ Acked reported raised changed
        → slice_get (calls_of logs reader) place ≡ Some read
        → read.answer ≡ Version seen limits locked_out
        → commit.position ≤ read.asked
        → (reported.version ≤ seen.version) × (reported.min_known ≤ seen.min_known) }
    ensures own { (start : Record) (logs : List ClientLog) (history : List Event)
        (client committed place : ℕ) (commit read : Call)
        (reported seen : Record) (raised changed locked_out : Bool) (limits : List TagLimit)
        → IsLinear start logs history
        → slice_get (calls_of logs client) committed ≡ Some commit
        → commit.answer ≡ Acked reported raised changed
        → slice_get (calls_of logs client) place ≡ Some read
        → read.answer ≡ Version seen limits locked_out
        → committed < place
        → (reported.version ≤ seen.version) × (reported.min_known ≤ seen.min_known) }
    ensures learnt { (start : Record) (logs : List ClientLog) (history : List Event)
        (writer reader committed told place : ℕ) (commit learn read : Call)
        (reported seen : Record) (raised changed locked_out : Bool) (limits : List TagLimit)
        → IsLinear start logs history
        → slice_get (calls_of logs writer) committed ≡ Some commit
        → commit.answer ≡ Acked reported raised changed
        → slice_get (calls_of logs reader) told ≡ Some learn → commit.position ≤ learn.position
        → slice_get (calls_of logs reader) place ≡ Some read
        → read.answer ≡ Version seen limits locked_out
        → told < place
        → (reported.version ≤ seen.version) × (reported.min_known ≤ seen.min_known) }
{}
