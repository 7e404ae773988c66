//! Laws of the definitions. The functions do nothing: each stands for its contract.

ghost use Rattle.std.specs.Prelude.{◌==◌, ℕ, ◌<◌, ◌≤◌, ◌≡◌, ◌≢◌, ◌↔◌, ◌++◌, ◌∷◌, [], List, Option};
ghost use Rattle.std.specs.Option.{option_eq};
ghost use Rattle.std.specs.Prelude.{length, map, not, slice_index, true, IfSome, IsTrue, None};
ghost use Rattle.std.specs.Prelude.{◌-◌, All, Bool, IsPermutation, Some};
ghost use Rattle.std.specs.List.{filter, flat_map, range_with_len, Contains};
ghost use Rattle.fdb_lines.specs.declared.slot.Effect.{Effect};
ghost use Rattle.fdb_lines.specs.declared.fault.Fault.{Fault};
ghost use Rattle.fdb_lines.specs.declared.fault.Fault.TheVariants.{Order, NotAbove, Twice};
ghost use Rattle.fdb_lines.specs.declared.fault.Found.{Found};
ghost use Rattle.fdb_lines.specs.declared.key_watch.KeyWatch.{KeyWatch};
ghost use Rattle.fdb_lines.specs.declared.line.Line.{Line};
ghost use Rattle.fdb_lines.specs.declared.log.AuditOpts.{AuditOpts};
ghost use Rattle.fdb_lines.specs.declared.fault.Finding.{Finding};
ghost use Rattle.fdb_lines.specs.Audit.{AreExplained, case_of};
ghost use Rattle.fdb_lines.specs.Before.{began};
ghost use Rattle.fdb_lines.specs.Carried.{with_times, AreLeftBelow, StandFor};
ghost use Rattle.fdb_lines.specs.Divided.{faults_by_part, LearnsNothing};
ghost use Rattle.fdb_lines.specs.KeyParts.{lines_of_one};
ghost use Rattle.fdb_lines.specs.KeyWatch.{HasSeenByKey, not_settled, settled_in};
ghost use Rattle.fdb_lines.specs.Keys.{case_of_key, faults_by_key, key_at, placed_found, places_of};
ghost use Rattle.fdb_lines.specs.Listing.{faults_of};
ghost use Rattle.fdb_lines.specs.Lines.{Case, Lines, Read, Ask, Learn, kind_at, line_at};
ghost use Rattle.fdb_lines.specs.Lines.{lines_in, shows, version_at, version_of};
ghost use Rattle.fdb_lines.specs.Explained.{Explains, IsLegalHistory, precedes};
ghost use Rattle.fdb_lines.specs.Steps.{runs, fresh};
ghost use Rattle.fdb_lines.specs.Faults.{stands, IsFaultless};
ghost use Rattle.fdb_lines.specs.Order.{IsRanked, history};
ghost use Rattle.fdb_lines.specs.Reasons.{HasReason};
ghost use Rattle.fdb_lines.specs.Renumbered.{AreNamedApart, AreSameButForNumbers, Naming};
ghost use Rattle.fdb_lines.specs.Renumbered.{SayTheSame};
ghost use Rattle.fdb_lines.specs.StandByKey.{StandForByKey, audited_from, keys_in};
ghost use Rattle.fdb_lines.specs.ToldByKey.{audited, audited_to, HasTold};
ghost use Rattle.fdb_lines.specs.Watching.{begins_before, is_due, is_watched, opts_of};
ghost use Rattle.fdb_lines.specs.Watching.{told_of, watched};

/// No fault is invented: where some history explains the lines, none stands.
pub fn nothing_is_invented()
    ensures { (c : Case) (history : List Effect) → Explains c history → IsFaultless c }
{}

/// No fault is hidden: where none stands, an order explains the lines.
pub fn nothing_is_hidden()
    ensures { (c : Case) (rank : ℕ → ℕ) → IsRanked c rank → IsFaultless c → Explains c (history c rank) }
{}

/// No fault stands exactly where some history explains the lines: with times and any margin or
/// without times, and with all calls or with some.
pub fn no_fault_exactly_where_explained()
    ensures { (log : Lines) (opts : AuditOpts)
        → let c = case_of log opts in IsFaultless c ↔ AreExplained c }
{}

/// Where no fault stands, no read is below what a line before it showed, and none is below the
/// version that all began with.
pub fn no_read_goes_back()
    ensures after_what_was_shown { (c : Case) (j k : ℕ) → IsFaultless c
        → j < length c.lines → k < length c.lines → IsTrue (c.before j k)
        → IsTrue (shows (kind_at c j)) → kind_at c k ≡ Read → version_at c j ≤ version_at c k }
    ensures after_the_start { (c : Case) (k : ℕ) → IsFaultless c
        → k < length c.lines → kind_at c k ≡ Read → c.start ≤ version_at c k }
{}

/// A history is legal exactly where register and sequencer run through it, one effect after another.
pub fn legal_exactly_where_it_runs()
    ensures { (start : ℕ) (history : List Effect)
        → IsTrue (runs (fresh start) history) ↔ IsLegalHistory start history }
{}

/// What comes before in the log precedes in a history too, with one exception: an ask precedes only
/// the asks and commits that it comes before, since no read and no report shows what an ask drew.
pub fn all_counts_without_asks()
    ensures { (c : Case) (j k : ℕ) → kind_at c j ≢ Ask → kind_at c j ≢ Learn → precedes c j k ≡ c.before j k }
{}

/// Some lines of a log stand for all of them from a moment on (`StandFor`) where each line that is
/// left out began before it, and lets nothing be known to what begins from it on that these do not.
/// A call that begins then or later is judged by them as by all: whether it is a stale read, and
/// whether it draws a version that is not above.
pub fn lines_that_stand_for_all_judge_as_all()
    ensures order { (opts : AuditOpts) (at : ℕ) (lines : List Line) (places : List ℕ) (i : ℕ)
        → StandFor opts.margin at lines places → i < length places
        → at ≤ began (line_at lines (slice_index places i))
        → stands (case_of (with_times (lines_in lines places)) opts) Order i
        ≡ stands (case_of (with_times lines) opts) Order (slice_index places i) }
    ensures not_above { (opts : AuditOpts) (at : ℕ) (lines : List Line) (places : List ℕ) (i : ℕ)
        → StandFor opts.margin at lines places → i < length places
        → at ≤ began (line_at lines (slice_index places i))
        → stands (case_of (with_times (lines_in lines places)) opts) NotAbove i
        ≡ stands (case_of (with_times lines) opts) NotAbove (slice_index places i) }
{}

/// What lines that stand for all (`StandFor`) tell of a call, whenever it began, is true by all
/// lines: that it is a stale read, that it draws a version that is not above, or that another drew.
/// Of a read of a version that is not there and of a stray report this is not said: these lines may
/// tell one that all lines do not.
pub fn nothing_is_told_by_them_alone()
    ensures order { (opts : AuditOpts) (at : ℕ) (lines : List Line) (places : List ℕ) (i : ℕ)
        → StandFor opts.margin at lines places → i < length places
        → stands (case_of (with_times (lines_in lines places)) opts) Order i ≡ true
        → stands (case_of (with_times lines) opts) Order (slice_index places i) ≡ true }
    ensures not_above { (opts : AuditOpts) (at : ℕ) (lines : List Line) (places : List ℕ) (i : ℕ)
        → StandFor opts.margin at lines places → i < length places
        → stands (case_of (with_times (lines_in lines places)) opts) NotAbove i ≡ true
        → stands (case_of (with_times lines) opts) NotAbove (slice_index places i) ≡ true }
    ensures twice { (opts : AuditOpts) (at : ℕ) (lines : List Line) (places : List ℕ) (i : ℕ)
        → StandFor opts.margin at lines places → i < length places
        → stands (case_of (with_times (lines_in lines places)) opts) Twice i ≡ true
        → stands (case_of (with_times lines) opts) Twice (slice_index places i) ≡ true }
{}

/// Where lines stand for all (`StandFor`), and the version of a call is above those of all lines
/// that are left out, each fault stands at the call by the lines that are kept exactly where it
/// stands by all lines, whenever the call began.
pub fn above_what_is_left_out_all_faults_are_told()
    ensures { (opts : AuditOpts) (at : ℕ) (lines : List Line) (places : List ℕ) (i : ℕ)
        → StandFor opts.margin at lines places → i < length places
        → AreLeftBelow (version_of (line_at lines (slice_index places i)).call) lines places
        → (fault : Fault) → stands (case_of (with_times (lines_in lines places)) opts) fault i
        ≡ stands (case_of (with_times lines) opts) fault (slice_index places i) }
{}

/// Lines that stand for all from a moment on (`StandFor`) do so from any later moment on, too; they
/// do so with one line more, which is added to the log and to them; and where some of them stand
/// for them, these stand for all.
pub fn they_go_on_to_stand_for_all()
    ensures later { (margin at then : ℕ) (lines : List Line) (places : List ℕ) → at ≤ then
        → StandFor margin at lines places → StandFor margin then lines places }
    ensures one_more { (margin at : ℕ) (lines : List Line) (places : List ℕ) (line : Line)
        → StandFor margin at lines places
        → StandFor margin at (lines ++ line ∷ []) (places ++ length lines ∷ []) }
    ensures fewer { (margin at : ℕ) (lines : List Line) (places kept : List ℕ)
        → StandFor margin at lines places → StandFor margin at (lines_in lines places) kept
        → StandFor margin at lines (map (slice_index places) kept) }
{}

/// What is told of the lines that began before a moment stays, whatever begins then or later, and so
/// does why it stands.
pub fn what_was_told_stays()
    ensures told { (margin from early since to : ℕ) (lines more : List Line)
        → ((j : ℕ) → j < length more → to ≤ began (line_at more j))
        → let due = is_due from early since (Some to) in
        told_of margin due (lines ++ more) ≡ told_of margin due lines }
    ensures reasons { (margin to : ℕ) (lines more : List Line) (finding : Finding)
        → ((j : ℕ) → j < length more → to ≤ began (line_at more j))
        → let found = finding.found in found.place < length lines
        → began (line_at lines found.place) < to → is_watched found.fault ≡ true
        → HasReason (with_times lines) (opts_of margin) finding
        → HasReason (with_times (lines ++ more)) (opts_of margin) finding }
{}

/// Windows add up: a watch that settles up to a moment and then further, or for good, tells of lines
/// that had all come what it would tell at once: first of those that began before the moment, and
/// then of the others.
pub fn windows_add_up()
    ensures before { (margin from early since to : ℕ) (later : Option ℕ) (lines : List Line)
        → IfSome later (λ last. to ≤ last)
        → told_of margin (is_due from early since (Some to)) lines
        ≡ filter (λ (found : Found). begins_before (Some to) (line_at lines found.place))
        (told_of margin (is_due from early since later) lines) }
    ensures after { (margin from early since to early_on : ℕ) (later : Option ℕ) (lines : List Line)
        → from ≤ to
        → told_of margin (is_due to early_on (length lines) later) lines
        ≡ filter (λ (found : Found). not (begins_before (Some to) (line_at lines found.place)))
        (told_of margin (is_due from early since later) lines) }
{}

/// The faults of a log with keys that stand at lines of one key are all those of its lines, each
/// told at its place in the whole log.
pub fn faults_by_key_are_those_of_each_key()
    ensures { (log : Lines) (keys : List (Option ℕ)) (opts : AuditOpts) (key : Option ℕ)
        → length keys ≡ length log.lines
        → filter (λ (found : Found). option_eq ◌==◌ (key_at keys found.place) key) (faults_by_key log keys opts)
        ≡ map (placed_found (places_of keys key)) (faults_of (case_of_key log keys opts key)) }
{}

/// What a watch has told is all that there is to tell of the lines that began before the moment up
/// to which it has settled, each fault once, maybe in another order, if none of them came late.
/// Where a law asks for what a watch has told, that list will do.
pub fn all_is_told_up_to_where_it_settled()
    ensures each_once { (watch : KeyWatch) (lines : List Line) (keys : List (Option ℕ))
        (told : List Found) → HasSeenByKey watch lines keys → HasTold watch lines keys told
        → IsPermutation told (audited_to watch.margin watch.from lines keys) }
    ensures as_well { (watch : KeyWatch) (lines : List Line) (keys : List (Option ℕ))
        (told : List Found) → HasSeenByKey watch lines keys → HasTold watch lines keys told
        → HasTold watch lines keys (audited_to watch.margin watch.from lines keys) }
{}

/// A key of which no line came has not settled.
pub fn a_key_without_lines_has_not_settled()
    ensures { (watch : KeyWatch) (lines : List Line) (keys : List (Option ℕ))
        → HasSeenByKey watch lines keys → (key : Option ℕ)
        → length (lines_of_one lines keys key) ≡ 0
        → settled_in watch.parts.items key ≡ not_settled }
{}

/// Lines that stand for all from a moment on (`StandFor`) will do for whoever goes on from them
/// alone: together with the lines that come later they tell, of the lines that begin from that
/// moment on, what all lines tell. Where no line that comes later began before the moment, what was
/// told up to it and what is told from it on are, together, what an audit of all lines finds, each
/// fault once.
pub fn who_goes_on_from_them_tells_the_rest()
    ensures rest { (margin at from : ℕ) (lines : List Line) (places : List ℕ) (more : List Line)
        → at ≤ from → StandFor margin at lines places
        → let beyond = places ++ range_with_len (length lines) (length more) in
        told_of margin (is_due from from 0 None) (lines ++ more) ≡ map (placed_found beyond)
        (told_of margin (is_due from from 0 None) (lines_in lines places ++ more)) }
    ensures all { (margin at from : ℕ) (lines : List Line) (places : List ℕ) (more : List Line)
        → at ≤ from → StandFor margin at lines places
        → ((j : ℕ) → j < length more → from ≤ began (line_at more j))
        → let beyond = places ++ range_with_len (length lines) (length more) in
        IsPermutation (told_of margin (is_due 0 0 0 (Some from)) lines
        ++ map (placed_found beyond) (told_of margin (is_due from from 0 None)
        (lines_in lines places ++ more)))
        (filter (λ (found : Found). is_watched found.fault)
        (faults_of (watched margin (lines ++ more)))) }
{}

/// How clients and keys are numbered does not matter. Of two logs that are the same but for that, an
/// audit finds the same faults at the same lines; so it does of those that a watch tells, of all lines,
/// or of those that began before a moment, or from it on.
pub fn how_clients_and_keys_are_numbered_does_not_matter()
    ensures found { (lines others : List Line) (keys other_keys : List (Option ℕ)) (opts : AuditOpts)
        → AreSameButForNumbers lines keys others other_keys
        → faults_by_key (with_times lines) keys opts
        ≡ faults_by_key (with_times others) other_keys opts }
    ensures all { (lines others : List Line) (keys other_keys : List (Option ℕ)) (margin : ℕ)
        → AreSameButForNumbers lines keys others other_keys
        → audited margin lines keys ≡ audited margin others other_keys }
    ensures up_to { (lines others : List Line) (keys other_keys : List (Option ℕ)) (margin to : ℕ)
        → AreSameButForNumbers lines keys others other_keys
        → audited_to margin to lines keys ≡ audited_to margin to others other_keys }
    ensures since { (lines others : List Line) (keys other_keys : List (Option ℕ)) (margin from : ℕ)
        → AreSameButForNumbers lines keys others other_keys
        → audited_from margin from lines keys ≡ audited_from margin from others other_keys }
{}

/// Lines that stand for all, each key by itself (`StandForByKey`), will do for whoever goes on from
/// them alone. Of the lines that begin from a moment on an audit of them finds what an audit of all
/// finds, each fault once; and with one line more they stand for all with that line. Where no line
/// that comes later began before the moment, take what was found of all lines up to it, and what an
/// audit of the kept lines and of those that came later finds from it on, however it numbers
/// clients and keys: together these are what an audit of all lines finds.
pub fn by_key_they_tell_the_rest_too()
    ensures rest { (margin at from : ℕ) (lines : List Line) (keys : List (Option ℕ))
        (places : List ℕ) → at ≤ from → StandForByKey margin at lines keys places
        → IsPermutation (audited_from margin from lines keys) (map (placed_found places)
        (audited_from margin from (lines_in lines places) (keys_in keys places))) }
    ensures one_more { (margin at : ℕ) (lines : List Line) (keys : List (Option ℕ))
        (places : List ℕ) (line : Line) (key : Option ℕ)
        → StandForByKey margin at lines keys places → StandForByKey margin at
        (lines ++ line ∷ []) (keys ++ key ∷ []) (places ++ length lines ∷ []) }
    ensures all { (margin at from : ℕ) (lines more others : List Line)
        (keys more_keys other_keys : List (Option ℕ)) (places : List ℕ)
        → at ≤ from → StandForByKey margin at lines keys places → length more_keys ≡ length more
        → ((j : ℕ) → j < length more → from ≤ began (line_at more j))
        → AreSameButForNumbers (lines_in lines places ++ more)
        (keys_in keys places ++ more_keys) others other_keys
        → let beyond = places ++ range_with_len (length lines) (length more) in
        IsPermutation (audited_to margin from lines keys
        ++ map (placed_found beyond) (audited_from margin from others other_keys))
        (audited margin (lines ++ more) (keys ++ more_keys)) }
{}

/// All that there was to tell up to a moment has been told, and no line that came since began
/// before the moment. Whatever is told after that, so that in the end all is told, each fault once,
/// then stands at lines that began from the moment on.
pub fn what_is_told_then_began_then()
    ensures { (margin from : ℕ) (lines more : List Line) (keys more_keys : List (Option ℕ))
        (told new : List Found) → length keys ≡ length lines → length more_keys ≡ length more
        → ((j : ℕ) → j < length more → from ≤ began (line_at more j))
        → IsPermutation told (audited_to margin from lines keys)
        → IsPermutation (told ++ new) (audited margin (lines ++ more) (keys ++ more_keys))
        → IsPermutation new (audited_from margin from (lines ++ more) (keys ++ more_keys)) }
{}

/// The lines that a watch keeps, in the order in which they came, stand for all that it has seen,
/// each key by itself.
pub fn what_a_watch_keeps_stands_for_all()
    ensures { (watch : KeyWatch) (lines : List Line) (keys : List (Option ℕ)) (places : List ℕ)
        → HasSeenByKey watch lines keys
        → IsPermutation (flat_map (λ part. part.numbers.items) watch.parts.items) places
        → ((i j : ℕ) → i < j → j < length places → slice_index places i < slice_index places j)
        → StandForByKey watch.margin (watch.from - watch.horizon) lines keys places }
{}

/// Who goes on from what a watch kept tells the rest. A watch is stopped. The lines that it keeps and
/// those that come since are read by themselves, with whatever numbers for clients and keys; the first
/// of them are said to have been told of up to the moment up to which the watch had settled, and then
/// all there is to tell of them is told. Where none but these first began before that moment, what the
/// watch had told, and what is told then, are, together, what an audit of all lines finds, each fault
/// once.
pub fn who_goes_on_from_what_a_watch_kept_tells_the_rest()
    ensures { (watch : KeyWatch) (lines more first rest : List Line)
        (keys more_keys first_keys rest_keys : List (Option ℕ)) (places : List ℕ)
        (told was now : List Found) → HasSeenByKey watch lines keys → HasTold watch lines keys told
        → IsPermutation (flat_map (λ part. part.numbers.items) watch.parts.items) places
        → ((i j : ℕ) → i < j → j < length places → slice_index places i < slice_index places j)
        → length more_keys ≡ length more → length first_keys ≡ length first
        → length rest_keys ≡ length rest
        → ((j : ℕ) → j < length more → watch.from ≤ began (line_at more j))
        → ((j : ℕ) → j < length rest → watch.from ≤ began (line_at rest j))
        → AreSameButForNumbers (lines_in lines places ++ more)
        (keys_in keys places ++ more_keys) (first ++ rest) (first_keys ++ rest_keys)
        → IsPermutation was (audited_to watch.margin watch.from first first_keys)
        → IsPermutation (was ++ now)
        (audited watch.margin (first ++ rest) (first_keys ++ rest_keys))
        → let beyond = places ++ range_with_len (length lines) (length more) in
        IsPermutation (told ++ map (placed_found beyond) now)
        (audited watch.margin (lines ++ more) (keys ++ more_keys)) }
{}

/// Two logs that say the same, by whatever numbers of the names of clients and keys, are the same but
/// for numbers, where in each of them one name is that of one client, and of one key.
pub fn logs_that_say_the_same_differ_in_numbers_alone()
    ensures { (naming other_naming : Naming) (lines others : List Line)
        (keys other_keys : List (Option ℕ)) → AreNamedApart naming lines keys
        → AreNamedApart other_naming others other_keys
        → SayTheSame naming other_naming lines keys others other_keys
        → AreSameButForNumbers lines keys others other_keys }
{}

/// A log that is divided into parts by its keys has the faults of its parts, each once, and no others,
/// where the lines of each part are audited as a log of their own, and what is found is told at their
/// places in the whole log. How clients and keys are numbered in them does not matter, with times or
/// without.
pub fn the_faults_of_its_parts_are_those_of_a_log()
    ensures parts { (log : Lines) (keys : List (Option ℕ)) (opts : AuditOpts)
        (rule : Option ℕ → ℕ) (parts : ℕ) → length keys ≡ length log.lines
        → ((key : Option ℕ) → rule key < parts)
        → IsPermutation (faults_by_part log keys opts rule parts) (faults_by_key log keys opts) }
    ensures numbers { (log other : Lines) (keys other_keys : List (Option ℕ)) (opts : AuditOpts)
        → LearnsNothing log → log.timed ≡ other.timed
        → AreSameButForNumbers log.lines keys other.lines other_keys
        → faults_by_key log keys opts ≡ faults_by_key other other_keys opts }
{}

/// What some lines of a log tell is true of all of it: each stale read, and each version drawn that is
/// not above, which an audit of some lines finds, key by key, an audit of all finds too, at the place of
/// its line among all. So it is of what the first lines tell, of what is told of the lines of one key, of
/// all or of those that are due, and of what an audit finds that goes on from some lines, whatever lines come behind them, and however
/// it numbers clients and keys.
pub fn what_some_lines_tell_is_true_of_all()
    ensures some { (margin : ℕ) (lines : List Line) (keys : List (Option ℕ)) (places : List ℕ)
        → length keys ≡ length lines
        → ((i : ℕ) → i < length places → slice_index places i < length lines)
        → ((i j : ℕ) → i < j → j < length places → slice_index places i < slice_index places j)
        → All (λ (found : Found). Contains (audited margin lines keys) (placed_found places found))
        (audited margin (lines_in lines places) (keys_in keys places)) }
    ensures first { (margin : ℕ) (lines more : List Line) (keys more_keys : List (Option ℕ))
        → length keys ≡ length lines → length more_keys ≡ length more
        → All (Contains (audited margin (lines ++ more) (keys ++ more_keys)))
        (audited margin lines keys) }
    ensures of_key { (margin : ℕ) (due : ℕ → Line → Bool) (lines : List Line)
        (keys : List (Option ℕ)) (key : Option ℕ) → length keys ≡ length lines
        → All (λ (found : Found).
        Contains (audited margin lines keys) (placed_found (places_of keys key) found))
        (told_of margin due (lines_of_one lines keys key)) }
    ensures gone_on { (margin : ℕ) (lines more others : List Line)
        (keys more_keys other_keys : List (Option ℕ)) (places : List ℕ)
        → length keys ≡ length lines → length more_keys ≡ length more
        → ((i : ℕ) → i < length places → slice_index places i < length lines)
        → ((i j : ℕ) → i < j → j < length places → slice_index places i < slice_index places j)
        → AreSameButForNumbers (lines_in lines places ++ more)
        (keys_in keys places ++ more_keys) others other_keys
        → let beyond = places ++ range_with_len (length lines) (length more) in
        All (λ (found : Found).
        Contains (audited margin (lines ++ more) (keys ++ more_keys)) (placed_found beyond found))
        (audited margin others other_keys) }
{}
