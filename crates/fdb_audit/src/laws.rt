//! Laws of the definitions. The functions do nothing: each stands for its contract.

ghost use Rattle.std.specs.Prelude.{ℕ, [], ◌≡◌, ◌++◌, All, Bool, IsPermutation, List, None, Option};
ghost use Rattle.std.specs.Prelude.{◌≤◌, false, IfSome, map, Result};
ghost use Rattle.std.specs.Prelude.{option_map, string_bytes, true};
ghost use Rattle.std.specs.List.{flat_map, AllPairs, Contains};
ghost use Rattle.fdb_lines.specs.declared.fault.Found.{Found};
ghost use Rattle.fdb_lines.specs.declared.log.AuditOpts.{AuditOpts};
ghost use Rattle.fdb_lines.specs.declared.line.Line.{Line};
ghost use Rattle.fdb_lines.specs.Before.{began};
ghost use Rattle.fdb_lines.specs.Carried.{with_times};
ghost use Rattle.fdb_lines.specs.Keys.{placed_finding, placed_found};
ghost use Rattle.fdb_lines.specs.KeyWatch.{SettledTo};
ghost use Rattle.fdb_lines.specs.Late.{HasLate};
ghost use Rattle.fdb_lines.specs.Lines.{line_at};
ghost use Rattle.fdb_lines.specs.Watching.{opts_of};
ghost use Rattle.fdb_audit.specs.declared.arguments.AuditArguments.{AuditArguments};
ghost use Rattle.fdb_audit.specs.declared.printer.LogFault.{LogFault};
ghost use Rattle.fdb_audit.specs.declared.taken_lines.Taking.{Taking};
ghost use Rattle.fdb_audit.specs.Following.{early_at, lines_since, told_in_all, AreInTurn, Start};
ghost use Rattle.fdb_audit.specs.Following.{GoesOnFrom, IsAnew, TellApart, TellsIn, Window};
ghost use Rattle.fdb_log_reader.specs.declared.error.ReadError.{ReadError};
ghost use Rattle.fdb_log_reader.specs.declared.error.Why.{Why};
ghost use Rattle.fdb_log_reader.specs.ReadLine.{SaidLine};
ghost use Rattle.fdb_log_reader.specs.Reading.{Reading};
ghost use Rattle.fdb_audit.specs.AllPieces.{told_of_pieces, AreInTime, HaveRoom, Pieces};
ghost use Rattle.fdb_audit.specs.Joined.{faults_by_number, faults_of_part, ArePartsOf};
ghost use Rattle.fdb_audit.specs.Joined.{WasReadByKey};
ghost use Rattle.fdb_audit.specs.Kept.{start_of, IsStopped, Keeps};
ghost use Rattle.fdb_audit.specs.Pieces.{all_bytes, audited_in, places_beyond, AreWatched};
ghost use Rattle.fdb_audit.specs.Pieces.{MayGoOn, Piece};
ghost use Rattle.fdb_audit.specs.Taken.{AreTaken};
ghost use Rattle.fdb_audit.specs.ToldFaults.{by_text, texted, texted_in, ToldFault};
ghost use Rattle.fdb_audit.specs.Watched.{lines_asked, names_asked, IsFollowed};

use fdb_lines::laws::{
    logs_that_say_the_same_differ_in_numbers_alone, the_faults_of_its_parts_are_those_of_a_log,
    what_a_watch_keeps_stands_for_all, what_some_lines_tell_is_true_of_all,
    who_goes_on_from_what_a_watch_kept_tells_the_rest,
};
use fdb_log_reader::laws::{
    each_name_has_one_number, keys_stay_in_one_member, names_keep_their_numbers,
    numbers_are_those_of_names, what_follows_an_ended_line_is_apart,
    what_is_read_by_key_is_numbered_by_names, what_lines_say_is_theirs_alone,
};

/// Where no line came early, what a watch kept says that none of the kept lines did. Where the
/// watch began at the beginning of its log, what it kept also says up to which moment the watch had
/// told all: if it had told of any line that had ended, it keeps a line that had come by then, and
/// with that line the moment.
pub fn what_is_kept_says_when_all_was_told()
    ensures none_early { (asked : AuditArguments) (start : Start) (behind : ℕ)
        (piece kept text : List ℕ) (found : Option LogFault) (last : Option ℕ)
        → (one : IsStopped asked start piece text found last kept)
        → start.early ≡ 0 → one.followed.counts.early ≡ 0
        → (start_of asked behind kept).early ≡ 0 }
    ensures when { (asked : AuditArguments) (start : Start) (behind : ℕ)
        (piece kept text : List ℕ) (found : Option LogFault) (last : Option ℕ)
        → (one : IsStopped asked start piece text found last kept) → IsAnew start
        → start.early ≡ 0 → one.followed.counts.early ≡ 0
        → (start_of asked behind kept).from ≡ one.taking.watch.from }
{
    what_a_watch_keeps_stands_for_all();
}

/// A log that is watched in pieces is told as by one watch, where no line came early: what all watches
/// tell, each fault at the place of its line among all lines, is what an audit of all lines finds,
/// nothing twice and nothing lost. A watch stops where a line ends, and what it kept says up to when it
/// had told all; the next, with the same arguments, goes on from that, over what comes then.
///
/// The first clause says so of any number of watches, and the second of two. The last says so of a
/// watch and whatever tells all there is to tell of what that kept and of what comes then.
pub fn a_log_watched_in_pieces_is_told_as_by_one_watch()
    ensures pieces { (asked : AuditArguments) (start : Start) (bytes : List ℕ)
        (pieces : List Piece) (told : List Found) → start.early ≡ 0
        → AreWatched asked start bytes pieces told → IsPermutation (start.told ++ told)
        (audited_in asked (bytes ++ all_bytes pieces)) }
    ensures two_watches { (asked : AuditArguments) (start : Start) (behind : ℕ)
        (piece kept next text text_too : List ℕ) (found found_too : Option LogFault)
        (last last_too : Option ℕ) → (one : IsStopped asked start piece text found last kept)
        → (other : IsFollowed asked (start_of asked behind kept) true (kept ++ next) text_too
        found_too last_too) → MayGoOn asked piece kept next
        → (start_of asked behind kept).from ≡ one.taking.watch.from
        → start.early ≡ 0 → one.followed.counts.early ≡ 0 → other.counts.early ≡ 0
        → IsPermutation ((start.told ++ told_in_all (lines_asked asked piece) one.followed.windows)
        ++ map (placed_found (places_beyond asked piece next one.keeps.places))
        (told_in_all (lines_asked asked (kept ++ next)) other.windows))
        (audited_in asked (piece ++ next)) }
    ensures any_more { (asked : AuditArguments) (start : Start) (behind : ℕ)
        (piece kept next : List ℕ) (taking : Taking) (told now : List Found)
        → taking.watch.margin ≡ asked.opts.margin
        → AreTaken start taking (lines_asked asked piece) told
        → (keeps : Keeps (option_map string_bytes asked.key) (names_asked asked piece)
        start.kept taking (lines_asked asked piece) kept) → MayGoOn asked piece kept next
        → let on = start_of asked behind kept in on.from ≡ taking.watch.from
        → start.early ≡ 0 → taking.counts.early ≡ 0
        → early_at on.from (lines_since on (lines_asked asked (kept ++ next))) ≡ 0
        → IsPermutation (on.told ++ now) (audited_in asked (kept ++ next))
        → IsPermutation (told ++ map (placed_found (places_beyond asked piece next keeps.places))
        now) (audited_in asked (piece ++ next)) }
{
    each_name_has_one_number();
    keys_stay_in_one_member();
    logs_that_say_the_same_differ_in_numbers_alone();
    names_keep_their_numbers();
    numbers_are_those_of_names();
    what_a_watch_keeps_stands_for_all();
    what_follows_an_ended_line_is_apart();
    what_lines_say_is_theirs_alone();
    who_goes_on_from_what_a_watch_kept_tells_the_rest();
}

/// A watch that goes on from what it keeps, however often, and forgets no key, tells of a log that has
/// ended what an audit of all lines finds, where no line came early: nothing twice and nothing lost, each
/// fault at the place of its line among all lines.
pub fn a_watch_that_goes_on_tells_as_one_audit()
    ensures { (asked : AuditArguments) (found : Option LogFault) (refused : Option ReadError)
        (last_early : Option ℕ) (times : ℕ) (start : Start) (bytes text : List ℕ)
        → asked.forget ≡ None → start.early ≡ 0
        → (pieces : Pieces asked true found refused last_early times start bytes text)
        → AreInTime asked true found refused last_early times start bytes text pieces
        → IsPermutation (start.told
        ++ told_of_pieces asked true found refused last_early times start bytes text pieces)
        (audited_in asked bytes) }
{
    each_name_has_one_number();
    keys_stay_in_one_member();
    logs_that_say_the_same_differ_in_numbers_alone();
    names_keep_their_numbers();
    numbers_are_those_of_names();
    what_a_watch_keeps_stands_for_all();
    what_follows_an_ended_line_is_apart();
    what_lines_say_is_theirs_alone();
    who_goes_on_from_what_a_watch_kept_tells_the_rest();
}

/// What a watch tells is true of all lines, however often it has gone on, whichever keys it has
/// forgotten, and whether or not lines came early: an audit of all lines finds each fault that it tells,
/// at the place of its line among all lines. So it is where the log has ended, and where it is to be
/// followed on.
pub fn what_a_watch_tells_is_true_of_all_lines()
    ensures { (asked : AuditArguments) (ends : Bool) (found : Option LogFault)
        (refused : Option ReadError) (last_early : Option ℕ) (times : ℕ) (start : Start)
        (bytes text : List ℕ)
        → (pieces : Pieces asked ends found refused last_early times start bytes text)
        → HaveRoom asked ends found refused last_early times start bytes text pieces
        → All (Contains (audited_in asked bytes))
        (told_of_pieces asked ends found refused last_early times start bytes text pieces) }
{
    each_name_has_one_number();
    keys_stay_in_one_member();
    logs_that_say_the_same_differ_in_numbers_alone();
    names_keep_their_numbers();
    numbers_are_those_of_names();
    what_a_watch_keeps_stands_for_all();
    what_follows_an_ended_line_is_apart();
    what_lines_say_is_theirs_alone();
    what_some_lines_tell_is_true_of_all();
    who_goes_on_from_what_a_watch_kept_tells_the_rest();
}

/// A watch of a log that has ended, from its beginning, that told of no fault and of no early line has
/// missed none: an audit of all lines finds no stale read, and no version drawn that is not above.
pub fn a_watch_that_tells_nothing_missed_nothing()
    ensures { (asked : AuditArguments) (start : Start) (bytes text : List ℕ) → start.told ≡ []
        → start.early ≡ 0 → IsFollowed asked start true bytes text None None
        → audited_in asked bytes ≡ [] }
{}

/// Windows that go on from one another tell of no line twice, whether or not lines came early.
pub fn no_line_is_told_of_twice()
    ensures { (behind : ℕ) (read : List (Result SaidLine Why)) (far : Option ℕ → SettledTo)
        (windows : List Window) → AreInTurn behind read far windows
        → AllPairs (TellApart read) windows }
{}

/// How late a call is that came in time is told exactly where that is no more than how far behind
/// the newest end a line may begin.
pub fn a_lateness_within_the_bound_is_exact()
    ensures { (behind margin : ℕ) (far : SettledTo) (all lines : List Line) (window : Window)
        → GoesOnFrom behind far all window → TellsIn margin lines window
        → All (λ finding. let its = placed_finding window.kept finding in
        window.from ≤ began (line_at lines its.found.place)
        → IfSome its.late (λ late. late.by ≤ behind)
        → HasLate (with_times lines) (opts_of margin) its) window.found }
{}

/// A log that is divided into parts by its keys, each read and audited as a log of its own, has the
/// faults of its parts, each by its line, by the own numbers of lines, once, and no others. A part
/// without a line is not read, and no fault is in it.
pub fn the_faults_of_parts_by_number_are_those_of_the_log()
    ensures { (opts : AuditOpts) (rule : Option (List ℕ) → ℕ) (whole : Reading)
        (parts : List (Option Reading)) → WasReadByKey whole
        → All (λ part. IfSome part WasReadByKey) parts → ArePartsOf rule whole parts
        → IsPermutation (flat_map (faults_of_part opts) parts) (faults_by_number opts whole) }
{
    logs_that_say_the_same_differ_in_numbers_alone();
    the_faults_of_its_parts_are_those_of_a_log();
    what_is_read_by_key_is_numbered_by_names();
}

/// Where the totals of a watch do not say that there are more, they are of all faults that were told,
/// each by its own text: of its client, or of any member that was printed beside it.
pub fn totals_that_say_no_more_are_of_all_faults()
    ensures { (its : ToldFault → Option (List ℕ)) (told : List ToldFault)
        → let it = by_text its told in it.more ≡ false
        → map (texted_in it.texts) it.owned ≡ map (texted its) told }
{}
