//! The tests of desks, batches and proxies.

pub mod desks;
pub mod running;

use crate::stand::play_texts;
use std::test::Fail;

/// Two requests, the second of a client that has seen a report and with a number above 2^32. Limits
/// are by the priority and the moment of each. The proxy, which was told nothing, reads what was
/// reported.
const BATCHES: [&str; 2] = [
    "
ask 0 0 1000; ask 0 0 3000; ask 0 0 3100; leave 1 0 0 default 1 0 0 => in
report 0 2 0 => raised changed at 1; see => 1; leave 1 1 4294967299 default 1 0 0 ahead => in
serve => 2 2100 unlocked none at 1
# one read serves all, and the tags of each have the limits of its own priority and moment
leave 1 2 7 default 1 4999 2 u => in; leave 1 2 8 default 1 5000 1 ahead => in
leave 1 3 9 batch 1 4999 1 => in; report 0 3 0 locked => raised changed at 2
serve => 1 2200 locked 08080808080808080808 at 2 with 2 t 5 5000 / 2 2200 locked 08080808080808080808 at 2
leave 101 0 0 batch 101 0 0; leave 64 1 0 system 10001 0 0
serve => 165 2200 locked 08080808080808080808 at 2
",
    "
serve =>; leave 10001 0 4294967296 default 64 0 0; serve => 10001 100 unlocked none at 0
",
];

/// A desk that is closed refuses, and what waits there has one window, in which a limit of 2 lets a
/// system request of 1 and a default one of 1 start. A second window would start the default one of
/// 2 too.
const CLOSED: &str = "
leave 1 0 0 default 1 0 0 => in; leave 1 1 0 default 2 0 0 => in; leave 1 0 1 system 1 0 0 => in
close; leave 1 2 5 default 1 0 0 => the proxy's desk is closed
run 2 1 9 => 1 100 unlocked none at 0 / 1 closed / 1 100 unlocked none at 0
leave 1 2 6 default 1 0 0 => the proxy's desk is closed
# a proxy whose desk was closed before
run 1 1 9 =>
";

/// A room of 1 for three priorities at once, the lowest first and the highest first.
const ROOM_FOR_ONE: [&str; 2] = [
    "
leave 1 0 0 batch 1 0 0; leave 1 1 0 default 1 0 0; leave 1 2 0 system 1 0 0
run 1 1 1 => 2 the queue is full / 1 100 unlocked none at 0
",
    "
leave 1 0 0 system 1 0 0; leave 1 1 0 default 1 0 0; leave 1 2 0 batch 1 0 0; close
run 1 1 1 => 1 100 unlocked none at 0 / 2 the queue is full
",
];

/// Requests that the queue does not let in, for a count of 0 and a batch limit of 0, and one that
/// it does.
const NOT_LET_IN: &str = "
leave 1 0 0 default 0 0 0; leave 1 0 1 batch 1 0 0; leave 1 0 2 default 1 4999 1
run 1 0 1 => 1 the request's count is out of range / 1 batch requests are not let in / \
1 100 unlocked none at 0 with 1 t 5 5000
";

/// Several that are left at a desk that is closed, of each priority and of several counts, some
/// with numbers above 2^32. One that the queue does not let in hears why, system requests start,
/// and each that waits is closed.
const LEFT: &str = "
leave 1 0 4294967296 batch 1 0 0; leave 1 1 4294967297 default 1 0 0; leave 1 2 9 default 64 0 0
leave 1 3 9 batch 2 0 0; leave 1 0 4294967299 system 101 0 0; leave 1 0 4 batch 10001 0 0
leave 1 0 5 default 10001 0 0; leave 1 0 6 batch 10011 0 0; leave 1 0 4294967303 batch 10012 0 0
leave 1 0 8 default 100000 0 0; leave 1 0 9 system 100000 0 0; close
run 10001 10001 99 => 4 closed / 1 100 unlocked none at 0 / 3 closed / 1 the request's count is out of range / 1 closed / 1 100 unlocked none at 0
";

/// A window starts 10,000 requests and no more, and as many system requests as there is room for
/// push out each that came before.
const MANY: [&str; 2] = [
    "
leave 10001 0 0 system 1 0 0; close; run 1 1 100000 => 10000 100 unlocked none at 0 / 1 closed
",
    "
leave 101 0 0 batch 1 0 0; leave 64 0 0 default 1 0 0; leave 165 0 0 system 1 0 0; close
run 1 1 165 => 165 the queue is full / 165 100 unlocked none at 0
",
];

/// One that started, one that is pushed out and one that is closed, none of which is waited for, and
/// another.
const GONE: &str = "
leave 1 0 0 system 1 0 0 gone; leave 1 0 1 default 3 0 0 gone; leave 1 0 2 batch 1 0 0 gone
leave 1 0 3 system 1 0 0; close; run 1 1 3 => 1 100 unlocked none at 0
";

#[test]
fn batches(rt: HostRuntime) -> Result<(), Fail> {
    play_texts(&rt, rt.alloc(), &BATCHES, 0)
}

#[test]
fn whoever_waits_hears_what_comes_of_it(rt: HostRuntime) -> Result<(), Fail> {
    play_texts(&rt, rt.alloc(), &[CLOSED, NOT_LET_IN, LEFT, GONE], 0)?;
    play_texts(&rt, rt.alloc(), &ROOM_FOR_ONE, 0)?;
    play_texts(&rt, rt.alloc(), &MANY, 0)
}

/// So many requests of one priority at a closed desk. One starts; of those that are let in the
/// others are closed, and who is not let in hears that the queue is full.
const FEW_AND_MANY: &str = "
leave 1 0 0 default 100 0 0; leave @0 0 1 default 100 0 0; close
run 100 1 100000 => 1 100 unlocked none at 0 / @0 closed
";

/// The same of batch requests alone.
const FEW_AND_MANY_BATCH: &str = "
leave 1 0 0 batch 100 0 0
leave @0 0 1 batch 100 0 0
close
run 100 100 100000 => 1 100 unlocked none at 0 / @0 closed
";

/// A system request that comes while so many default ones wait in the queue. The first three
/// answers are handed over one by one, so that the proxy gets no further than the test has heard.
const LATE: &str = "
leave 3 0 0 default 1 4999 1 held
leave @0 0 3 default 1 4999 2
leave 1 1 0 system 1 0 0 later
run 1 1 100000 hear 0 late hear 1 look => 3 100 unlocked none at 0 with 1 t 5 5000 / \
@0 100 unlocked none at 0 with 2 t 5 5000 / 1 100 unlocked none at 0
";

#[test]
fn a_request_that_comes_while_others_wait(rt: HostRuntime) -> Result<(), Fail> {
    for waiting in [1, 64, 101, 10_001] {
        play_texts(
            &rt,
            rt.alloc(),
            &[FEW_AND_MANY, FEW_AND_MANY_BATCH, LATE],
            waiting,
        )?;
    }
    Ok(())
}

/// New rates that are left twice while a proxy hands its first answer over: it takes the last ones, by
/// which batch requests have 14 transactions at most, and then none is let in. It serves on.
const NEW_RATES: &str = "
leave 1 0 0 system 1 0 0 held
leave 1 0 1 batch 15 0 0
leave 1 0 2 batch 14 0 0
leave @0 1 0 default 100 0 0
leave 1 2 0 system 1 0 0 later
run 5 1 100000 rates 5 1 rates 4 0 hear 0 hear 1 hear 2 late look => 1 100 unlocked none at 0 / \
1 the request's count is out of range / 1 batch requests are not let in / @1 100 unlocked none at 0
";

/// The last rates that were left before the proxy begins hold for what waits at the desk, also where
/// that is closed.
const RATES_AT_FIRST: [&str; 2] = [
    "
leave 1 0 0 batch 13 0 0
leave 1 0 1 batch 12 0 0
rates 9 9
rates 2 1
run 1 1 2 => 1 the request's count is out of range / 1 100 unlocked none at 0
",
    "
leave 1 0 0 batch 1 0 0
close
rates 2 0
run 1 1 1 => 1 batch requests are not let in
",
];

#[test]
fn new_rates_of_a_running_proxy(rt: HostRuntime) -> Result<(), Fail> {
    play_texts(&rt, rt.alloc(), &RATES_AT_FIRST, 0)?;
    for waiting in [1, 64, 101] {
        play_texts(&rt, rt.alloc(), &[NEW_RATES], waiting)?;
    }
    Ok(())
}

/// 288 requests: of each priority, with no tag, one and three, at either side of the moment to which the
/// throttle holds, of either count, with each flag or without, and from a position after a report or
/// before it. A desk is closed while all wait.
const KINDS: &str = "
ask 0 0 1000; ask 0 0 3000; report 0 2 0 locked => raised changed at 1; see => 1
leave 16 1 0 system 1 4999 0 kinds; leave 16 1 16 system 1 5000 1 kinds
leave 32 1 32 system 1 4999 1 kinds; leave 32 1 64 system 1 5000 2 u kinds
leave 16 2 0 default 1 4999 0 kinds; leave 16 2 16 default 1 5000 0 kinds
leave 16 2 32 default 1 4999 1 kinds; leave 16 2 48 default 1 5000 1 kinds
leave 16 2 64 default 1 4999 2 u kinds; leave 16 2 80 default 1 5000 2 u kinds
leave 16 3 0 batch 1 4999 0 kinds; leave 16 3 16 batch 1 5000 0 kinds
leave 16 3 32 batch 1 4999 1 kinds; leave 16 3 48 batch 1 5000 1 kinds
leave 16 3 64 batch 1 4999 2 u kinds; leave 16 3 80 batch 1 5000 2 u kinds
";

/// What becomes of them: all start, or all that are let in by a batch limit of 0; system requests use up
/// the limits; or the first one has the only room. At last those that the system requests leave no limit
/// wait in the queue when the desk is closed, but for the first of them, which starts in the last window:
/// the proxy is held by two further system requests, whose answers are handed over.
const FATES: [&str; 5] = [
    "
close
run 100000 100000 1000 => 128 2100 locked 08080808080808080808 at 1 / \
16 2100 locked 08080808080808080808 at 1 with 1 t 5 5000 / \
16 2100 locked 08080808080808080808 at 1 / \
16 2100 locked 08080808080808080808 at 1 with 2 t 5 5000 / \
112 2100 locked 08080808080808080808 at 1
",
    "
close
run 100000 0 1000 => 128 2100 locked 08080808080808080808 at 1 / \
16 2100 locked 08080808080808080808 at 1 with 1 t 5 5000 / \
16 2100 locked 08080808080808080808 at 1 / \
16 2100 locked 08080808080808080808 at 1 with 2 t 5 5000 / \
16 2100 locked 08080808080808080808 at 1 / 96 batch requests are not let in
",
    "
close
run 1 1 1000 => 96 2100 locked 08080808080808080808 at 1 / 192 closed
",
    "
close
run 100000 100000 1 => 1 2100 locked 08080808080808080808 at 1 / 287 the queue is full
",
    "
leave 2 4 0 system 1 0 0 held
run 1 1 1000 hear 288 close hear 289 => 97 2100 locked 08080808080808080808 at 1 / 191 closed / \
2 2100 locked 08080808080808080808 at 1
",
];

#[test]
fn a_desk_is_closed_while_each_kind_of_options_waits(rt: HostRuntime) -> Result<(), Fail> {
    for fate in FATES {
        let text = format!(in rt.alloc(); "{KINDS}{fate}")?;
        play_texts(&rt, rt.alloc(), &[&text], 0)?;
    }
    Ok(())
}
