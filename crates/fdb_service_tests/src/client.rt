//! The tests of clients: texts whose reads the test itself serves.

ghost use Rattle.std.specs.Prelude.{◌≡◌, None};

pub mod served;

use crate::stand::{Stand, play_texts};
use fdb_checks::TableLine;
use fdb_client::{Client, ClientError};
use fdb_history::OpenGate;
use fdb_live::{Live, Seen};
use std::sync::Wait;
use std::test::Fail;

/// Reads whose answers are another call's, never come, or are refusals; after each the client goes
/// on. Each passes the gate once where an answer has come, whatever that says, else not at all.
const READS: &str = "
read 0 served => 100 at 0; read 0 serial => the answer is another call's
read 0 client => the answer is another call's; ask 0 0 1000 => 100 after 0 fresh
ask 0 0 3000 => 2100 after 100 fresh; report 0 2 100 => raised changed at 1
# the server sees the raise, and answers a request that asked from position 1
read 1 asked => the answer is another call's; log 1 => 1 calls at 0
read 1 dropped => the GRV proxy is closed; read 1 closed => the GRV proxy is closed
read 1 full => the queue is full; read 1 stray => the answer is another call's
read 1 memory => out of memory; log 1 => 5 calls at 0
";

const MORE_READS: &str = "
ask 0 0 1000 => 100 after 0 fresh; ask 0 0 3000 => 2100 after 100 fresh
report 0 2 100 => raised changed at 1; read 1 served => 2100 at 1
read 1 served min => 100 of 2100 and 100 at 1; ask 0 0 4000 => 3100 after 2100 fresh
report 0 3 0 locked => raised changed at 2
read 1 served => the database is locked at version 3100; read 1 served aware => 3100 at 2
read 1 shut aware => the GRV proxy is closed; ask 0 0 5000 => 4100 after 3100 fresh
report 0 4 2000 => raised changed at 3; log 1 => 5 calls at 2
# client 1 goes on, with calls that need no proxy and at another desk
reask 1 2 0 6000 => the next request number is 1
report 1 1 0 => no commit version was issued under this number; tell 1 0 => at 2
learn 5 1 => at 2; log 5 => 1 calls at 2; read 1 served => 4100 at 3
read 1 served min => 2000 of 4100 and 2000 at 3; read 1 shut => the GRV proxy is closed
read 1 full => the queue is full; ask 1 0 7000 => 6100 after 4100 fresh
report 1 1 0 => raised changed at 4; report 0 4 2001 => not raised changed at 5
report 0 4 7000 => the minimum known committed version is above the version
report 0 1 0 => not raised not changed at 5; log 1 => 14 calls at 4
";

/// Reads with any options that are served, or not answered, of clients with up to 144 calls.
const ANY_READS: &str = "
*read 0 served => 100 at 0, read 0 dropped => the GRV proxy is closed
*read 1 served min => 0 of 100 and 0 at 0
*read 2 dropped aware => the GRV proxy is closed; *read 3 dropped both => the GRV proxy is closed
";

#[test]
fn reads_at_a_desk(rt: HostRuntime) -> Result<(), Fail> {
    play_texts(&rt, rt.alloc(), &[READS, MORE_READS], 0)?;
    play_texts(&rt, rt.alloc(), &[ANY_READS], 72)
}

/// The client whose number is the next word.
pub(crate) fn client_at<'s, 'a, S: Live>(
    clients: &'s mut [Client<'a, S>],
    line: &mut TableLine<'_>,
) -> Option<&'s mut Client<'a, S>> {
    let client = clients.get_mut(line.who() as usize);
    line.holds(client.is_some(), "no client");
    client
}

/// Says why a call is refused, or notes that it is refused memory.
pub(crate) fn say_cause(line: &mut TableLine<'_>, cause: ClientError) {
    match cause {
        ClientError::Memory => line.refuse(),
        cause => line.say(cause),
    }
}

/// A request for a commit version, under the next number or under one that the line has.
pub(crate) fn ask<S: Live, R: Wait>(
    stand: &mut Stand<'_, S, R>,
    again: bool,
    line: &mut TableLine<'_>,
) {
    let Some(client) = client_at(&mut stand.clients, line) else {
        return;
    };
    let num = if again { line.number() } else { 0 };
    let (processed, at) = (line.number(), line.number());
    let found = if again {
        client.reask(stand.rt, &OpenGate, num, processed, at)
    } else {
        client.ask(stand.rt, &OpenGate, processed, at)
    };
    match found {
        Ok(issued) => {
            line.say(format_args!("{} after {}", issued.version, issued.prev));
            line.say(if issued.fresh { "fresh" } else { "kept" });
        }
        Err(cause) => say_cause(line, cause),
    }
}

/// A report of the version under a number.
pub(crate) fn report<S: Live, R: Wait>(stand: &mut Stand<'_, S, R>, line: &mut TableLine<'_>) {
    let Some(client) = client_at(&mut stand.clients, line) else {
        return;
    };
    let (num, least) = (line.number(), line.number());
    let locked = line.text.contains(" locked");
    let metadata = locked.then_some([8; 10]);
    match client.report(stand.rt, &OpenGate, num, locked, metadata, least) {
        Ok(ack) => {
            line.say(if ack.raised { "raised" } else { "not raised" });
            line.say(if ack.changed {
                "changed"
            } else {
                "not changed"
            });
            line.say(format_args!("at {}", ack.position));
        }
        Err(cause) => say_cause(line, cause),
    }
}

/// A client tells another, which is the next word.
pub(crate) fn tell<S: Live, R: Wait>(stand: &mut Stand<'_, S, R>, line: &mut TableLine<'_>) {
    if let Some(client) = client_at(&mut stand.clients, line) {
        match client.tell(line.who()) {
            Ok(token) => {
                line.say(format_args!("at {}", token.position()));
                stand.told = Some(token);
            }
            Err(cause) => say_cause(line, cause),
        }
    }
}

/// A client learns what was told last, by another, which is the next word. A token that comes back
/// is kept.
pub(crate) fn learn<S: Live, R: Wait>(stand: &mut Stand<'_, S, R>, line: &mut TableLine<'_>) {
    let Some(token) = stand.told.take() else {
        line.fails("nothing was told");
        return;
    };
    if token.reporter().is_some() {
        line.fails("a commit proxy's token");
        return;
    }
    if let Some(client) = client_at(&mut stand.clients, line) {
        stand.told = learn_token(stand.rt, client, token, line);
    }
}

/// Has a client learn what a token has seen. Answers a token that comes back.
fn learn_token<S: Live, R: Wait>(
    rt: &R,
    client: &mut Client<'_, S>,
    token: Seen<S>,
    line: &mut TableLine<'_>,
) -> Option<Seen<S>>
    requires { token.reporter ≡ None }
{
    match client.learn(rt, line.who(), token) {
        Ok(()) => {
            line.say(format_args!("at {}", client.position()));
            None
        }
        Err((cause, token)) => {
            say_cause(line, cause);
            Some(token)
        }
    }
}

/// How many calls a client has logged, and the position that it has come to, by its last call and
/// by its token.
pub(crate) fn log<S: Live, R: Wait>(stand: &mut Stand<'_, S, R>, line: &mut TableLine<'_>) {
    if let Some(client) = client_at(&mut stand.clients, line) {
        let (calls, position) = (client.calls(), client.position());
        let last = calls.last().map_or(client.begun(), |call| call.position);
        line.holds(last == position, "the position of the last call");
        line.say(format_args!("{} calls at {position}", calls.len()));
    }
}
