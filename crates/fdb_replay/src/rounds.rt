//! A round of a run: each client does its commands, and then they learn what they told one another.

ghost use Rattle.std.specs.Prelude.{◌≡◌, ◌+◌, ◌++◌, ◌≤◌, ◌<◌, [], ℕ, true, false, OnOk, IfOk};
ghost use Rattle.std.specs.Prelude.{length, fold, slice_index_or, vec_len};
ghost use Rattle.std.specs.List.{FoldsTo};
ghost use Rattle.std.specs.Thread.{IsSync, IsSend};
ghost use Rattle.fdb_client.specs.Settling.{logs_of};
ghost use Rattle.fdb_script.specs.Answering.{AnswersCommand, AnswersRound, commands_of};
ghost use Rattle.fdb_script.specs.declared.script.TheConstants.{MAX_CLIENTS};
ghost use Rattle.fdb_replay.specs.private.Rounds.{IsPlayed, numbers_of, teach, tells_since};

use crate::player::{Player, Routing, Tell};
use fdb_history::{Gate, Sequence};
use fdb_live::Live;
use fdb_script::{Command, MAX_CLIENTS};
use std::alloc::{AllocError, Global};
use std::snapshot::Snapshot;
use std::sync::Wait;
use std::thread::{self, Promise, Scope, Threads};

/// The most clients of a run, as the length of an array.
const CLIENTS: usize = MAX_CLIENTS as usize;

/// What is done in a round, and by whom.
#[derive(Drop)]
struct Round<'a> {
    commands: &'a [Command],
    /// Whether the client with this number has a command.
    acts: [bool; CLIENTS],
    ghost idle: { (client : ℕ) → slice_index_or acts client true ≡ false
        → commands_of client commands.now ≡ [] },
}

impl<'a> Round<'a> {
    /// The round of these commands, which are looked through once for who acts.
    fn new(commands: &'a [Command]) -> Self
        ensures { result.commands.now ≡ commands.now }
    {
        Round {
            commands,
            acts: acts_in(commands),
        }
    }

    /// Whether any of some clients has a command: so many, from this number on.
    fn acts_among(&self, first: u32, clients: usize) -> bool
        requires { first + clients ≤ MAX_CLIENTS }
        ensures some { result ≡ true → 0 < clients }
        ensures idle { result ≡ false → (k : ℕ) → k < clients
            → commands_of (first + k) self.now.commands.now ≡ [] }
    {
        let first = first as usize;
        for number in first..first + clients {
            if self.acts[number] {
                return true;
            }
        }
        false
    }
}

/// Which clients have one of these commands.
#[tactic(auto, using(crate::proofs::Acts::one_set, crate::proofs::Acts::none_set))]
fn acts_in(commands: &[Command]) -> [bool; CLIENTS]
    ensures { (client : ℕ) → slice_index_or result client true ≡ false
        → commands_of client commands.now ≡ [] }
{
    let mut acts = [false; CLIENTS];
    for command in commands {
        let number = command.client as usize;
        if number < acts.len() {
            acts[number] = true;
        }
    }
    acts
}

/// A round that is played: what runs it, what serves it, and what is done in it.
#[derive(Drop)]
struct Playing<'r, R, S: Live, G: Gate> {
    rt: &'r R,
    alloc: Global,
    routing: &'r Routing<'r, S, G>,
    round: Round<'r>,
}

/// Plays rounds, one after another. Where memory runs out, the clients are lost.
pub(crate) fn play_rounds<'a, S: Live + Send + Sync, R: Threads + Wait + Sync, G: Gate>(
    rt: &R,
    alloc: Global,
    routing: &Routing<'_, S, G>,
    mut clients: Vec<Player<'a, S>>,
    rounds: &[Sequence<Command>],
) -> Result<Vec<Player<'a, S>>, AllocError>
    requires few { length clients.items ≤ MAX_CLIENTS }
    ensures ok { IfOk result (λ after.
        FoldsTo AnswersRound (logs_of clients.entry.items) rounds.now (logs_of after.items)) }
    ensures numbers { IfOk result
        (λ after. numbers_of after.items ≡ numbers_of clients.entry.items) }
{
    for commands in rounds {
        clients = play_round(rt, alloc, routing, clients, commands.as_slice())?;
    }
    Ok(clients)
}

/// Plays a round. What was told in it is learnt at its end.
fn play_round<'a, S: Live + Send + Sync, R: Threads + Wait + Sync, G: Gate>(
    rt: &R,
    alloc: Global,
    routing: &Routing<'_, S, G>,
    clients: Vec<Player<'a, S>>,
    commands: &[Command],
) -> Result<Vec<Player<'a, S>>, AllocError>
    requires few { length clients.items ≤ MAX_CLIENTS }
    ensures ok { IfOk result
        (λ after. AnswersRound (logs_of clients.entry.items) commands.now (logs_of after.items)) }
    ensures numbers { IfOk result
        (λ after. numbers_of after.items ≡ numbers_of clients.entry.items) }
{
    let round = Round::new(commands);
    let playing = Playing {
        rt,
        alloc,
        routing,
        round,
    };
    let part = play_all(&playing, clients)?;
    let Part { mut clients, tells } = part;
    learn_all(rt, &mut clients, tells)?;
    Ok(clients)
}

/// Clients that have done their commands of a round, and what they told others by that.
#[derive(Drop)]
struct Part<'a, S: Live> {
    clients: Vec<Player<'a, S>>,
    tells: Vec<Tell<S>>,
}

impl<'a, S: Live> Part<'a, S> {
    /// Both parts as one: the clients and what they told, behind those of this part.
    fn joined(mut self, mut next: Part<'a, S>) -> Result<Self, AllocError>
        ensures { IfOk result (λ whole.
            (whole.clients.items ≡ self.entry.clients.items ++ next.entry.clients.items)
            × (whole.tells.items ≡ self.entry.tells.items ++ next.entry.tells.items)) }
    {
        self.clients.append(&mut next.clients)?;
        self.tells.append(&mut next.tells)?;
        Ok(self)
    }
}

/// What a thread promises: that these clients, numbered from this one on, do their commands of a
/// round, unless memory is refused.
#[derive(Drop)]
struct Plays<'a, 'c, S: Live> {
    first: u32,
    commands: &'c [Command],
    clients: Snapshot<Vec<Player<'a, S>>>,
}

impl<'a, 'c, S: Live> Promise<Result<Part<'a, S>, AllocError>> for Plays<'a, 'c, S> {
    ghost use Rattle.std.specs.Prelude.{IfOk};
    ghost use Rattle.fdb_replay.specs.private.Rounds.{IsPlayed};

    ghost kept_by = { λ promise result. IfOk result (λ part.
        IsPlayed promise.first promise.commands.now
        promise.clients.value.items part.clients.items part.tells.items) };
}

/// Has all clients do their commands of a round. Answers what they told, by client
/// and then by command. However it ends, each thread of the round has ended.
fn play_all<'a, S: Live + Send + Sync, R: Threads + Wait + Sync, G: Gate>(
    playing: &Playing<'_, R, S, G>,
    clients: Vec<Player<'a, S>>,
) -> Result<Part<'a, S>, AllocError>
    requires few { vec_len clients ≤ MAX_CLIENTS }
    ensures { IfOk result (λ part.
        IsPlayed 0 playing.now.round.commands.now
        clients.entry.items part.clients.items part.tells.items) }
{
    thread::scope(
        thread::scope_env(),
        playing.rt,
        move |scope| -> Result<Part<'_, S>, AllocError>
            requires { IsSync R.row × IsSync S.row × IsSend S.row × IsSync G.row
                × (vec_len clients ≤ MAX_CLIENTS) }
            ensures { IfOk result (λ part.
                IsPlayed 0 playing.entry.now.round.commands.now
                clients.entry.items part.clients.items part.tells.items) }
        { play_part(scope, playing, 0, clients) },
    )
}

/// Has these clients do their commands of a round, each that has any in a thread of its own, the
/// last of them in this one. Their numbers go up from this one. Answers what they told, by client
/// and then by command.
///
/// It fails only where memory runs out, or where a thread cannot be
/// had. However it ends, each thread that it started has been joined.
#[cycle(parts)]
#[tactic(auto, using(crate::proofs::Parts::one_played_at))]
fn play_part<'s, 'a: 's, E, S: Live + Send + Sync, R: Threads + Wait + Sync, G: Gate>(
    scope: &'s Scope<'s, E>,
    playing: &'s Playing<'s, R, S, G>,
    first: u32,
    mut clients: Vec<Player<'a, S>>,
) -> Result<Part<'a, S>, AllocError>
    requires few { first + vec_len clients ≤ MAX_CLIENTS }
    ensures { IfOk result (λ part.
        IsPlayed first playing.now.round.commands.now
        clients.entry.items part.clients.items part.tells.items) }
{
    if !playing.round.acts_among(first, clients.len()) {
        return Ok(Part {
            clients,
            tells: Vec::new(playing.alloc),
        });
    }
    if clients.len() == 1 {
        let tells = play_client(playing, first, &mut clients[0])?;
        return Ok(Part { clients, tells });
    }
    let half = clients.len() / 2;
    let others = clients.split_off(half)?;
    let (front, back) = play_halves(scope, playing, first, clients, others)?;
    front.joined(back)
}

/// Has two halves of the clients do their commands of a round: where both have a client that acts,
/// the front one in a new thread. Where that cannot be had, neither half begins.
#[cycle(parts)]
fn play_halves<'s, 'a: 's, E, S: Live + Send + Sync, R: Threads + Wait + Sync, G: Gate>(
    scope: &'s Scope<'s, E>,
    playing: &'s Playing<'s, R, S, G>,
    first: u32,
    front: Vec<Player<'a, S>>,
    back: Vec<Player<'a, S>>,
) -> Result<(Part<'a, S>, Part<'a, S>), AllocError>
    requires some_front { 0 < vec_len front }
    requires some_back { 0 < vec_len back }
    requires few { first + (vec_len front + vec_len back) ≤ MAX_CLIENTS }
    ensures front { IfOk result (λ parts. IsPlayed first playing.now.round.commands.now
        front.entry.items parts.0.clients.items parts.0.tells.items) }
    ensures back { IfOk result (λ parts.
        IsPlayed (first + vec_len front.entry) playing.now.round.commands.now
        back.entry.items parts.1.clients.items parts.1.tells.items) }
{
    let next = first + front.len() as u32;
    let round = &playing.round;
    if !round.acts_among(first, front.len()) || !round.acts_among(next, back.len()) {
        let front = play_part(scope, playing, first, front)?;
        let back = play_part(scope, playing, next, back)?;
        return Ok((front, back));
    }
    let promise = Plays {
        first,
        commands: round.commands,
        clients: Snapshot::of(&front),
    };
    let play_front = move || -> Result<Part<'_, S>, AllocError>
        requires { IsSync R.row × IsSync S.row × IsSend S.row × IsSync G.row
            × (first + vec_len front ≤ MAX_CLIENTS) }
        ensures { IfOk result (λ part.
            IsPlayed first playing.entry.now.round.commands.now
            front.entry.items part.clients.items part.tells.items) }
    { play_part(scope, playing, first, front) };
    let Ok(thread) = scope.spawn_with(promise, play_front) else {
        return Err(AllocError);
    };
    let ours = play_part(scope, playing, next, back);
    let theirs = thread.join(playing.rt)?;
    Ok((theirs, ours?))
}

/// Has a client do its commands of a round, in order, and answers what it told.
#[tactic(auto, using(crate::proofs::Grown::not_grown))]
fn play_client<S: Live, R: Wait, G: Gate>(
    playing: &Playing<'_, R, S, G>,
    number: u32,
    client: &mut Player<'_, S>,
) -> Result<Vec<Tell<S>>, AllocError>
    ensures ok { OnOk result (FoldsTo AnswersCommand client.old.calls
        (commands_of number playing.now.round.commands.now) client.new.calls) }
    ensures number { OnOk result (client.new.number ≡ client.old.number) }
    ensures told { IfOk result
        (λ tells. tells.items ≡ tells_since number client.old client.new) }
{
    let commands = playing.round.commands;
    let mut tells = Vec::new(playing.alloc);
    for command in commands {
        if command.client == number {
            client.perform(
                playing.rt,
                playing.routing,
                number,
                &command.act,
                &mut tells,
            )?;
        }
    }
    Ok(tells)
}

/// Has each client learn what it was told, by teller and then by command.
#[tactic(auto, using(crate::proofs::Learnt::one_learns, crate::proofs::Learnt::nobody_learns, crate::proofs::Learnt::same_numbers))]
fn learn_all<S: Live, R: Wait>(
    rt: &R,
    clients: &mut Vec<Player<'_, S>>,
    tells: Vec<Tell<S>>,
) -> Result<(), AllocError>
    ensures learnt { OnOk result
        (logs_of clients.new.items ≡ fold teach (logs_of clients.old.items) tells.items) }
    ensures numbers { OnOk result
        (numbers_of clients.new.items ≡ numbers_of clients.old.items) }
{
    for tell in tells {
        let to = tell.to as usize;
        if to < clients.len() {
            clients[to].learn(rt, tell)?;
        }
    }
    Ok(())
}
