//! A client that calls the service, one call at a time, and logs each call.

ghost use Rattle.std.specs.Prelude.{◌≡◌, ◌≢◌, [], length};
ghost use Rattle.std.specs.Prelude.{IfOk, IfErr, OnOk, OnErr, None, Some};
ghost use mathlib.Core.List.{IsPrefix};
ghost use Rattle.fdb_chain.specs.ChainCore.{chain_of, new_chain};
ghost use Rattle.fdb_history.specs.Log.{position_after_calls};
ghost use Rattle.fdb_history.specs.Strays.{issued_under};
ghost use Rattle.fdb_live.specs.Holding.{IsIssued, own_answers};
ghost use Rattle.fdb_live.specs.Seen.{own_positions};
ghost use Rattle.fdb_client.specs.Account.{Account, IsSameClient, new_account, sight};
ghost use Rattle.fdb_client.specs.Agreeing.{Agrees, AgreesWithChain};
ghost use Rattle.fdb_client.specs.Calls.{Asks, CoversTold, IsAckOf, IsDue, IsFreshUnlessOut};
ghost use Rattle.fdb_client.specs.Calls.{IsNotSetBack, IsReadOf, Learns, Reads, Reports, Tells};
ghost use Rattle.fdb_client.specs.Calls.{next_number, request_of};

use crate::error::ClientError;
use crate::journal::Journal;
use crate::reply::{self, ReadVersion, RequestId};
use fdb_history::{
    Ask, Call, CallAnswer, ClientLog, Gate, GrvOpts, Input, Issued, Record, Sequence, laws,
};
use fdb_live::{Ack, Live, LiveError, Master, Seen};
use fdb_proxy::Desk;
use std::alloc::Global;
use std::marker::Model;
use std::sync::Wait;

/// A client of the service `S`, with the log of its calls. It plays the commit proxy of its own
/// number.
///
/// Contracts see it as its number, the position that it began with, its calls, and the answers and
/// the changes that it has seen. Each call below adds one entry to the log, and returns what
/// `specs/Returned.antt` says for the answer that it logged. A call that is refused for memory is
/// not logged. A call that is refused otherwise changes nothing but the log, with two exceptions: a
/// read that is refused as `Locked` has seen the record, and an ask may show the client more
/// answers, also where it is refused.
#[derive(Drop)]
pub struct Client<'a, S: Live> {
    alloc: Global,
    id: u32,
    master: &'a Master<S>,
    token: Seen<S>,
    begun: u64,
    journal: Journal,
}

impl<'a, S: Live> Model for Client<'a, S> {
    ghost use Rattle.std.specs.Prelude.{◌≡◌, Some, length};
    ghost use Rattle.fdb_client.specs.Account.{Account};
    ghost use Rattle.fdb_client.specs.Agreeing.{Agrees, AgreesWithChain};
    ghost use Rattle.fdb_history.specs.Log.{position_after_calls};

    ghost Value = { Account };

    ghost view = { λ client. record {
      number = client.id;
      begun = client.begun;
      calls = client.journal.calls.items;
      answers = client.token.answers;
      changes = client.token.changes;
    } };

    ghost invariant = { λ client. (client.token.reporter ≡ Some client.id)
        × (position_after_calls client.begun client.journal.calls.items
        ≡ length client.token.changes)
        × Agrees S.start (record {
          number = client.id;
          begun = client.begun;
          calls = client.journal.calls.items;
          answers = client.token.answers;
          changes = client.token.changes;
        })
        × AgreesWithChain S.epoch_end S.recovery (record {
          number = client.id;
          begun = client.begun;
          calls = client.journal.calls.items;
          answers = client.token.answers;
          changes = client.token.changes;
        }) };
}

impl<'a, S: Live> Client<'a, S> {
    /// A client that has called nobody yet, with the token of the commit proxy of its number. Takes
    /// no memory.
    pub fn new(alloc: Global, id: u32, master: &'a Master<S>, token: Seen<S>) -> Self
        requires number { token.reporter ≡ Some id }
        requires drew_none { own_answers token ≡ [] }
        requires owns_none { own_positions token ≡ [] }
        ensures { result ≡ new_account id token.answers token.changes }
    {
        let begun = token.position();
        Client {
            alloc,
            id,
            master,
            token,
            begun,
            journal: Journal::new(alloc),
        }
    }

    /// The number under which it asks and reports, and at whose place its log belongs.
    pub fn number(&self) -> u32
        ensures { result ≡ self.now.number }
    {
        self.id
    }

    /// The position of the client's token when the client was made: its first call is asked from
    /// there.
    pub fn begun(&self) -> u64
        ensures { result ≡ self.now.begun }
    {
        self.begun
    }

    /// The position that it has come to: the number of changes that it has seen.
    pub fn position(&self) -> u64
        ensures seen { result ≡ length self.now.changes }
        ensures logged { result ≡ position_after_calls self.now.begun self.now.calls }
    {
        self.token.position()
    }

    /// The calls that it has logged so far, the first one first; a call refused for memory is none.
    pub fn calls(&self) -> &[Call]
        ensures { result.now ≡ self.now.calls }
    {
        self.journal.calls.as_slice()
    }

    /// Reads the read version, through the proxy of a desk (`getReadVersion` of FoundationDB's
    /// client, 7.1). The request carries a token of what the client has seen, and as the request's
    /// number the length of the client's log. Once an answer has come, the gate's `ReadAnswered` is
    /// passed with the client's number. The call waits for the answer.
    ///
    /// Where the record is locked and the read is not lock-aware, the client has seen it all the
    /// same, and the call is refused as `Locked`. An answer to another client, number or position
    /// is refused as `Stranger`, before anything else of it is looked at. A desk that is closed, an
    /// answer that says so and an answer that never comes are `ProxyClosed`; what the proxy's queue
    /// refuses is `Queue` with `BadCount`, `BatchThrottled` or `Full`. Where memory is refused to
    /// the client, the desk or the proxy's queue, the call is refused as `Memory`, and is not
    /// logged. Of a refused answer the client keeps nothing.
    pub fn read_version<R: Wait, G: Gate>(
        &mut self,
        rt: &R,
        gate: &G,
        desk: &Desk<S>,
        opts: GrvOpts,
    ) -> Result<ReadVersion, ClientError>
        ensures logged { result ≢ Err ClientError.Memory
            → Reads S.start opts self.old self.new result }
        ensures read { IfOk result (IsReadOf S.start opts self.old.changes self.new.changes) }
        ensures keeps { IsNotSetBack S.start self.old self.new }
        ensures memory { result ≡ Err ClientError.Memory → self.new ≡ self.old }
    {
        self.journal.reserve()?;
        let logged = opts.clone()?;
        let (reply, answers) = crossbeam_channel::bounded(self.alloc, 1)?;
        let own = RequestId::next(self.id, &self.journal, &self.token);
        let told = self.master.record().split(&mut self.token);
        let request = own.request(told, opts, reply);
        let answer = reply::answer_to(rt, gate, desk, request, answers);
        match answer.and_then(|answer| reply::reply_to(own, answer)) {
            Ok(reply) => reply::take_reply(
                rt,
                self.master,
                &mut self.token,
                &mut self.journal,
                logged,
                reply,
            ),
            Err(error) => {
                let input = Input::Grv(logged);
                Err(self.journal.add_refused(input, own.asked, error))
            }
        }
    }

    /// Asks the master for the next commit version, with the next request number, at the moment
    /// `at` in microseconds.
    ///
    /// It is refused as `Chain` with `Exhausted` where the versions are used up, else for memory
    /// alone. The answer is fresh, and stands at its ordinal among those that the client has then
    /// seen. Its version is above each commit version that the client had seen or was told of, and
    /// above the version that it had read; only the first commit version of the service may equal
    /// that. It waits for the other asks, and takes constant time, the growth of the log aside.
    pub fn ask<R: Wait, G: Gate>(
        &mut self,
        rt: &R,
        gate: &G,
        processed: u64,
        at: u64,
    ) -> Result<Issued, ClientError>
        ensures logged { result ≢ Err ClientError.Memory
            → Asks (new_chain S.epoch_end S.recovery S.reporters) S.start
            (next_number self.old) processed at self.old self.new result }
        ensures issued { IfOk result (IsIssued S.start
            (request_of self.old (next_number self.old) processed at)
            (sight self.old) (sight self.new)) }
        ensures fresh { IsFreshUnlessOut result }
        ensures extends { IsPrefix self.old.answers self.new.answers }
        ensures memory { result ≡ Err ClientError.Memory
            → self.new ≡ record self.old { answers = self.new.answers } }
        ensures client { IsSameClient self.old self.new }
    {
        let num = self.journal.next_number();
        self.reask(rt, gate, num, processed, at)
    }

    /// Asks the master for the commit version under any request number, as one does who has missed
    /// the answer.
    ///
    /// A number that was answered gets that answer again, all of it but `fresh`, as long as it is
    /// kept. It is refused as `Chain`: with `Early` for a number above the next one, with
    /// `Forgotten` for one that is not kept any more, and with `Exhausted` as `ask` is; else for
    /// memory alone. It waits as `ask` does.
    pub fn reask<R: Wait, G: Gate>(
        &mut self,
        rt: &R,
        gate: &G,
        num: u64,
        processed: u64,
        at: u64,
    ) -> Result<Issued, ClientError>
        ensures logged { result ≢ Err ClientError.Memory
            → Asks (new_chain S.epoch_end S.recovery S.reporters) S.start
            num processed at self.old self.new result }
        ensures issued { IfOk result (IsIssued S.start (request_of self.old num processed at)
            (sight self.old) (sight self.new)) }
        ensures due { IsDue (chain_of S.epoch_end S.recovery S.reporters self.old.answers)
            num processed at self.old result }
        ensures extends { IsPrefix self.old.answers self.new.answers }
        ensures memory { result ≡ Err ClientError.Memory
            → self.new ≡ record self.old { answers = self.new.answers } }
        ensures client { IsSameClient self.old self.new }
    {
        // The check learns here that what a request is answered is never stray.
        laws::answers_are_justified();
        self.journal.reserve_under(num)?;
        let input = Input::Ask { num, processed, at };
        let position = self.token.position();
        let ask = Ask {
            proxy: self.id,
            num,
            processed,
            at,
        };
        match self.master.ask(rt, gate, &mut self.token, ask) {
            Ok(issued) => {
                self.journal.add_answer(input, position, issued);
                Ok(issued)
            }
            Err(cause) => {
                let error = ClientError::from(cause);
                Err(self.journal.add_refused(input, position, error))
            }
        }
    }

    /// Reports the commit version that the client's log has under a request number, or the first
    /// one, where the log has several, with these flags and this minimum known committed version.
    ///
    /// It is refused as `NotIssued` where the log has none, else as `Live` with `MinAbove` where
    /// the minimum known committed version is above that version, else for memory alone. It waits
    /// for the other reports, and takes constant time, the growth of the log aside.
    pub fn report<R: Wait, G: Gate>(
        &mut self,
        rt: &R,
        gate: &G,
        num: u64,
        locked: bool,
        metadata: Option<[u8; 10]>,
        min_known: u64,
    ) -> Result<Ack, ClientError>
        ensures logged { result ≢ Err ClientError.Memory
            → Reports S.start num locked metadata min_known self.old self.new result }
        ensures acked { IfOk result
            (IsAckOf S.start (issued_under self.old.calls num) self.new.changes) }
        ensures keeps { IsNotSetBack S.start self.old self.new }
        ensures memory { result ≡ Err ClientError.Memory → self.new ≡ self.old }
    {
        self.journal.reserve()?;
        let input = Input::Report {
            num,
            locked,
            metadata,
            min_known,
        };
        let asked = self.token.position();
        let Some(version) = self.journal.version_under(num) else {
            let error = ClientError::NotIssued;
            return Err(self.journal.add_refused(input, asked, error));
        };
        let rec = Record {
            version,
            locked,
            metadata,
            min_known,
        };
        match self
            .master
            .record()
            .report(rt, gate, self.id, &mut self.token, rec)
        {
            Ok(ack) => {
                self.journal.add(Call {
                    input,
                    asked,
                    position: ack.position,
                    answer: CallAnswer::Acked {
                        rec,
                        raised: ack.raised,
                        changed: ack.changed,
                    },
                });
                Ok(ack)
            }
            Err(LiveError::MinAbove) => {
                let error = ClientError::Live(LiveError::MinAbove);
                Err(self.journal.add_refused(input, asked, error))
            }
            // The versions of a chain are in range, and a report takes no memory.
            Err(LiveError::TooLarge | LiveError::Memory) => unreachable!(),
        }
    }

    /// A token that has seen what the client has, for another client to learn.
    ///
    /// It is refused for memory alone, and waits for nobody.
    pub fn tell(&mut self, to: u32) -> Result<Seen<S>, ClientError>
        ensures logged { OnOk result (Tells to self.old self.new) }
        ensures given { IfOk result (λ told. told ≡ record (sight self.old) { reporter = None }) }
        ensures stays { sight self.new ≡ sight self.old }
        ensures memory { IfErr result (λ cause. cause ≡ ClientError.Memory) }
        ensures unchanged { OnErr result (self.new ≡ self.old) }
        ensures client { IsSameClient self.old self.new }
    {
        self.journal.reserve()?;
        let told = self.master.record().split(&mut self.token);
        let position = self.token.position();
        self.journal.add(Call {
            input: Input::Tell { to },
            asked: position,
            position,
            answer: CallAnswer::Told,
        });
        Ok(told)
    }

    /// Learns what another client had seen when it told so.
    ///
    /// It is refused for memory alone, and the token is then handed back.
    pub fn learn<R: Wait>(
        &mut self,
        rt: &R,
        from: u32,
        told: Seen<S>,
    ) -> Result<(), (ClientError, Seen<S>)>
        requires { told.reporter ≡ None }
        ensures logged { OnOk result (Learns from told self.old self.new) }
        ensures told { OnOk result (CoversTold S.start told self.new) }
        ensures keeps { IsNotSetBack S.start self.old self.new }
        ensures memory { IfErr result (λ refused. refused.0 ≡ ClientError.Memory) }
        ensures handed_back { IfErr result (λ refused. refused.1 ≡ told) }
        ensures unchanged { OnErr result (self.new ≡ self.old) }
    {
        if self.journal.reserve().is_err() {
            return Err((ClientError::Memory, told));
        }
        let asked = self.token.position();
        self.master.record().learn(rt, &mut self.token, told);
        self.journal.add(Call {
            input: Input::Learn { from },
            asked,
            position: self.token.position(),
            answer: CallAnswer::Told,
        });
        Ok(())
    }

    /// The client's log and its token, which agree with one another. They do so also where the log
    /// is read as that of a client that began at the first position, whatever position this one
    /// began at; that is what settling asks for. Takes no memory.
    pub fn finish(self) -> (ClientLog, Seen<S>)
        ensures log { result.0 ≡ record { calls = self.entry.calls } }
        ensures token { result.1 ≡ sight self.entry }
        ensures come_to { position_after_calls self.entry.begun self.entry.calls
            ≡ length self.entry.changes }
        ensures agrees { Agrees S.start self.entry }
        ensures chain { AgreesWithChain S.epoch_end S.recovery self.entry }
        ensures settles { Agrees S.start (record self.entry { begun = 0 }) }
    {
        let Client {
            alloc: _,
            id: _,
            master: _,
            token,
            begun: _,
            journal,
        } = self;
        let calls = Sequence::from(journal.calls);
        (ClientLog { calls }, token)
    }
}
