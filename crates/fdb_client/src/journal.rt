//! The log of a client, and what makes it quick to look into.

ghost use Rattle.std.specs.Prelude.{◌≡◌, ℕ, ◌+◌, ◌<◌, ◌≤◌, ◌++◌, ◌∷◌, [], IfNone, IfSome, OnOk};
ghost use Rattle.std.specs.Prelude.{Some, filter, length, vec_len, vec_capacity, ◌==◌, None};
ghost use Rattle.std.specs.Option.{option_or};
ghost use Rattle.fdb_history.specs.Log.{answer_in, fresh_answers, position_after_calls};
ghost use Rattle.fdb_history.specs.Strays.{issued_under};
ghost use Rattle.fdb_history.specs.declared.register.TheConstants.{MAX_VERSION};
ghost use Rattle.fdb_client.specs.Returned.{error_of};
ghost use Rattle.fdb_client.specs.private.Refusals.{refusal_for};
ghost use Rattle.fdb_client.specs.private.Versions.{HasCapacityUnder, version_under, version_among};
ghost use Rattle.fdb_client.specs.private.Versions.{version_in_turn, version_of};

use crate::error::ClientError;
use fdb_history::{Call, CallAnswer, Input, Issued};
use std::alloc::{AllocError, Global};

/// The calls of a client, how many commit versions it drew, and the version under each request
/// number.
#[derive(Drop)]
pub(crate) struct Journal {
    pub(crate) calls: Vec<Call>,
    /// How many of its answers are fresh ones.
    pub(crate) drawn: u64,
    /// The versions in its answers, of each number the first one.
    pub(crate) versions: Versions,
    pub(crate) ghost few: { drawn ≤ vec_len calls },
    pub(crate) ghost counted: { drawn ≡ length (fresh_answers calls.items) },
    pub(crate) ghost found: { (num : ℕ)
        → version_under versions.in_turn.items versions.others.items num
        ≡ issued_under calls.items num },
    pub(crate) ghost in_range: { (num version : ℕ)
        → issued_under calls.items num ≡ Some version → version ≤ MAX_VERSION },
}

impl Journal {
    pub(crate) fn new(alloc: Global) -> Journal
        ensures { result.calls.items ≡ [] }
    {
        Journal {
            calls: Vec::new(alloc),
            drawn: 0,
            versions: Versions::new(alloc),
        }
    }

    pub(crate) fn len(&self) -> u64
        ensures { result ≡ length self.now.calls.items }
    {
        self.calls.len() as u64
    }

    /// The number of the next request for a commit version.
    pub(crate) fn next_number(&self) -> u64
        ensures { result ≡ 1 + length (fresh_answers self.now.calls.items) }
    {
        self.drawn + 1
    }

    /// The version of the first answer under a request number, if there is one.
    pub(crate) fn version_under(&self, num: u64) -> Option<u64>
        ensures first { result ≡ issued_under self.now.calls.items num }
        ensures in_range { IfSome result (λ version. version ≤ MAX_VERSION) }
    {
        self.versions.under(num)
    }

    /// Reserves capacity for a call that gets no commit version.
    pub(crate) fn reserve(&mut self) -> Result<(), AllocError>
        ensures calls { self.new.calls.items ≡ self.old.calls.items }
        ensures capacity { OnOk result (vec_len self.new.calls < vec_capacity self.new.calls) }
    {
        self.calls.reserve(1)
    }

    /// Reserves capacity for a request under a number.
    pub(crate) fn reserve_under(&mut self, num: u64) -> Result<(), AllocError>
        ensures calls { self.new.calls.items ≡ self.old.calls.items }
        ensures capacity { OnOk result (vec_len self.new.calls < vec_capacity self.new.calls) }
        ensures under { OnOk result (HasCapacityUnder num self.new.versions) }
    {
        self.calls.reserve(1)?;
        self.versions.reserve(num)
    }

    /// Adds a call that got no commit version.
    #[tactic(auto, using(crate::proofs::Calls::position_of_added))]
    pub(crate) fn add(&mut self, call: Call)
        requires capacity { vec_len self.old.calls < vec_capacity self.old.calls }
        requires none { answer_in call.answer ≡ [] }
        ensures calls { self.new.calls.items ≡ self.old.calls.items ++ call ∷ [] }
        ensures come_to { (begun : ℕ)
            → position_after_calls begun self.new.calls.items ≡ call.position }
    {
        self.calls.push_reserved(call);
    }

    /// Adds a call that was refused, but for memory, and hands on why.
    pub(crate) fn add_refused(
        &mut self,
        input: Input,
        position: u64,
        error: ClientError,
    ) -> ClientError
        requires { vec_len self.old.calls < vec_capacity self.old.calls }
        ensures calls { IfSome (refusal_for error)
            (λ cause. self.new.calls.items ≡ self.old.calls.items ++ record {
              input = input;
              asked = position;
              position = position;
              answer = CallAnswer.Refused cause;
            } ∷ []) }
        ensures come_to { IfSome (refusal_for error)
            (λ _. (begun : ℕ) → position_after_calls begun self.new.calls.items ≡ position) }
        ensures unlogged { IfNone (refusal_for error) (self.new ≡ self.old) }
        ensures error { IfSome (refusal_for error) (λ cause. error ≡ error_of cause) }
        ensures same { result ≡ error }
    {
        if let Some(cause) = error.refusal() {
            self.add(Call {
                input,
                asked: position,
                position,
                answer: CallAnswer::Refused(cause),
            });
        }
        error
    }

    /// Adds a request that was answered, and counts it as drawn where its answer is fresh.
    #[tactic(auto, using(crate::proofs::Calls::position_of_added))]
    pub(crate) fn add_answer(&mut self, input: Input, position: u64, issued: Issued)
        requires capacity { vec_len self.old.calls < vec_capacity self.old.calls }
        requires under { HasCapacityUnder issued.num self.old.versions }
        requires in_range { issued.version ≤ MAX_VERSION }
        ensures calls { self.new.calls.items ≡ self.old.calls.items ++ record {
          input = input;
          asked = position;
          position = position;
          answer = CallAnswer.Answered issued;
        } ∷ [] }
        ensures come_to { (begun : ℕ) → position_after_calls begun self.new.calls.items ≡ position }
    {
        self.drawn += drawn_by(issued);
        self.versions.keep(issued);
        self.calls.push_reserved(Call {
            input,
            asked: position,
            position,
            answer: CallAnswer::Answered(issued),
        });
    }
}

/// How many commit versions were drawn for an answer: one, or none.
fn drawn_by(issued: Issued) -> u64
    ensures counted { result ≡ length (filter (λ one. one.fresh) (issued ∷ [])) }
    ensures few { result ≤ 1 }
{
    u64::from(issued.fresh)
}

/// The version that was issued under each request number, by the first answer that has it.
///
/// A client that alone asks under its number gets its answers in turn, so that a version is found
/// under its number. Those that come out of turn are searched, one by one.
#[derive(Drop)]
pub(crate) struct Versions {
    /// The version under number `m` stands at `m - 1`.
    pub(crate) in_turn: Vec<u64>,
    /// The first answers with any other number.
    pub(crate) others: Vec<Issued>,
}

impl Versions {
    pub(crate) fn new(alloc: Global) -> Versions
        ensures in_turn { result.in_turn.items ≡ [] }
        ensures others { result.others.items ≡ [] }
    {
        Versions {
            in_turn: Vec::new(alloc),
            others: Vec::new(alloc),
        }
    }

    pub(crate) fn under(&self, num: u64) -> Option<u64>
        ensures { result ≡ version_under self.now.in_turn.items self.now.others.items num }
    {
        self.in_turn(num).or(self.among_others(num))
    }

    /// The version under a number, if it stands in turn.
    fn in_turn(&self, num: u64) -> Option<u64>
        ensures { result ≡ version_in_turn self.now.in_turn.items num }
    {
        if num == 0 {
            return None;
        }
        self.in_turn.get((num - 1) as usize).copied()
    }

    /// The version under a number, if it came out of turn.
    fn among_others(&self, num: u64) -> Option<u64>
        ensures { result ≡ version_among self.now.others.items num }
    {
        let found = self.others.iter().find(|issued| issued.num == num)?;
        Some(found.version)
    }

    /// Reserves capacity for one more answer, where one with this number is to be kept.
    pub(crate) fn reserve(&mut self, num: u64) -> Result<(), AllocError>
        ensures in_turn { self.new.in_turn.items ≡ self.old.in_turn.items }
        ensures others { self.new.others.items ≡ self.old.others.items }
        ensures capacity { OnOk result (HasCapacityUnder num self.new) }
    {
        if num == self.in_turn.len() as u64 + 1 {
            return self.in_turn.reserve(1);
        }
        if self.under(num).is_none() {
            return self.others.reserve(1);
        }
        Ok(())
    }

    /// Keeps the version of an answer, unless there is one under its number.
    #[tactic(auto, using(crate::proofs::Kept::others_more))]
    pub(crate) fn keep(&mut self, issued: Issued)
        requires { HasCapacityUnder issued.num self.old }
        ensures { (num : ℕ) → version_under self.new.in_turn.items self.new.others.items num
            ≡ option_or (version_under self.old.in_turn.items self.old.others.items num)
            (version_of issued num) }
    {
        if self.under(issued.num).is_some() {
            return;
        }
        if issued.num == self.in_turn.len() as u64 + 1 {
            self.in_turn.push_reserved(issued.version);
        } else {
            self.others.push_reserved(issued);
        }
    }
}
