//! The members that are read of a line's JSON object, and what they say, however that was read.

ghost use Rattle.std.specs.Prelude.{◌≡◌, is_some, option_and_then, option_map};
ghost use Rattle.serde_json.specs.Find.{as_null, as_str, get};
ghost use Rattle.serde_json.specs.View.{view};
ghost use Rattle.fdb_log_reader.specs.Members.{name_of, has, member_of, whole};

use serde_json::Value;
use std::fmt;

/// A member of a line. Others are ignored. A line has just one from `Read` to `Learn`, which is a
/// version, a whole number below 2^64, or for `Learn` a name.
#[derive(Clone, Copy, Debug, PartialEq, Eq)]
pub enum Member {
    /// Whose call it was, a text. It may be left out of a log with times.
    Client,
    Read,
    Commit,
    Ask,
    Report,
    /// The name of a client: what it had seen by the lines above is known from here on.
    Learn,
    /// When the call began, a whole number of any one unit.
    Began,
    /// When the call ended, in the unit of `Began`, or null where that is not known.
    Ended,
}

impl Member {
    /// The name of the member in a line's object: the variant's name, in small letters.
    pub fn name(self) -> &'static str
        ensures { result.now ≡ name_of self }
    {
        match self {
            Member::Client => "client",
            Member::Read => "read",
            Member::Commit => "commit",
            Member::Ask => "ask",
            Member::Report => "report",
            Member::Learn => "learn",
            Member::Began => "began",
            Member::Ended => "ended",
        }
    }
}

impl fmt::Display for Member {
    ghost use Rattle.std.specs.Prelude.{Some};
    ghost use Rattle.fdb_log_reader.specs.Members.{name_of};

    ghost output = { λ member. Some (name_of member) };

    fn fmt<W: fmt::Write>(&self, f: &mut fmt::Formatter<W>) -> fmt::Result {
        f.write_str(self.name())
    }
}

/// A line, by what its members say.
pub(crate) trait Said {
    ghost use Rattle.std.specs.Prelude.{ℕ, List, Option};
    ghost use Rattle.serde_json.specs.Data.{Data};
    ghost use Rattle.fdb_log_reader.specs.declared.member.Member.{Member};

    ghost says: { Self → Member → Option Data };

    ghost says_beside: { Self → List ℕ → Option Data };

    /// Whether a member is there.
    fn has(&self, member: Member) -> bool
        ensures { result ≡ has (says self.now) member };

    /// What a member says, where that is a whole number below 2^64.
    fn number(&self, member: Member) -> Option<u64>
        ensures { result ≡ option_and_then whole (says self.now member) };

    /// What a member says, where that is a text.
    fn text(&self, member: Member) -> Option<&str>
        ensures { option_map (λ text. text.now) result
            ≡ option_and_then as_str (says self.now member) };

    /// Whether a member says null.
    fn is_null(&self, member: Member) -> bool
        ensures { result ≡ is_some (option_and_then as_null (says self.now member)) };

    /// Whether a further member is there, by its name.
    fn has_beside(&self, name: &str) -> bool
        ensures { result ≡ is_some (says_beside self.now name.now) };

    /// What a further member says, where that is a whole number below 2^64.
    fn number_beside(&self, name: &str) -> Option<u64>
        ensures { result ≡ option_and_then whole (says_beside self.now name.now) };

    /// What a further member says, where that is a text.
    fn text_beside(&self, name: &str) -> Option<&str>
        ensures { option_map (λ text. text.now) result
            ≡ option_and_then as_str (says_beside self.now name.now) };
}

impl Said for Value {
    ghost says = { λ value. member_of (view value) };

    ghost says_beside = { λ value name. get name (view value) };

    fn has(&self, member: Member) -> bool {
        self.get(member.name()).is_some()
    }

    fn number(&self, member: Member) -> Option<u64> {
        self.get(member.name()).and_then(Value::as_u64)
    }

    fn text(&self, member: Member) -> Option<&str> {
        self.get(member.name()).and_then(Value::as_str)
    }

    fn is_null(&self, member: Member) -> bool {
        match self.get(member.name()) {
            Some(said) => said.is_null(),
            None => false,
        }
    }

    fn has_beside(&self, name: &str) -> bool {
        self.get(name).is_some()
    }

    fn number_beside(&self, name: &str) -> Option<u64> {
        self.get(name).and_then(Value::as_u64)
    }

    fn text_beside(&self, name: &str) -> Option<&str> {
        self.get(name).and_then(Value::as_str)
    }
}
