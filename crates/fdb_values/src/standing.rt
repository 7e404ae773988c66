//! Where a value stands among others.

ghost use Rattle.std.specs.Prelude.{◌<◌, ◌^◌};

use std::cmp::Ordering;

/// A value, by where its zone stands among others.
#[derive(Clone, Copy, Debug, Drop)]
pub(crate) struct Standing {
    key: u128,
    value: u64,
    ghost fits: { value < 2 ^ 64 },
}

impl Standing {
    ghost use Rattle.std.specs.Prelude.{◌≡◌, nat_lt};
    ghost use Rattle.std.specs.Ordering.{nat_cmp};
    ghost use Rattle.fdb_values.specs.Standings.{standing_number};

    pub(crate) fn new(key: u128, value: u64) -> Self
        ensures key { result.key ≡ key }
        ensures value { result.value ≡ value }
    {
        Standing { key, value }
    }

    /// The order of values: by zone, and where zones stand alike by the values themselves.
    pub(crate) fn order(&self, other: &Standing) -> Ordering
        ensures { result ≡ nat_cmp (standing_number self.now) (standing_number other.now) }
    {
        if self.key == other.key {
            self.value.cmp(&other.value)
        } else {
            self.key.cmp(&other.key)
        }
    }

    /// Whether it stands below another.
    pub(crate) fn is_below(&self, other: &Standing) -> bool
        ensures { result ≡ nat_lt (standing_number self.now) (standing_number other.now) }
    {
        self.key < other.key || (self.key == other.key && self.value < other.value)
    }
}
