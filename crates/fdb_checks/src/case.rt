//! Why a case of a test ends early: memory was refused, or something failed.
//!
//! Comparisons, each of which fails with a text that shows the case. Each contract says when one
//! passes, so that a test that is proved cannot rest on one that lets everything through.
//!
//! Tables of cases. Each line has some calls, what there is of something or how great it is, and
//! the numbers of that at which the calls are made, between bars. `few` stands for numbers up to 101,
//! and `many` for those beside 2^16.

ghost use Rattle.std.specs.Prelude.{◌≡◌, bytes_eq, is_ok};

use std::alloc::{AllocError, AllocFailed, Global};
use std::fmt::{Debug, Display};
use std::test::Fail;

/// Why a case of a test ends early. It may hold a failure, which cannot be dropped, so it has to be
/// returned or looked at.
pub enum CaseError {
    /// Memory was refused. The test itself decides whether it may end so.
    Memory,
    /// Something is not as it should be.
    Failed(Fail),
}

impl CaseError {
    /// Passes a refusal of memory, and hands on a failure.
    pub fn was_refusal(self) -> Result<(), Fail> {
        match self {
            CaseError::Memory => Ok(()),
            CaseError::Failed(fail) => Err(fail),
        }
    }
}

impl From<AllocError> for CaseError {
    fn from(_error: AllocError) -> CaseError {
        CaseError::Memory
    }
}

impl<T: Drop> From<AllocFailed<T>> for CaseError {
    fn from(_error: AllocFailed<T>) -> CaseError {
        CaseError::Memory
    }
}

impl From<Fail> for CaseError {
    fn from(fail: Fail) -> CaseError {
        CaseError::Failed(fail)
    }
}

impl From<CaseError> for Fail {
    fn from(error: CaseError) -> Fail {
        match error {
            CaseError::Memory => Fail::new("out of memory"),
            CaseError::Failed(fail) => fail,
        }
    }
}

/// Fails where what was found is not what was wanted, and shows the case and both.
pub fn same<T: PartialEq + Debug>(found: &T, wanted: &T, case: &impl Display) -> Result<(), Fail>
    ensures { is_ok result ≡ T.eq found.now wanted.now }
{
    if found == wanted {
        Ok(())
    } else {
        Err(Fail::new(format_args!("{case}: {found:?} in place of {wanted:?}")))
    }
}

/// Fails where a text is not what was wanted, and shows the case and both, as far as there is room.
pub fn same_text(found: &str, wanted: &str, case: &str) -> Result<(), Fail>
    ensures { is_ok result ≡ bytes_eq found.now wanted.now }
{
    if found != wanted {
        return Err(Fail::new(format_args!("{case}: {found:?} in place of {wanted:?}")));
    }
    Ok(())
}

/// Fails where something does not hold, and shows the case.
pub fn holds(condition: bool, case: &impl Display) -> Result<(), Fail>
    ensures { is_ok result ≡ condition }
{
    if condition {
        Ok(())
    } else {
        Err(Fail::new(format_args!("{case}")))
    }
}

/// Fails where a value is not shown as wanted.
pub fn says(alloc: Global, shown: &impl Display, wanted: &str) -> Result<(), Fail> {
    same_text(&format!(in alloc; "{shown}")?, wanted, wanted)
}

/// Some calls, and a number at which they are made.
#[derive(Clone, Copy)]
pub struct Case<'a> {
    /// A line of the table without its numbers: the calls and, behind a bar, where there is one,
    /// the thing of which there are `number` or which is as great as that.
    pub calls: &'a str,
    /// What stands behind the bar in `calls`, or nothing where there is none.
    pub of: &'a str,
    /// The number at which the calls are made: how many there are of `of`, or how great it is.
    pub number: u64,
}

impl Case<'_> {
    /// Fails where the case failed, or a call was refused memory.
    pub fn ends(self, played: Result<(), CaseError>) -> Result<(), Fail>
        ensures { is_ok result ≡ is_ok played }
    {
        let Case { calls, number, .. } = self;
        match played {
            Ok(()) => Ok(()),
            Err(CaseError::Memory) => Err(Fail::new(format_args!("refused: {calls}: {number}"))),
            Err(CaseError::Failed(fail)) => Err(fail),
        }
    }
}

/// The cases of a table, which has one at least.
pub fn cases<'a>(alloc: Global, table: &'a str) -> Result<Vec<Case<'a>>, Fail> {
    let mut cases = Vec::new(alloc);
    for line in table.lines() {
        if let Some((calls, numbers)) = line.rsplit_once('|') {
            add_line(alloc, &mut cases, calls.trim(), numbers)?;
        }
    }
    if cases.is_empty() {
        return Err(Fail::new("a table without a line"));
    }
    Ok(cases)
}

/// Adds a case for each number of a line, among which `few` and `many` may stand. Fails at a word that is
/// none.
fn add_line<'a>(
    alloc: Global,
    cases: &mut Vec<Case<'a>>,
    calls: &'a str,
    numbers: &str,
) -> Result<(), Fail> {
    let of = calls.rsplit_once('|').map_or("", |parts| parts.1.trim());
    let numbers = numbers.replace(alloc, "few", "1 2 5 6 64 101")?;
    let numbers = numbers.replace(alloc, "many", "65535 65536 65537")?;
    for word in numbers.split_whitespace() {
        match word.parse() {
            Ok(number) => cases.push(Case { calls, of, number })?,
            Err(_) => return Err(Fail::new(format_args!("{word} is no number: {calls}"))),
        }
    }
    Ok(())
}
