// What the calls on N answer: a refusal by its number, or what the call found.
ghost use Rattle.std.specs.Prelude.{◌≡◌, ◌↔◌, IsTrue, MatchResult};
ghost use Rattle.network_n.specs.Answers.{Answers};
ghost use Rattle.network_n.specs.declared.answers.Side.TheVariants.{Own};

use crate::NODES;
use crate::text::{AtDistance, Entries, commas};
use overlap::{RowPart, Update, Verdict};
use std::error::Error;
use std::{fmt, io};

// The number that refuses a call, as overlap.h gives it: never 0.
#[derive(Clone, Copy, Debug, PartialEq, Eq)]
pub struct Refused(pub u32);

impl fmt::Display for Refused {
    fn fmt<W: fmt::Write>(&self, f: &mut fmt::Formatter<W>) -> fmt::Result {
        write!(f, "refused by {}", self.0)
    }
}

impl Error for Refused {}

// A program ends where a call that it builds on is refused.
impl From<Refused> for io::Error {
    fn from(_refused: Refused) -> io::Error {
        io::ErrorKind::InvalidInput.into()
    }
}

// What overlap.h's number says: 0 accepts.
pub fn accepted(number: u32) -> Result<(), Refused>
    ensures { Answers number (λ _. number ≡ 0) result }
{
    if number == 0 {
        Ok(())
    } else {
        Err(Refused(number))
    }
}

// The number of an answer, 0 where it is accepted.
pub fn number<T>(answer: &Result<T, Refused>) -> u32
    ensures { MatchResult answer.now (λ _. result ≡ 0) (λ refused. result ≡ refused.0) }
{
    match answer {
        Ok(_) => 0,
        Err(refused) => refused.0,
    }
}

// Yes or no, by the rule or by the table check.
#[derive(Clone, Copy, Debug, PartialEq, Eq)]
pub struct YesNo(pub bool);

impl TryFrom<Verdict> for YesNo {
    type Error = Refused;

    ghost try_from_gives = { λ verdict. Answers verdict.number (λ answer. IsTrue answer.0 ↔ (verdict.yes ≡ 1)) };

    fn try_from(verdict: Verdict) -> Result<Self, Refused> {
        accepted(verdict.number)?;
        Ok(YesNo(verdict.yes == 1))
    }
}

impl fmt::Display for YesNo {
    fn fmt<W: fmt::Write>(&self, f: &mut fmt::Formatter<W>) -> fmt::Result {
        f.write_str(if self.0 { "yes" } else { "no" })
    }
}

// How many rows of the table an update changed.
#[derive(Clone, Copy, Debug, PartialEq, Eq)]
pub struct Changed(pub u32);

impl TryFrom<Update> for Changed {
    type Error = Refused;

    ghost try_from_gives = { λ update. Answers update.number (λ answer. answer.0 ≡ update.changed) };

    fn try_from(update: Update) -> Result<Self, Refused> {
        accepted(update.number)?;
        Ok(Changed(update.changed))
    }
}

impl fmt::Display for Changed {
    fn fmt<W: fmt::Write>(&self, f: &mut fmt::Formatter<W>) -> fmt::Result {
        write!(f, "changed {}", self.0)
    }
}

// Of two tables, the one whose row is nearer.
#[derive(Clone, Copy, Debug, PartialEq, Eq)]
pub enum Side {
    Own,
    Rival,
}

impl TryFrom<RowPart> for Side {
    type Error = Refused;

    ghost try_from_gives = { λ part. Answers part.number (λ side. (side ≡ Own) ↔ (part.rival ≡ 0)) };

    fn try_from(part: RowPart) -> Result<Self, Refused> {
        accepted(part.number)?;
        Ok(if part.rival == 0 {
            Side::Own
        } else {
            Side::Rival
        })
    }
}

impl fmt::Display for Side {
    fn fmt<W: fmt::Write>(&self, f: &mut fmt::Formatter<W>) -> fmt::Result {
        f.write_str(match self {
            Side::Own => "own",
            Side::Rival => "the rival's",
        })
    }
}

// The first entries of an array that a call was lent, `length` of them; behind them it is as it was lent.
#[derive(Clone, Copy, Debug, PartialEq, Eq)]
pub struct List {
    pub entries: [u32; NODES],
    pub length: usize,
}

impl List {
    // `min`, since the calls on N say nothing of how long their lists are.
    pub fn as_slice(&self) -> &[u32] {
        &self.entries[..self.length.min(NODES)]
    }
}

impl fmt::Display for List {
    fn fmt<W: fmt::Write>(&self, f: &mut fmt::Formatter<W>) -> fmt::Result {
        write!(f, "{}", Entries(self.as_slice()))
    }
}

// A search's list with the count of nodes expanded.
#[derive(Clone, Copy, Debug, PartialEq, Eq)]
pub struct Search {
    pub list: List,
    pub expanded: u32,
}

impl fmt::Display for Search {
    fn fmt<W: fmt::Write>(&self, f: &mut fmt::Formatter<W>) -> fmt::Result {
        write!(f, "{}; expanded {}", self.list, self.expanded)
    }
}

// Eager's search with the nodes that it expanded, in the order of its visits.
#[derive(Clone, Copy, Debug, PartialEq, Eq)]
pub struct Eager {
    pub search: Search,
    pub visits: List,
}

impl fmt::Display for Eager {
    fn fmt<W: fmt::Write>(&self, f: &mut fmt::Formatter<W>) -> fmt::Result {
        write!(f, "{} ({})", self.search, self.visits)
    }
}

// The lockers nearest to a node, `length` of them, and their distances.
#[derive(Clone, Copy, Debug, PartialEq, Eq)]
pub struct NearestList {
    pub ids: [u32; 3],
    pub distances: [u32; 3],
    pub length: usize,
}

impl fmt::Display for NearestList {
    fn fmt<W: fmt::Write>(&self, f: &mut fmt::Formatter<W>) -> fmt::Result {
        let found = self.ids.iter().zip(&self.distances).take(self.length);
        commas(f, found.map(|(&id, &distance)| AtDistance { id, distance }))
    }
}
