// How the programs write entries, lists and answers.
ghost use Rattle.std.specs.Iterator.{IsFinite};

use crate::answers::Refused;
use network::distance::Distance;
use std::fmt;

// A distance or an id, NONE by its name.
#[derive(Clone, Copy, Debug, PartialEq, Eq)]
pub struct Entry(pub u32);

impl fmt::Display for Entry {
    fn fmt<W: fmt::Write>(&self, f: &mut fmt::Formatter<W>) -> fmt::Result {
        if self.0 == Distance::NONE {
            f.write_str("NONE")
        } else {
            write!(f, "{}", self.0)
        }
    }
}

// A locker found, as "2 at 7".
#[derive(Clone, Copy, Debug, PartialEq, Eq)]
pub struct AtDistance {
    pub id: u32,
    pub distance: u32,
}

impl fmt::Display for AtDistance {
    fn fmt<W: fmt::Write>(&self, f: &mut fmt::Formatter<W>) -> fmt::Result {
        write!(f, "{} at {}", self.id, self.distance)
    }
}

// Items with a comma between each two, or "none".
pub fn commas<W: fmt::Write, T: fmt::Display + Drop, I: Iterator<Item = T> + Drop>(
    f: &mut fmt::Formatter<W>,
    items: I,
) -> fmt::Result
    requires can { I.can_next items }
    requires ends { IsFinite (I.remaining items) }
{
    let mut items = items;
    let Some(first) = items.next() else {
        return f.write_str("none");
    };
    write!(f, "{first}")?;
    for item in items {
        write!(f, ", {item}")?;
    }
    Ok(())
}

// A list, as "2, 4", or "none".
#[derive(Clone, Copy, Debug, PartialEq, Eq)]
pub struct Entries<'a>(pub &'a [u32]);

impl fmt::Display for Entries<'_> {
    fn fmt<W: fmt::Write>(&self, f: &mut fmt::Formatter<W>) -> fmt::Result {
        commas(f, self.0.iter().map(|&entry| Entry(entry)))
    }
}

// What a call answers, or the number that refuses it.
#[derive(Clone, Copy, Debug, PartialEq, Eq)]
pub struct Answer<T>(pub Result<T, Refused>);

impl<T: fmt::Display> fmt::Display for Answer<T> {
    fn fmt<W: fmt::Write>(&self, f: &mut fmt::Formatter<W>) -> fmt::Result {
        match &self.0 {
            Ok(answer) => write!(f, "{answer}"),
            Err(refused) => write!(f, "{refused}"),
        }
    }
}
