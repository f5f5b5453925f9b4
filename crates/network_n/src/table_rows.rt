// The tables of network N, and the rows of one with K = 2.
ghost use Rattle.std.specs.Prelude.{◌<◌};

use crate::NODES;
use crate::text::{Entry, commas};
use std::{fmt, io};

// A table with K = places; N is the length of its arrays, 6 × K of a table that fits.
#[derive(Clone, Copy, Debug, PartialEq, Eq)]
pub struct Table<const N: usize> {
    pub places: u32,
    pub ids: [u32; N],
    pub distances: [u32; N],
}

impl<const N: usize> Table<N> {
    // Not yet built.
    pub fn new(places: u32) -> Self {
        Table {
            places,
            ids: [0; N],
            distances: [0; N],
        }
    }
}

impl Table<12> {
    // The two places of a node.
    pub fn row(&self, node: usize) -> TableRow<'_>
        requires { node < 6 }
    {
        let first = 2 * node;
        TableRow {
            ids: &self.ids[first..first + 2],
            distances: &self.distances[first..first + 2],
        }
    }

    pub fn show_rows(&self, rt: &impl Print) -> io::Result<()> {
        for node in 0..NODES {
            println!(rt; "    row {node}: {}", self.row(node))?;
        }
        Ok(())
    }
}

// One place of a row, as "(2, 7)".
#[derive(Clone, Copy, Debug, PartialEq, Eq)]
struct Place {
    id: u32,
    distance: u32,
}

impl fmt::Display for Place {
    fn fmt<W: fmt::Write>(&self, f: &mut fmt::Formatter<W>) -> fmt::Result {
        write!(f, "({}, {})", Entry(self.id), Entry(self.distance))
    }
}

// A row, as "(2, 7), (4, 8)".
#[derive(Clone, Copy, Debug, PartialEq, Eq)]
pub struct TableRow<'a> {
    ids: &'a [u32],
    distances: &'a [u32],
}

impl fmt::Display for TableRow<'_> {
    fn fmt<W: fmt::Write>(&self, f: &mut fmt::Formatter<W>) -> fmt::Result {
        let places = self.ids.iter().zip(self.distances);
        commas(f, places.map(|(&id, &distance)| Place { id, distance }))
    }
}
