// The network as it is lent, and a node's arcs as the parts of the caller's arrays that they are: document 01, 'The network'.
ghost use Rattle.std.specs.Prelude.{◌≡◌, ◌+◌, ◌≤◌, ◌<◌, length};
ghost use Rattle.network.specs.Network.{network, node_count, arc_count, part_of, neighbours_of, weights_of};
ghost use Rattle.network.specs.Parts.{HasPart, Searchable};
ghost use Rattle.network.specs.Check.{has_arc};

use std::marker::Model;

// 'Three lent arrays of 32-bit unsigned numbers', of any lengths and values: only the check says whether they are a network.
#[derive(Drop)]
pub struct Network<'a> {
    pub(crate) starts: &'a [u32],
    pub(crate) neighbours: &'a [u32],
    pub(crate) weights: &'a [u32],
}

impl<'a> Model for Network<'a> {
    ghost use Rattle.network.specs.Network.{Network as Lent, network};

    ghost Value = { Lent };

    ghost view = { λ g. network g.starts.now g.neighbours.now g.weights.now };
}

// Node i's part of an array that has an entry for each arc, its neighbours or its weights. Nothing is copied.
fn part_of<'a>(starts: &[u32], entries: &'a [u32], i: usize) -> &'a [u32]
    requires { HasPart starts.now entries.now i }
    ensures { result.now ≡ part_of starts.now entries.now i }
{
    &entries[starts[i] as usize..starts[i + 1] as usize]
}

// The neighbours of node i: of the three arrays only theirs need outlive the part.
pub fn neighbours_of<'a>(starts: &[u32], neighbours: &'a [u32], i: usize) -> &'a [u32]
    requires { HasPart starts.now neighbours.now i }
    ensures { result.now ≡ part_of starts.now neighbours.now i }
{
    part_of(starts, neighbours, i)
}

// The weights of node i's arcs, in the order of its neighbours: of the three arrays only theirs need outlive the part.
pub fn weights_of<'a>(starts: &[u32], weights: &'a [u32], i: usize) -> &'a [u32]
    requires { HasPart starts.now weights.now i }
    ensures { result.now ≡ part_of starts.now weights.now i }
{
    part_of(starts, weights, i)
}

impl<'a> Network<'a> {
    pub fn new(starts: &'a [u32], neighbours: &'a [u32], weights: &'a [u32]) -> Self
        ensures { result ≡ network starts.now neighbours.now weights.now }
    {
        Self {
            starts,
            neighbours,
            weights,
        }
    }

    // n, the number of nodes.
    pub fn nodes(&self) -> usize
        requires { 1 ≤ length self.now.starts }
        ensures { result ≡ node_count self.now }
    {
        self.starts.len() - 1
    }

    // A, the number of arcs.
    pub fn arcs(&self) -> usize
        ensures { result ≡ arc_count self.now }
    {
        self.neighbours.len()
    }

    // The neighbours of node i.
    pub fn neighbours_of(&self, i: usize) -> &'a [u32]
        requires { HasPart self.now.starts self.now.neighbours i }
        ensures { result.now ≡ neighbours_of self.now i }
    {
        neighbours_of(self.starts, self.neighbours, i)
    }

    // The weights of node i's arcs, in the order of its neighbours.
    pub fn weights_of(&self, i: usize) -> &'a [u32]
        requires { HasPart self.now.starts self.now.weights i }
        ensures { result.now ≡ weights_of self.now i }
    {
        weights_of(self.starts, self.weights, i)
    }

    // Whether node b has an arc to node a of weight w. Costs the logarithm of b's number of arcs.
    pub fn has_arc(&self, b: usize, a: u32, w: u32) -> bool
        requires searchable { Searchable self.now }
        requires b_in_bounds { b + 1 < length self.now.starts }
        ensures { result ≡ has_arc self.now b a w }
    {
        match self.neighbours_of(b).binary_search(&a) {
            Ok(place) => self.weights_of(b)[place] == w,
            Err(_) => false,
        }
    }
}
