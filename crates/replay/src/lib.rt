// Replays a list of calls: build, then insert and remove, each with its own node, K and scratch length. What comes out is the plain book's.
#![tactic(auto)]

ghost use Rattle.std.specs.Prelude.{◌≡◌, length};
ghost use Rattle.network.specs.Count.{any};
ghost use Rattle.network.specs.Network.{network};
ghost use Rattle.table_calls.specs.Updated.{Arrays, ChangeExported};
ghost use Rattle.replay.specs.Calls.{CallArrays, kind_of};
ghost use Rattle.replay.specs.Outcome.{Lent, asks_more_at, is_unfit, replay_outcome};
ghost use Rattle.replay.specs.Followed.{HasCall, words_at, ListFits, CallsFollowed};

use conditions::kind::Kind;
use overlap::Update;
use std::error::Error;
use std::fmt;

// Why no call is made: the list does not fit its arrays, or the build is refused with a number. A number and no `Refusal`: the public build answers one.
#[derive(Clone, Copy, Debug, PartialEq, Eq)]
pub enum ReplayError {
    Unfit,
    Refused(u32),
}

impl fmt::Display for ReplayError {
    fn fmt<W: fmt::Write>(&self, f: &mut fmt::Formatter<W>) -> fmt::Result {
        match self {
            ReplayError::Unfit => f.write_str("unfit"),
            ReplayError::Refused(number) => write!(f, "build refused {number}"),
        }
    }
}

impl Error for ReplayError {}

// A call, as the words of the list say it.
#[derive(Clone, Copy, Debug, PartialEq, Eq)]
pub struct CallWords {
    pub kind: Kind,
    pub node: u32,
    pub places: u32,
    pub length: usize,
}

// The list as it is lent: entry j of each array is of call j.
#[derive(Clone, Copy, Debug)]
struct Calls<'a> {
    kinds: &'a [u32],
    nodes: &'a [u32],
    places: &'a [u32],
    lengths: &'a [usize],
}

// What a kind's word says: 0 is insert, every other remove.
fn kind_of(word: u32) -> Kind
    ensures { result ≡ kind_of word }
{
    match word {
        0 => Kind::Insert,
        _ => Kind::Remove,
    }
}

// Whether a call asks more words of scratch than are lent.
#[tactic(auto, using(crate::proofs::Asking::length_steps))]
fn asks_more(lengths: &[usize], words: usize) -> bool
    ensures { result ≡ any (asks_more_at words lengths.now) (length lengths.now) }
{
    for &length in lengths {
        if words < length {
            return true;
        }
    }
    false
}

impl Calls<'_> {
    // Call j.
    fn get(self, j: usize) -> CallWords
        requires { HasCall (record { kinds = self.kinds.now; nodes = self.nodes.now; places = self.places.now; lengths = self.lengths.now }) j }
        ensures { let list : CallArrays = record { kinds = self.entry.kinds.now; nodes = self.entry.nodes.now; places = self.entry.places.now; lengths = self.entry.lengths.now } in
            result ≡ words_at list j }
    {
        CallWords {
            kind: kind_of(self.kinds[j]),
            node: self.nodes[j],
            places: self.places[j],
            length: self.lengths[j],
        }
    }

    // Whether an array has not one entry for each call, or a call asks a scratch longer than the one lent.
    #[tactic(auto, unfolding(crate::specs::Outcome::is_unfit))]
    fn unfit(self, words: usize, numbers: usize, counts: usize) -> bool
        ensures { let list : CallArrays = record { kinds = self.entry.kinds.now; nodes = self.entry.nodes.now; places = self.entry.places.now; lengths = self.entry.lengths.now } in
            result ≡ is_unfit list words numbers counts }
    {
        let calls = self.kinds.len();
        self.nodes.len() != calls
            || self.places.len() != calls
            || self.lengths.len() != calls
            || numbers != calls
            || counts != calls
            || asks_more(self.lengths, words)
    }
}

// One call. The network stays three arrays, as `overlap` takes it.
fn one(
    call: CallWords,
    starts: &[u32],
    neighbours: &[u32],
    weights: &[u32],
    points: &mut [u8],
    scratch: &mut [u32],
    ids: &mut [u32],
    distances: &mut [u32],
) -> Update
    ensures { let g = network starts.now neighbours.now weights.now in
        let old : Arrays = record { points = points.old; scratch = scratch.old; ids = ids.old; distances = distances.old } in
        let new : Arrays = record { points = points.new; scratch = scratch.new; ids = ids.new; distances = distances.new } in
        ChangeExported call.kind g call.node call.places old new result }
{
    let CallWords { node, places, .. } = call;
    match call.kind {
        Kind::Insert => overlap::overlap_insert(
            starts, neighbours, weights, points, node, places, scratch, ids, distances,
        ),
        Kind::Remove => overlap::overlap_remove(
            starts, neighbours, weights, points, node, places, scratch, ids, distances,
        ),
    }
}

// All calls in their order, each lent as much of scratch as it asks; its number and its changed count go to its entries.
fn follow(
    calls: Calls<'_>,
    starts: &[u32],
    neighbours: &[u32],
    weights: &[u32],
    points: &mut [u8],
    scratch: &mut [u32],
    ids: &mut [u32],
    distances: &mut [u32],
    numbers: &mut [u32],
    counts: &mut [u32],
)
    requires { let old : Lent = record { points = points.old; scratch = scratch.old; ids = ids.old; distances = distances.old; numbers = numbers.old; counts = counts.old } in
        ListFits (record { kinds = calls.kinds.now; nodes = calls.nodes.now; places = calls.places.now; lengths = calls.lengths.now }) old }
    ensures { let g = network starts.now neighbours.now weights.now in
        let old : Lent = record { points = points.old; scratch = scratch.old; ids = ids.old; distances = distances.old; numbers = numbers.old; counts = counts.old } in
        let new : Lent = record { points = points.new; scratch = scratch.new; ids = ids.new; distances = distances.new; numbers = numbers.new; counts = counts.new } in
        let list : CallArrays = record { kinds = calls.entry.kinds.now; nodes = calls.entry.nodes.now; places = calls.entry.places.now; lengths = calls.entry.lengths.now } in
        CallsFollowed g list (length list.kinds) old new }
{
    for j in 0..calls.kinds.len() {
        let call = calls.get(j);
        let update = one(
            call,
            starts,
            neighbours,
            weights,
            points,
            &mut scratch[..call.length],
            ids,
            distances,
        );
        numbers[j] = update.number;
        counts[j] = update.changed;
    }
}

// Builds the table and makes the calls. Lent: what build is lent, the list (an entry for each call in kinds, nodes, each_places and lengths), and two
// arrays for its answers, of any lengths and contents. Returned: Unfit for a list that does not fit its arrays, and Refused with build's number; then
// nothing is written. Ok: each call's number and changed count are the plain book's, the marks are the book's, both table arrays hold the rows
// of those marks, and the whole scratch is zero. The lists stay parameters of their own, as README names this call for programs that hold them so.
pub fn replay(
    starts: &[u32],
    neighbours: &[u32],
    weights: &[u32],
    points: &mut [u8],
    places: u32,
    scratch: &mut [u32],
    ids: &mut [u32],
    distances: &mut [u32],
    kinds: &[u32],
    nodes: &[u32],
    each_places: &[u32],
    lengths: &[usize],
    numbers: &mut [u32],
    counts: &mut [u32],
) -> Result<(), ReplayError>
    ensures { let g = network starts.now neighbours.now weights.now in
        let list : CallArrays = record { kinds = kinds.now; nodes = nodes.now; places = each_places.now; lengths = lengths.now } in
        let old : Lent = record { points = points.old; scratch = scratch.old; ids = ids.old; distances = distances.old; numbers = numbers.old; counts = counts.old } in
        let new : Lent = record { points = points.new; scratch = scratch.new; ids = ids.new; distances = distances.new; numbers = numbers.new; counts = counts.new } in
        record { answer = result; left = new } ≡ replay_outcome g places list old }
{
    let calls = Calls {
        kinds,
        nodes,
        places: each_places,
        lengths,
    };
    if calls.unfit(scratch.len(), numbers.len(), counts.len()) {
        return Err(ReplayError::Unfit);
    }
    let number = overlap::overlap_build(
        starts, neighbours, weights, points, places, scratch, ids, distances,
    );
    if number != 0 {
        return Err(ReplayError::Refused(number));
    }
    follow(
        calls, starts, neighbours, weights, points, scratch, ids, distances, numbers, counts,
    );
    Ok(())
}
