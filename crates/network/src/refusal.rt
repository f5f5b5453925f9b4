// Why a call is refused: document 01, 'Numbers of refusal', with document 02's 14.
ghost use Rattle.std.specs.Prelude.{◌≡◌};
ghost use Rattle.network.specs.Refusal.{number_of, number};

use std::error::Error;
use std::fmt;

// The conditions in the order in which they are tried.
#[derive(Clone, Copy, Debug, PartialEq, Eq, PartialOrd, Ord, Hash)]
pub enum Refusal {
    Size,
    Starts,
    Neighbours,
    Weights,
    Returns,
    Points,
    Node,
    Table,
    Nearest,
    Short,
    Lockers,
    Limit,
    Route,
}

impl From<Refusal> for u32 {
    ghost from_gives = { λ r n. n ≡ number_of r };

    fn from(refusal: Refusal) -> u32 {
        match refusal {
            Refusal::Size => 1,
            Refusal::Starts => 2,
            Refusal::Neighbours => 3,
            Refusal::Weights => 4,
            Refusal::Returns => 5,
            Refusal::Points => 6,
            Refusal::Node => 7,
            Refusal::Table => 8,
            Refusal::Nearest => 9,
            Refusal::Short => 10,
            Refusal::Lockers => 11,
            Refusal::Limit => 12,
            Refusal::Route => 14,
        }
    }
}

// The number that a call returns: 0 where it is accepted.
pub fn number(outcome: Result<(), Refusal>) -> u32
    ensures { result ≡ number outcome }
{
    match outcome {
        Ok(()) => 0,
        Err(refusal) => refusal.into(),
    }
}

impl fmt::Display for Refusal {
    fn fmt<W: fmt::Write>(&self, f: &mut fmt::Formatter<W>) -> fmt::Result {
        f.write_str(match self {
            Refusal::Size => "starts has fewer than 2 or more than 65,536 entries",
            Refusal::Starts => "starts, neighbours and weights do not fit together",
            Refusal::Neighbours => "a neighbour is no other node, or does not rise",
            Refusal::Weights => "a weight is 0 or above 65,535",
            Refusal::Returns => "an arc lacks its return",
            Refusal::Points => "points has not n entries, or a byte above 15",
            Refusal::Node => "a node is n or more",
            Refusal::Table => "K is not 2 to 17, or a table array has not n times K entries",
            Refusal::Nearest => "k is 0 or too large",
            Refusal::Short => "an array is too short",
            Refusal::Lockers => "the node has no locker, or has no place for one more",
            Refusal::Limit => "the count would exceed the limit",
            Refusal::Route => "the route is empty, or has two nodes without a road",
        })
    }
}

impl Error for Refusal {}
