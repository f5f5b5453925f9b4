// The answers of the calls as overlap.h's structs of number and values: what a call found, or its refusal. The nearer row's is a struct alone.
ghost use Rattle.std.specs.Prelude.{◌≡◌};
ghost use Rattle.network.specs.Refusal.{numbered};
ghost use Rattle.conditions.specs.Values.{listed_listing, rule_verdict, updated_update};

use network::Refusal;

// Number 0 and the length of a list; the count is 0 but for eager and the short query, which is eager.
#[repr(C)]
#[derive(Clone, Copy, Debug, PartialEq, Eq)]
pub struct Listing {
    pub number: u32,
    pub count: u32,
    pub length: usize,
}

// Number 0 and yes (1) or no (0).
#[repr(C)]
#[derive(Clone, Copy, Debug, PartialEq, Eq)]
pub struct Verdict {
    pub number: u32,
    pub yes: u32,
}

// Number 0 and how many rows changed.
#[repr(C)]
#[derive(Clone, Copy, Debug, PartialEq, Eq)]
pub struct Update {
    pub number: u32,
    pub changed: u32,
}

// Of the nearer row (Ask 1): which part of which lent array its distances are: of the own ones (rival 0) or the rival's (1), from the start on. All 0 on a
// refusal but the number.
#[repr(C)]
#[derive(Clone, Copy, Debug, PartialEq, Eq)]
pub struct RowPart {
    pub number: u32,
    pub rival: u32,
    pub start: usize,
    pub length: usize,
}

// What a search or nearest found: the length of the list and the nodes expanded (0 but for eager and the short query, as in
// overlap.h's struct, so that each search answers one type).
#[derive(Clone, Copy, Debug, PartialEq, Eq)]
pub struct Listed {
    pub length: usize,
    pub count: u32,
}

// The struct of a search's answer, whatever number refuses it.
pub fn listing_of(answer: Result<Listed, u32>) -> Listing
    ensures { result ≡ listed_listing answer }
{
    match answer {
        Ok(Listed { length, count }) => Listing {
            number: 0,
            count,
            length,
        },
        Err(number) => Listing {
            number,
            count: 0,
            length: 0,
        },
    }
}

// The struct of an answer yes or no: of verify or the table check.
pub fn verdict_of(answer: Result<bool, u32>) -> Verdict
    ensures { result ≡ rule_verdict answer }
{
    match answer {
        Ok(yes) => Verdict {
            number: 0,
            yes: u32::from(yes),
        },
        Err(number) => Verdict { number, yes: 0 },
    }
}

// The struct of an update's answer: how many rows an insert or a remove changed.
pub fn update_of(answer: Result<u32, u32>) -> Update
    ensures { result ≡ updated_update answer }
{
    match answer {
        Ok(changed) => Update { number: 0, changed },
        Err(number) => Update { number, changed: 0 },
    }
}

impl From<Result<Listed, Refusal>> for Listing {
    ghost from_gives = { λ answer listing. listing ≡ listed_listing (numbered answer) };

    fn from(answer: Result<Listed, Refusal>) -> Listing {
        match answer {
            Ok(found) => listing_of(Ok(found)),
            Err(refusal) => listing_of(Err(refusal.into())),
        }
    }
}

impl From<Result<bool, Refusal>> for Verdict {
    ghost from_gives = { λ answer verdict. verdict ≡ rule_verdict (numbered answer) };

    fn from(answer: Result<bool, Refusal>) -> Verdict {
        match answer {
            Ok(yes) => verdict_of(Ok(yes)),
            Err(refusal) => verdict_of(Err(refusal.into())),
        }
    }
}

impl From<Result<u32, Refusal>> for Update {
    ghost from_gives = { λ answer update. update ≡ updated_update (numbered answer) };

    fn from(answer: Result<u32, Refusal>) -> Update {
        match answer {
            Ok(changed) => update_of(Ok(changed)),
            Err(refusal) => update_of(Err(refusal.into())),
        }
    }
}
