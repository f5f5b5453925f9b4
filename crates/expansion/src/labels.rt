// What an area tells its readers, in this crate and above it: labels and settled nodes. (s, b and n as in `step`.)
ghost use Rattle.std.specs.Prelude.{◌≡◌, ◌+◌, ◌<◌, length};
ghost use Rattle.expansion.specs.Expand.{word_distance, label_in, settled_in};

use network::distance::Distance;

// The distance that a node's seat stands for.
#[tactic(auto, using(network::proofs::Tests::tests), unfolding(crate::specs::Expand::word_distance))]
pub fn distance_of(n: usize, word: u32) -> Distance
    ensures { result.value ≡ word_distance n word }
{
    if word as usize <= n {
        return Distance::new(Distance::NONE);
    }
    Distance::new(word - 1 - n as u32)
}

// The label of a node, NONE where it is not settled.
pub fn label_of(s: &[u32], b: usize, n: usize, v: u32) -> u32
    requires { b + v < length s.now }
    ensures { result ≡ label_in n s.now b v }
{
    distance_of(n, s[b + v as usize]).value
}

// The node that was settled as number i, the first as 0.
pub fn settled_node(s: &[u32], b: usize, n: usize, i: usize) -> u32
    requires { b + n + i < length s.now }
    ensures { result ≡ settled_in n s.now b i }
{
    s[b + n + i]
}
