// The order of a row's entries: by distance, then by node.
ghost use Rattle.std.specs.Prelude.{◌≡◌, ltb};
ghost use Rattle.network.specs.Nearest.{key};

// Whether p at distance d comes before q at distance e. A distance is in 64 bits, where a sum of two fits.
pub fn precedes(p: u32, d: u64, q: u32, e: u64) -> bool
    ensures { result ≡ ltb (key (p, d)) (key (q, e)) }
{
    (d, p) < (e, q)
}
