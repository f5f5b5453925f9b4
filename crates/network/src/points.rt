// The lockers of a node: document 02, Ask 8, 'A point byte becomes the number of lockers there'.
ghost use Rattle.std.specs.Prelude.{◌≡◌, ◌≤◌};
ghost use Rattle.network.specs.Points.{lockers};

// How many lockers stand at a node; none where the word is no node.
pub fn lockers_at(points: &[u8], node: u32) -> usize
    ensures { (result ≡ lockers points.now node) × (result ≤ 255) }
{
    match points.get(node as usize) {
        Some(&all) => usize::from(all),
        None => 0,
    }
}
