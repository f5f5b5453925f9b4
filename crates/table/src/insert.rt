// Insert: document 01, 'The table'. An expansion from the new point that stops behind a row that does not take it.
ghost use Rattle.table.specs.Insert.{CanInsert};
ghost use Rattle.table.specs.Updated.{UpdateLeft};
ghost use Rattle.network.specs.Points.{more_at};

use expansion::step;
use expansion::step::Taken;
use network::Network;
use rows::put;

// Adds a locker to a node and brings the table up to date. Returns how many rows changed. All words are 0 before and after. The mark comes last: no
// row is read from the marks.
pub fn insert(
    g: &Network<'_>,
    points: &mut [u8],
    s: &mut [u32],
    ids: &mut [u32],
    distances: &mut [u32],
    x: u32,
    places: usize,
) -> u32
    requires { CanInsert g.now points.old s.old ids.old distances.old x places }
    ensures { UpdateLeft g.now points.old (more_at points.old x) points.new s.old s.new ids.old distances.old ids.new distances.new places result }
{
    let n = g.nodes();
    step::start(s, 0, n, x);
    let mut settled = 0;
    let mut len = 1;
    let mut changed = 0;
    while let Some(
        Taken {
            label,
            node,
            left,
            ..
        },
    ) = step::next(s, 0, n, len)
    {
        let took = put::put_in_row(ids, distances, places, node as usize, x, label);
        step::settle(s, 0, n, settled, node, label);
        settled += 1;
        len = left;
        if took {
            changed += 1;
            len = step::open(g, s, 0, left, node, label);
        }
    }
    step::clear(s, 0, n, settled, 0);
    points[x as usize] += 1;
    changed
}
