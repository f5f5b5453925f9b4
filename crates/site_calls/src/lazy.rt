// The lazy and the lazy-EP call: their work once no condition is met. Document 01, 'What a site receives': 'Lazy (000, 3.3) and lazy-EP (000, 4.2):
// the list.'
ghost use Rattle.std.specs.Prelude.{◌≡◌};
ghost use Rattle.searches.specs.Eager.{CanSearch, HasPlaces};
ghost use Rattle.lazy_searches.specs.Lazy.{SearchLeft};
ghost use Rattle.lazy_searches.specs.LazyEp.{CanExtend};
ghost use Rattle.numbers.specs.Ready.{SearchReady};
ghost use Rattle.site_calls.specs.Lazy.{lazy_outcome};
ghost use Rattle.network.specs.Refusal.{numbered};

use conditions::answers::Listed;
use network::{Network, Refusal};

// Which of the two. (No function in its place: its parameter would state again all that `search` asks and promises.)
#[derive(Clone, Copy, Debug, PartialEq, Eq)]
pub enum Method {
    Lazy,
    LazyEp,
}

// The one or the other, over an area that is all 0 before and after.
fn search(
    method: Method,
    g: &Network<'_>,
    points: &[u8],
    area: &mut [u32],
    answers: &mut [u32],
    q: u32,
    k: usize,
) -> usize
    requires can_search { CanSearch g.now points.now area.old q k }
    requires has_places { HasPlaces g.now answers.old }
    requires can_extend { CanExtend g.now points.now area.old answers.old q k }
    ensures { SearchLeft g.now points.now q k area.old area.new answers.old answers.new result }
{
    match method {
        Method::Lazy => lazy_searches::lazy::lazy(g, points, area, answers, q, k),
        Method::LazyEp => { lazy_searches::lazy_ep::lazy_ep(g, points, area, answers, q, k) }
    }
}

// Clears the scratch, and searches over the part of it that either search fills: lazy-EP has rows of k places and a second queue of k A + n entries
// and more.
fn run(
    method: Method,
    g: &Network<'_>,
    points: &[u8],
    q: u32,
    k: u32,
    scratch: &mut [u32],
    answers: &mut [u32],
) -> usize
    requires { SearchReady g.now points.now q k scratch.old answers.old }
    ensures { SearchLeft g.now points.now q k scratch.old scratch.new answers.old answers.new result }
{
    let n = g.nodes();
    let arcs = g.arcs();
    let k = k as usize;
    let used = 12 * n + 2 * k * (n + arcs);
    scratch.fill(0);
    search(method, g, points, &mut scratch[..used], answers, q, k)
}

// The whole call.
#[tactic(auto, using(crate::proofs::Outcomes::lazy_refused, conditions::proofs::NotMet::number_some, crate::proofs::Outcomes::lazy_done, numbers::proofs::Ready::search_ready, numbers::proofs::Cleared::all_zero))]
pub fn answer(
    method: Method,
    g: &Network<'_>,
    points: &[u8],
    q: u32,
    k: u32,
    scratch: &mut [u32],
    answers: &mut [u32],
) -> Result<Listed, Refusal>
    ensures { record { answer = numbered result; scratch = scratch.new; answers = answers.new }
        ≡ lazy_outcome g.now points.now q k scratch.old answers.old }
{
    numbers::check_search(g, points, q, k, scratch, answers)?;
    let length = run(method, g, points, q, k, scratch, answers);
    Ok(Listed { length, count: 0 })
}
