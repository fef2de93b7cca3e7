// The turn of one waiting edge: it tries its forests, and the edges on its paths come to wait.
#![tactic(auto)]

ghost use Rattle.std.specs.Prelude.{◌≢◌, ◌≡◌, ◌<◌, ◌≤◌, length};
ghost use Rattle.rule.specs.Sets.{In, numbers};
ghost use Rattle.rule.specs.Forests.{limit};
ghost use Rattle.theory.specs.Search.{try_forest, try_forests};
ghost use Rattle.reaching.specs.Laid.{TakesIn};
ghost use Rattle.reaching.specs.Words.{Coming, standing_at};
ghost use Rattle.reaching.specs.Trying.{Tells};
ghost use Rattle.reaching.specs.Queues.{ReachesIn, TryingIn, AfterIn};

use rule::Edge;
use tables::Tables;

mod waiting;

pub use waiting::Queue;

// Edge e waits among those from place first on, in number order. (Put in its place by hand: the list is the queue's own, in fixed memory; `TakesIn` of specs/Laid.antt.)
fn wait(e: u16, first: usize, size: usize, edges: &mut [u16; 379])
    requires { (first ≤ size) × (size < 379) }
    ensures { TakesIn e first size edges.old edges.new }
{
    for q in (first..size).rev() {
        if edges[q] < e {
            edges[q + 1] = e;
            return;
        }
        edges[q + 1] = edges[q];
    }
    edges[first] = e;
}

// The edges of a word, which stand in a table from index base on, wait behind the others, smallest number first, reached from a place.
fn reach(base: usize, word: u64, edge: &[u16; 384], place: u16, queue: &mut Queue)
    requires { (base ≤ 320) × Coming (standing_at edge.now base) word queue.old.size 379 }
    ensures { (t : Coming (standing_at edge.now base) word queue.old.size 379)
        → ReachesIn (numbers t.edges t.most) place queue.old queue.new }
{
    let first = queue.size;
    for t in words::set_bits(word) {
        let n = queue.size;
        wait(edge[base + t], first, n, &mut queue.edges);
        queue.from[n] = place;
        queue.size = n + 1;
    }
}

// The edge, waiting at a place, tries forest f, which is not its own: f where it is free, and else none.
fn try_forest(
    f: usize,
    edge: Edge,
    place: usize,
    tables: &Tables,
    queue: &mut Queue,
) -> Option<usize>
    requires { (t : TryingIn edge place tables.now queue.old)
        × (In (limit t.d t.x) f × (t.forest t.x ≢ f)) }
    ensures { (t : TryingIn edge place tables.now queue.old)
        → In (limit t.d t.x) f → t.forest t.x ≢ f
        → Tells (AfterIn t queue.new) place (try_forest t.d t.forest place t.x f t.w) queue.new.size result }
{
    let u = usize::from(edge.one);
    let v = usize::from(edge.other);
    if !tables.labels.joined(f, u, v) {
        return Some(f);
    }
    let on = tables.path(f, u, v);
    let g = f - 1;
    let old = queue.seen[g];
    let both = old | on;
    queue.seen[g] = both;
    // (`as`: the place is below 379, and u16 has no `From<usize>`.)
    reach(g * 64, both ^ old, &tables.edge, place as u16, queue);
    None
}

// The edge, waiting at a place, tries its forests 1 to last in number order, passing over its own: the first that is free, and else
// none, and then the edges on its paths wait too. (`own` is 0 for the new edge: a forest of 0 is none in `forest_of` of crate rule. Inlined by a hint: the book of a light design is a tenth slower without.)
#[inline(always)]
pub fn try_forests(
    own: usize,
    last: usize,
    edge: Edge,
    place: usize,
    tables: &Tables,
    queue: &mut Queue,
) -> Option<usize>
    requires { (t : TryingIn edge place tables.now queue.old)
        × ((limit t.d t.x ≡ last) × (t.forest t.x ≡ own)) }
    ensures { (t : TryingIn edge place tables.now queue.old)
        → limit t.d t.x ≡ last → t.forest t.x ≡ own
        → Tells (AfterIn t queue.new) place (try_forests t.d t.forest place t.x last t.w) queue.new.size result }
{
    for f in 1..=last {
        if f == own {
            continue;
        }
        if let Some(free) = try_forest(f, edge, place, tables, queue) {
            return Some(free);
        }
    }
    None
}
