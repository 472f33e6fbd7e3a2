// The best place of a new unit: the rank at which enrolling it would leave the fewest labels. It is found on copies, so that
// nothing changes.
#![tactic(auto)]

ghost use Rattle.std.specs.Prelude.{◌≡◌, ℕ, ◌+◌, ◌<◌, ◌≤◌, length};
ghost use Rattle.theory.specs.Maps.{enrolled};
ghost use Rattle.theory.specs.Counts.{count};
ghost use Rattle.theory.specs.Ranks.{inserted, Orders};
ghost use Rattle.theory.specs.Lists.{total};
ghost use Rattle.theory.specs.Changes.{New};
ghost use Rattle.theory.specs.Sizes.{rows_total};
ghost use Rattle.labels.specs.Holding.{holds, rows_of};
ghost use Rattle.plain.specs.Placing.{best_from};
ghost use Rattle.grid.specs.Meaning.{matrix_map};
ghost use Rattle.partners.specs.Joins.{Gives, joined};
ghost use Rattle.places.specs.Trials.{Addable, Triable, trial, told_of, smaller};

use grid::Matrix;
use labels::Labels;
use maps::Map;
use mending::build;
use partners::Partners;
use ranks::Ranks;

mod place;

pub use place::Place;

// How many in-holders and out-holders u has.
fn holders(labels: &Labels, u: u8) -> u32
    ensures number { result ≡ count (holds labels.now.ins u) + count (holds labels.now.outs u) }
    ensures most { result ≤ 512 }
{
    u32::from(labels.ins.of(u).len()) + u32::from(labels.outs.of(u).len())
}

// How many labels there are.
fn total_of(labels: &Labels, order: &[u8]) -> u32
    requires { length order.now ≤ 255 }
    ensures { result ≡ rows_total (rows_of labels.now) order.now }
{
    order.iter().map(|u| holders(labels, *u)).sum()
}

// Pairs the ends that `ends` gives for each unit of the list. Not one with the joining in a store: that has room, and may
// refuse.
fn add_all<F: Fn(u8) -> (u8, u8)>(map: &mut Matrix, units: &[u8], ends: F)
    requires callable { F.IsAlwaysCallable ends }
    requires able { (p : ℕ → ℕ × ℕ) × Gives (λ u q. F.post ends u q) p × Addable p units.now (matrix_map map.old) }
    ensures { (p : ℕ → ℕ × ℕ) → Gives (λ u q. F.post ends u q) p → matrix_map map.new ≡ joined p units.now (matrix_map map.old) }
{
    for u in units {
        let (a, b) = ends(*u);
        map.add_pair(a, b);
    }
}

// A copy of the map with v enrolled.
fn enrolled_copy<M: Map>(m: &M, v: u8, partners: &Partners) -> Matrix
    requires { New (M.Map.meaning m.now) v partners.now.sources.now partners.now.listeners.now }
    ensures { matrix_map result ≡ enrolled v partners.now.sources.now partners.now.listeners.now (M.Map.meaning m.now) }
{
    let mut map = Matrix::copy_of(m);
    map.add_unit(v);
    add_all(&mut map, partners.sources, move |s| (s, v));
    add_all(&mut map, partners.listeners, move |t| (v, t));
    map
}

// The total of labels of the map, in the order with v put in after its first k units. The map, the ranks and the new unit are
// those of three owners, so no struct of this crate holds them together.
fn total_at<M: Map>(m: &M, ranks: &Ranks, v: u8, k: u8) -> u32
    requires new { Triable (M.Map.meaning m.now) v ranks.now }
    requires within { k ≤ length ranks.now }
    ensures { result ≡ total (M.Map.meaning m.now) (inserted k v ranks.now) }
{
    m.sound();
    let mut trial = *ranks;
    trial.insert(k, v);
    let order = trial.as_slice();
    total_of(&build(m, order), order)
}

// The place at rank k + 1.
fn place_at<M: Map>(m: &M, ranks: &Ranks, v: u8, k: u8) -> Place
    requires new { Triable (M.Map.meaning m.now) v ranks.now }
    requires within { k ≤ length ranks.now }
    ensures { told_of result ≡ (k + 1, trial (M.Map.meaning m.now) v ranks.now (k + 1)) }
{
    Place {
        rank: k + 1,
        total: total_at(m, ranks, v, k),
    }
}

// The place with the smaller total, the first of equals. The definition compares from the lowest rank up, place by place, as
// the loop below does; the library's `min_by_key` told by its keys would be no plainer.
fn better(first: Place, second: Place) -> Place
    ensures { told_of result ≡ smaller (told_of first) (told_of second) }
{
    if first.total <= second.total {
        first
    } else {
        second
    }
}

// The best of all ranks for v, tried from the lowest up: the least total, and of equals the least rank.
fn best_of<M: Map>(m: &M, ranks: &Ranks, v: u8) -> Place
    requires { Triable (M.Map.meaning m.now) v ranks.now }
    ensures { told_of result ≡ best_from (trial (M.Map.meaning m.now) v ranks.now) 1 (length ranks.now) }
{
    let n = ranks.len();
    let mut best = place_at(m, ranks, v, n);
    for k in (0..n).rev() {
        best = better(place_at(m, ranks, v, k), best);
    }
    best
}

// The rank at which v would leave the fewest labels in the map, the least of equals, and how many they would be.
pub fn best_place<M: Map>(m: &M, ranks: &Ranks, v: u8, partners: &Partners) -> Place
    requires orders { Orders (M.Map.meaning m.now) ranks.now }
    requires new { New (M.Map.meaning m.now) v partners.now.sources.now partners.now.listeners.now }
    ensures { told_of result ≡ best_from (trial (enrolled v partners.now.sources.now partners.now.listeners.now (M.Map.meaning m.now)) v ranks.now) 1 (length ranks.now) }
{
    m.sound();
    best_of(&enrolled_copy(m, v, partners), ranks, v)
}
