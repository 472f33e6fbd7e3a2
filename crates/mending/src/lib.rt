// The kept labels made from a map and its order of ranks, and mended after any change of the two: only the sets of the
// units that the change can touch are found again, each by a walk, and the labels that come and go are counted.
//
// In-holders and out-holders are passed as two tables, since they change places for the turned map and one is lent to be
// changed; a map and its order come from two owners, and each function would read both out of a struct again.
#![tactic(auto)]

ghost use Rattle.std.specs.Prelude.{◌≡◌, ℕ, ◌+◌, ◌<◌, ◌≤◌, false, not, ◌&&◌, ◌||◌, length, take, if◌then◌else◌, ◌==◌, nat_eq, slice_index};
ghost use Rattle.units.specs.Has.{has};
ghost use Rattle.theory.specs.Maps.{turned, hidden, listed};
ghost use Rattle.theory.specs.Hearing.{is_heard};
ghost use Rattle.theory.specs.Ranks.{Orders, Once};
ghost use Rattle.theory.specs.Rows.{MarksBy};
ghost use Rattle.labels.specs.Holding.{holds, Exact};
ghost use Rattle.mending.specs.Mended.{Mended};
ghost use Rattle.mending.specs.Steps.{rows, difference, changed, NewRow, Renewed, RenewedTo, emptied};

use labels::{Holders, Labels};
use layers::{Hiding, Turned};
use maps::Map;
use units::UnitSet;
use walks::heard_from;

// The units between which a change can alter labels: those of ups and those of downs.
#[derive(Clone, Copy)]
pub struct Touched {
    pub ups: UnitSet,
    pub downs: UnitSet,
}

// Makes another set the set of u, and tells by how many members it differs.
fn replace(table: &mut Holders, u: u8, set: UnitSet) -> u32
    ensures row { (x v : ℕ) → holds table.new x v ≡ (if nat_eq x u then has set v else holds table.old x v) }
    ensures number { result ≡ difference (holds table.old) (holds table.new) }
    ensures most { result ≤ 256 }
{
    let old = table.of(u);
    table.set(u, set);
    u32::from(old.difference_len(&set))
}

// Marks besides, where w has u among its out-holders, the in-holders of w: these hear u through w.
fn mark(marks: &UnitSet, w: u8, ins: &Holders, outs: &Holders, u: u8) -> UnitSet
    ensures { (x : ℕ) → has result x ≡ (has marks.now x || (holds outs.now w u && holds ins.now w x)) }
{
    if outs.holds(w, u) {
        return marks.union(&ins.of(w));
    }
    *marks
}

// The unit at place k of an order, with the units before it. These are lent: a set that was just changed is slow to copy.
#[derive(Clone, Copy)]
struct Turn<'a> {
    order: &'a [u8],
    k: usize,
    done: &'a UnitSet,
    ghost place: { k < length order.now },
    ghost firsts: { (x : ℕ) → has done.now x ≡ listed x (take k order.now) },
}

// What the units before the unit of the turn cover for it, and these units.
fn covered(ins: &Holders, outs: &Holders, turn: Turn<'_>) -> UnitSet
    requires { Once turn.order.now }
    ensures { MarksBy turn.entry.order.now (rows ins.now outs.now) (slice_index turn.entry.order.now turn.entry.k) (has result) }
{
    let u = turn.order[turn.k];
    let mut marks = *turn.done;
    for w in &turn.order[..turn.k] {
        marks = mark(&marks, *w, ins, outs, u);
    }
    marks
}

// What hears u in the map without the marked units, and not u.
fn walk<M: Map>(m: &M, marks: UnitSet, u: u8) -> UnitSet
    ensures { (v : ℕ) → has result v ≡ (not (v == u) && is_heard (hidden (has marks) (M.Map.meaning m.now)) u v) }
{
    let mut row = heard_from(&Hiding::without(m, marks), u);
    row.remove(u);
    row
}

// The in-row of the unit of the turn, where the rows of the units before it are right.
fn new_row<M: Map>(m: &M, ins: &Holders, outs: &Holders, turn: Turn<'_>) -> UnitSet
    requires { Orders (M.Map.meaning m.now) turn.order.now }
    ensures { NewRow (M.Map.meaning m.now) turn.entry.order.now (rows ins.now outs.now) (slice_index turn.entry.order.now turn.entry.k) (has result) }
{
    m.sound();
    walk(m, covered(ins, outs, turn), turn.order[turn.k])
}

// Makes the in-row of the unit of the turn new where that unit is one of `may`, and tells by how many members it changed.
// Over the turned map and the tables swapped it does so for the out-row.
fn renew<M: Map>(m: &M, ins: &mut Holders, outs: &Holders, turn: Turn<'_>, may: &UnitSet) -> u32
    requires { Orders (M.Map.meaning m.now) turn.order.now }
    ensures row { Renewed (M.Map.meaning m.now) turn.entry.order.now (slice_index turn.entry.order.now turn.entry.k) (has may.now) ins.old outs.now ins.new }
    ensures number { result ≡ difference (holds ins.old) (holds ins.new) }
    ensures most { result ≤ 256 }
{
    let u = turn.order[turn.k];
    if !may.contains(u) {
        return 0;
    }
    let row = new_row(m, ins, outs, turn);
    replace(ins, u, row)
}

// The same for both rows of the unit.
fn renew_both<M: Map>(labels: &mut Labels, m: &M, turn: Turn<'_>, touched: &Touched) -> u32
    requires { Orders (M.Map.meaning m.now) turn.order.now }
    ensures ins { Renewed (M.Map.meaning m.now) turn.entry.order.now (slice_index turn.entry.order.now turn.entry.k) (has touched.now.ups) labels.old.ins labels.old.outs labels.new.ins }
    ensures outs { Renewed (turned (M.Map.meaning m.now)) turn.entry.order.now (slice_index turn.entry.order.now turn.entry.k) (has touched.now.downs) labels.old.outs labels.new.ins labels.new.outs }
    ensures number { result ≡ changed labels.old labels.new }
    ensures most { result ≤ 512 }
{
    let inward = renew(m, &mut labels.ins, &labels.outs, turn, &touched.ups);
    let back = Turned::over(m);
    let outward = renew(&back, &mut labels.outs, &labels.ins, turn, &touched.downs);
    inward + outward
}

// Makes the rows of all units of the order new, the highest first, in-rows where the unit is one of ups and out-rows where
// it is one of downs, and tells by how many members they changed.
fn renew_all<M: Map>(labels: &mut Labels, m: &M, order: &[u8], touched: &Touched) -> u32
    requires { Orders (M.Map.meaning m.now) order.now }
    ensures { RenewedTo (length order.now) (M.Map.meaning m.now) order.now (has touched.now.ups) (has touched.now.downs) labels.old labels.new result }
{
    m.sound();
    let mut total = 0;
    let mut done = UnitSet::empty();
    for (k, u) in order.iter().enumerate() {
        let turn = Turn {
            order,
            k,
            done: &done,
        };
        total += renew_both(labels, m, turn, touched);
        done.insert(*u);
    }
    total
}

// Empties the sets of the units of `gone`, and tells how many members they had.
fn empty_sets(table: &mut Holders, gone: &UnitSet) -> u32
    ensures sets { (x v : ℕ) → holds table.new x v ≡ emptied (has gone.now) (holds table.old) x v }
    ensures number { result ≡ difference (holds table.old) (holds table.new) }
    ensures most { result ≤ 65536 }
{
    let mut total = 0;
    for u in gone.iter() {
        total += replace(table, u, UnitSet::empty());
    }
    total
}

// Empties the in-rows of ups and the out-rows of downs, but for those of the map's units, and tells how many members they
// had: these are the rows of a unit that was dropped.
fn empty_gone(labels: &mut Labels, units: &UnitSet, touched: &Touched) -> u32
    ensures ins { (x v : ℕ) → holds labels.new.ins x v ≡ emptied (λ k. has touched.now.ups k && not (has units.now k)) (holds labels.old.ins) x v }
    ensures outs { (x v : ℕ) → holds labels.new.outs x v ≡ emptied (λ k. has touched.now.downs k && not (has units.now k)) (holds labels.old.outs) x v }
    ensures number { result ≡ changed labels.old labels.new }
    ensures most { result ≤ 131072 }
{
    let from_ins = empty_sets(&mut labels.ins, &touched.ups.minus(units));
    let from_outs = empty_sets(&mut labels.outs, &touched.downs.minus(units));
    from_ins + from_outs
}

// Mends the labels after a change of the map and its order, which are given as they are now. Of the labels from before the
// change only those between a unit of ups and a unit of downs may differ. Tells how many labels came or went.
pub fn mend<M: Map>(labels: &mut Labels, m: &M, order: &[u8], touched: &Touched) -> u32
    requires { Orders (M.Map.meaning m.now) order.now }
    ensures { Mended (M.Map.meaning m.now) order.now touched.now.ups touched.now.downs labels.old labels.new result }
{
    m.sound();
    let renewed = renew_all(labels, m, order, touched);
    renewed + empty_gone(labels, &m.units(), touched)
}

// Makes labels that hold nothing those of the map and its order: mends them over all units.
fn fill<M: Map>(labels: &mut Labels, m: &M, order: &[u8], all: &UnitSet)
    requires orders { Orders (M.Map.meaning m.now) order.now }
    requires units { (k : ℕ) → has all.now k ≡ (M.Map.meaning m.now).unit k }
    requires none { (u v : ℕ) → (holds labels.old.ins u v ≡ false) × (holds labels.old.outs u v ≡ false) }
    ensures { Exact (M.Map.meaning m.now) order.now labels.new }
{
    m.sound();
    let touched = Touched {
        ups: *all,
        downs: *all,
    };
    let _ = mend(labels, m, order, &touched);
}

// The labels of a map and its order, made from nothing.
pub fn build<M: Map>(m: &M, order: &[u8]) -> Labels
    requires { Orders (M.Map.meaning m.now) order.now }
    ensures { Exact (M.Map.meaning m.now) order.now result }
{
    let mut labels = Labels::empty();
    fill(&mut labels, m, order, &m.units());
    labels
}
