// The rank table: which unit stands at each rank, and which rank each unit has. The unit at rank 1 is the highest.
#![tactic(auto)]

ghost use Rattle.std.specs.Prelude.{⊤, ◌≡◌, ℕ, ◌+◌, ◌-◌, ◌<◌, ◌≤◌, true, false, if◌then◌else◌, [], ◌∷◌, ◌++◌, length, take, Some, None, MatchOption, slice_index, slice_index_or};
ghost use Rattle.theory.specs.Chains.{On};
ghost use Rattle.theory.specs.Maps.{listed};
ghost use Rattle.theory.specs.Ranks.{Once, inserted, removed, moved};
ghost use Rattle.ranks.specs.Orders.{Lawful, is_new, rank_found, unit_found, Numbered};

use std::alloc::AllocError;
use std::marker::Model;

// A clause sees a table as its units, the highest first. The fields are a function of that list, as `Copy` asks.
#[derive(Copy)]
pub struct Ranks {
    // the units, the highest first; the first n count, and the others are 0
    order: [u8; 255],
    // the rank of each unit of the order, by its number
    place: [Option<u8>; 256],
    n: u8,
}

impl Model for Ranks {
    ghost use Rattle.std.specs.Prelude.{ℕ, List, length, take};

    ghost Value = { List ℕ };

    ghost use Rattle.ranks.specs.Fields.{Kept, padded, all_ranks, filled, padded_is, all_ranks_is};

    ghost view = { λ r. take r.n r.order };

    ghost invariant = { λ r. Kept r.order r.n r.place };

    ghost inverse = { λ units. record { order = padded units; place = all_ranks units; n = length units } };

    ghost inverse_ok = { λ r h i. record {
      order = padded_is r.order r.n r.place h i;
      place = all_ranks_is r.order r.n r.place h i;
      n = filled r.order r.n r.place h i;
    } };
}

// Puts `u` in after the first k of n units, and counts it: those from k on move down.
fn put_in(order: &mut [u8; 255], n: &mut u8, k: u8, u: u8)
    requires room { n.old < 255 }
    requires within { k ≤ n.old }
    ensures long { length order.new ≡ 255 }
    ensures count { n.new ≡ n.old + 1 }
    ensures above { (i : ℕ) → i < k → slice_index order.new i ≡ slice_index order.old i }
    ensures here { slice_index order.new k ≡ u }
    ensures below { (i : ℕ) → k < i → i ≤ n.old → slice_index order.new i ≡ slice_index order.old (i - 1) }
    ensures spare { (i : ℕ) → n.old < i → slice_index order.new i ≡ slice_index order.old i }
{
    let from = k as usize;
    order.copy_within(from..*n as usize, from + 1);
    order[from] = u;
    *n += 1;
}

// Takes the unit after the first k of n out: those below it move up, and the last place is 0.
fn take_out(order: &mut [u8; 255], n: &mut u8, k: u8)
    requires within { k < n.old }
    ensures long { length order.new ≡ 255 }
    ensures count { n.new ≡ n.old - 1 }
    ensures above { (i : ℕ) → i < k → slice_index order.new i ≡ slice_index order.old i }
    ensures below { (i : ℕ) → k ≤ i → i < n.new → slice_index order.new i ≡ slice_index order.old (i + 1) }
    ensures last { slice_index order.new n.new ≡ 0 }
    ensures spare { (i : ℕ) → n.old ≤ i → slice_index order.new i ≡ slice_index order.old i }
{
    let from = k as usize + 1;
    order.copy_within(from..*n as usize, from - 1);
    *n -= 1;
    order[*n as usize] = 0;
}

// Writes the rank of each of the n units after the first k.
fn renumber(order: &[u8; 255], n: u8, k: u8, place: &mut [Option<u8>; 256])
    requires within { k ≤ n }
    requires once { Once (take n order.now) }
    requires before { Numbered order.now place.old k }
    ensures long { length place.new ≡ 256 }
    ensures numbered { Numbered order.now place.new n }
    ensures kept { (u : ℕ) → (On u (take n order.now) → ⊥) → slice_index_or place.new u None ≡ slice_index_or place.old u None }
{
    for j in k..n {
        place[order[j as usize] as usize] = Some(j + 1);
    }
}

// The order where no unit stands.
fn no_units() -> [u8; 255]
    ensures { (i : ℕ) → slice_index result i ≡ 0 }
{
    [0; 255]
}

// The ranks where no unit has one.
fn no_ranks() -> [Option<u8>; 256]
    ensures { (u : ℕ) → slice_index_or result u None ≡ None }
{
    [None; 256]
}

impl Ranks {
    // The table of no unit.
    pub fn empty() -> Ranks
        ensures { result ≡ [] }
    {
        Ranks {
            order: no_units(),
            place: no_ranks(),
            n: 0,
        }
    }

    // Tells a caller what every table keeps: units from 1 to 255, each once.
    pub fn lawful(&self)
        ensures { Lawful self.now }
    {
        let _ = &self.order;
    }

    // How many units have a rank.
    pub fn len(&self) -> u8
        ensures { result ≡ length self.now }
    {
        self.n
    }

    // Whether `u` is in the order.
    pub fn holds(&self, u: u8) -> bool
        ensures { result ≡ listed u self.now }
    {
        self.rank_of(u).is_some()
    }

    // The rank of `u`, where it is in the order.
    pub fn rank_of(&self, u: u8) -> Option<u8>
        ensures { result ≡ rank_found self.now u }
    {
        self.place[u as usize]
    }

    // The unit at a rank, where there is one.
    pub fn unit_at(&self, rank: u8) -> Option<u8>
        ensures { result ≡ unit_found self.now rank }
    {
        let above = rank.checked_sub(1)?;
        self.as_slice().get(above as usize).copied()
    }

    // The units, the highest first.
    pub fn as_slice(&self) -> &[u8]
        ensures { result.now ≡ self.now }
    {
        &self.order[..self.n as usize]
    }

    // Puts `u` in below the first k units, so at rank k + 1. There is always room for a unit that is not in the order.
    pub fn insert(&mut self, k: u8, u: u8)
        requires unit { 1 ≤ u }
        requires absent { listed u self.old ≡ false }
        requires within { k ≤ length self.old }
        ensures { self.new ≡ inserted k u self.old }
    {
        put_in(&mut self.order, &mut self.n, k, u);
        renumber(&self.order, self.n, k, &mut self.place);
    }

    // Takes `u` out, where it is in the order.
    pub fn remove(&mut self, u: u8)
        ensures { self.new ≡ removed u self.old }
    {
        if let Some(rank) = self.rank_of(u) {
            take_out(&mut self.order, &mut self.n, rank - 1);
            let place = &mut self.place;
            place[u as usize] = None;
            renumber(&self.order, self.n, rank - 1, place);
        }
    }

    // Moves `u` to rank k + 1: below the first k of the others.
    pub fn move_to(&mut self, k: u8, u: u8)
        requires there { listed u self.old ≡ true }
        requires within { k < length self.old }
        ensures { self.new ≡ moved k u self.old }
    {
        self.lawful();
        self.remove(u);
        self.insert(k, u);
    }

    // Puts `u` in below all others, where it is a unit's number that is not in the order; else the table stays as it was.
    #[tactic(auto, using(crate::proofs::Whole::inserted_after))]
    pub fn push(&mut self, u: u8) -> Option<()>
        ensures told { result ≡ (if is_new self.old u then Some tt else None) }
        ensures left { self.new ≡ (if is_new self.old u then self.old ++ u ∷ [] else self.old) }
    {
        if u == 0 || self.holds(u) {
            return None;
        }
        self.insert(self.len(), u);
        Some(())
    }

    // The table of a whole order, the highest unit first; none where a number is 0 or stands twice.
    pub fn from_slice(units: &[u8]) -> Option<Ranks>
        ensures { MatchOption result (Lawful units.now → ⊥) (λ t. t ≡ units.now) }
    {
        let mut ranks = Ranks::empty();
        for u in units {
            ranks.push(*u)?;
        }
        Some(ranks)
    }
}

// Written out, so that it says of the list that it is the same, and that it never fails.
impl Clone for Ranks {
    ghost is_clone = { λ x y. y ≡ x };

    ghost is_infallible = { λ _. ⊤ };

    fn clone(&self) -> Result<Ranks, AllocError> {
        Ok(*self)
    }
}
