// A new unit put into a store and joined to its partners.
ghost use Rattle.std.specs.Prelude.{◌≡◌, ℕ, ◌+◌, ◌≤◌, ◌<◌, false, length, Ok};
ghost use Rattle.theory.specs.Maps.{enrolled};
ghost use Rattle.theory.specs.Counts.{pair_count};
ghost use Rattle.theory.specs.Changes.{New};
ghost use Rattle.plain.specs.Lists.{doubled};
ghost use Rattle.partners.specs.Joins.{Gives, Differing, joined, Joinable};

use crate::Partners;
use maps::{Map, Store, StoreFault};

// Pairs the ends that `ends` gives for each unit of the list. Never refused.
fn join_all<S: Store, F: Fn(u8) -> (u8, u8)>(
    store: &mut S,
    units: &[u8],
    ends: F,
) -> Result<(), StoreFault>
    requires callable { F.IsAlwaysCallable ends }
    requires able { (p : ℕ → ℕ × ℕ) × Gives (λ u q. F.post ends u q) p × Differing p × Joinable S.Store.room p units.now (S.Map.meaning store.old) }
    ensures granted { result ≡ Ok tt }
    ensures left { (p : ℕ → ℕ × ℕ) → Gives (λ u q. F.post ends u q) p → S.Map.meaning store.new ≡ joined p units.now (S.Map.meaning store.old) }
{
    store.sound();
    for u in units {
        let (a, b) = ends(*u);
        store.join(a, b)?;
    }
    Ok(())
}

impl<'a> Partners<'a> {
    // Puts v into the store, joins each of its sources to it and it to each of its listeners. Never refused.
    pub fn attach<S: Store>(&self, store: &mut S, v: u8) -> Result<(), StoreFault>
        requires new { New (S.Map.meaning store.old) v self.now.sources.now self.now.listeners.now }
        requires once { (doubled self.now.sources.now ≡ false) × (doubled self.now.listeners.now ≡ false) }
        requires fits { pair_count (S.Map.meaning store.old) + length self.now.sources.now + length self.now.listeners.now ≤ S.Store.room }
        ensures granted { result ≡ Ok tt }
        ensures left { S.Map.meaning store.new ≡ enrolled v self.now.sources.now self.now.listeners.now (S.Map.meaning store.old) }
    {
        store.sound();
        store.put(v)?;
        join_all(store, self.sources, move |s| (s, v))?;
        join_all(store, self.listeners, move |t| (v, t))?;
        Ok(())
    }
}
