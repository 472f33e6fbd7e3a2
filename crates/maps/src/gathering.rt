// A set from the answers to what its least member above a number is.
ghost use Rattle.std.specs.Prelude.{◌≡◌, ℕ, ◌+◌, ◌<◌, Bool, false, Option, IfSome};
ghost use Rattle.units.specs.Has.{has};
ghost use Rattle.units.specs.Sets.{Least};

use units::UnitSet;

// The numbers that `least_above` gives from 0 on. A `while`: each is asked for above the one before, and the library's
// `successors` has no end that a proof could use.
pub(crate) fn gathered<F: Fn(u8) -> Option<u8>>(least_above: F) -> UnitSet
    requires callable { F.IsAlwaysCallable least_above }
    requires rises { (c : ℕ) (r : Option ℕ) → F.post least_above c r → IfSome r (λ u. c < u) }
    ensures { (f : ℕ → Bool) → f 0 ≡ false → ((c : ℕ) (r : Option ℕ) → F.post least_above c r → Least f (c + 1) r) → (k : ℕ) → has result k ≡ f k }
{
    let mut all = UnitSet::empty();
    let mut c = 0;
    while let Some(u) = least_above(c) {
        all.insert(u);
        c = u;
    }
    all
}
