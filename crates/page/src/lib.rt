// The saved page of a book: the bytes are checked and read as ranks and a map, and ranks and a map are written as bytes.
#![tactic(auto)]

ghost use Rattle.std.specs.Prelude.{◌≡◌, ℕ};
ghost use Rattle.units.specs.Has.{has, in_row};
ghost use Rattle.theory.specs.Maps.{listed};
ghost use Rattle.plain.specs.Pages.{page_book};
ghost use Rattle.page_laws.specs.Parts.{Parts};
ghost use Rattle.page.specs.Reads.{Reads};

use grid::Matrix;
use plain::BookFault;
use units::UnitSet;

mod contents;
mod formed;
mod ranked;
mod reading;
mod rings;
mod writing;

pub use contents::Contents;
use formed::Formed;
use ranked::Ranked;
use reading::{read_rows, read_units};
use rings::{has_ring, pairs_itself};
pub use writing::write;

// The set of the units of an order.
fn set_of(order: &[u8]) -> UnitSet
    ensures { (k : ℕ) → has result k ≡ listed k order.now }
{
    let mut set = UnitSet::empty();
    for u in order {
        set.insert(*u);
    }
    set
}

// What a lawful page says, where it has no ring.
fn ringless(ranked: Ranked<'_>, rows: [UnitSet; 256]) -> Result<Contents, BookFault>
    requires parts { Parts ranked.page }
    requires rows { (a b : ℕ) → in_row rows a b ≡ (page_book ranked.page).pair a b }
    ensures { Reads ranked.entry.page result }
{
    let ranks = ranked.ranks;
    ranks.lawful();
    if pairs_itself(&rows, ranks.as_slice()) {
        return Err(BookFault::Ring);
    }
    let map = Matrix::from_rows(set_of(ranks.as_slice()), rows);
    if has_ring(&map) {
        return Err(BookFault::Ring);
    }
    Ok(Contents { ranks, map })
}

// What the page says: refused where it is not lawful, and then where it has a ring or pairs a unit to itself.
pub fn read(page: &[u8]) -> Result<Contents, BookFault>
    ensures { Reads page.now result }
{
    let formed = Formed::of(page).ok_or(BookFault::UnlawfulPage)?;
    let ranked = read_units(formed).ok_or(BookFault::UnlawfulPage)?;
    let rows = read_rows(&ranked).ok_or(BookFault::UnlawfulPage)?;
    ringless(ranked, rows)
}
