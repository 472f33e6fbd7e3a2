// Questions that change nothing: reach, past units that are off, and the best place of a unit that is not enrolled yet.
ghost use Rattle.std.specs.Prelude.{◌≡◌};
ghost use Rattle.plain.specs.Requests.{BestPlace, Reach, first_cause, place_checks, reach_checks, verdict};
ghost use Rattle.plain.specs.Reaching.{open_map, reach_told};
ghost use Rattle.plain.specs.Placing.{best_told};
ghost use Rattle.book.specs.Views.{plain_of, Whole};
ghost use Rattle.book.specs.Answers.{answered};
ghost use Rattle.book.specs.Questions.{ByBest, ByFewest, place_by};

use crate::Book;
use maps::{Map, Store};
use partners::Partners;
use places::{Place, best_place};
use plain::BookFault;
use sheets::{is_lawful, reach};

impl<S: Store> Book<S> {
    // The first cause for which reach is refused.
    fn check_reach(&self, s: u8, t: u8, sheet: &[u8]) -> Result<(), BookFault>
        ensures { result ≡ answered (first_cause (reach_checks (plain_of S.Map.meaning self.now) s t sheet.now)) tt }
    {
        self.check_known(&[s, t])?;
        if !is_lawful(sheet) {
            return Err(BookFault::BadSheet);
        }
        Ok(())
    }

    // The fewest pairings of a chain from s to t without a unit that is off, both ends included; none where there is no such
    // chain. Byte i of the sheet, counted from 1, is 1 where unit i is off, and else 0. The sheet is left as it was.
    pub fn reach(&self, s: u8, t: u8, sheet: &mut [u8]) -> Result<Option<u16>, BookFault>
        requires { Whole S.Map.meaning self.now }
        ensures told { result ≡ answered (verdict S.Store.room (plain_of S.Map.meaning self.now) (Reach s t sheet.old)) (reach_told (plain_of S.Map.meaning self.now) s t sheet.old) }
        ensures chains { ByFewest (open_map (plain_of S.Map.meaning self.now) sheet.old) s t result }
        ensures same { sheet.new ≡ sheet.old }
    {
        self.check_reach(s, t, sheet)?;
        Ok(reach(&self.store, s, t, sheet))
    }

    // The first cause for which v could not be enrolled with the partners at any rank. Its first two tests are those of an
    // enrolment, in the order in which both lists of causes have them.
    fn check_place(&self, v: u8, partners: &Partners) -> Result<(), BookFault>
        requires { Whole S.Map.meaning self.now }
        ensures { result ≡ answered (first_cause (place_checks S.Store.room (plain_of S.Map.meaning self.now) v partners.now.sources.now partners.now.listeners.now)) tt }
    {
        if v == 0 {
            return Err(BookFault::Zero);
        }
        if self.ranks.holds(v) {
            return Err(BookFault::Standing);
        }
        self.check_partners(partners)
    }

    // The rank at which enrolling v would leave the fewest labels in all, the least of equal ranks, and how many they would be.
    pub fn best_place(&self, v: u8, sources: &[u8], listeners: &[u8]) -> Result<Place, BookFault>
        requires { Whole S.Map.meaning self.now }
        ensures told { result ≡ answered (verdict S.Store.room (plain_of S.Map.meaning self.now) (BestPlace v sources.now listeners.now)) (place_by (best_told (plain_of S.Map.meaning self.now) v sources.now listeners.now)) }
        ensures best { ByBest (plain_of S.Map.meaning self.now) v sources.now listeners.now result }
    {
        let partners = Partners { sources, listeners };
        self.check_place(v, &partners)?;
        Ok(best_place(&self.store, &self.ranks, v, &partners))
    }
}
