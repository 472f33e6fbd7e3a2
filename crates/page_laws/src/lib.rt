// The saved page as mathematics: what a lawful page is in plain facts, how its chains are followed, and that a book that is
// written as a page is read back the same. The function states that theorem; there is no other code.
#![tactic(auto)]

ghost use Rattle.page_laws.specs.Theorems.{SavedReadsBack};

// A saved page is lawful, has no ring, and says the ranks and pairings of the book.
pub fn saved_reads_back() -> u8
    ensures { SavedReadsBack }
{
    0
}
