// The named book: a book and the name cards of its units, made empty and changed only by lines. A line is read, its names
// are found, and the book is asked; the answer is a short text.
#![tactic(auto)]

ghost use Rattle.std.specs.Prelude.{◌≡◌, ◌≤◌, length, IfOk, Ok, Err, nat_lt};
ghost use Rattle.lines.specs.Lines.{said};
ghost use Rattle.plain_named.specs.Replies.{line_reply, after};
ghost use Rattle.answers.specs.declared.fault.Refusal.{Refusal as Refused};
ghost use Rattle.grammar.specs.Grammar.{IsName, LawfulFields, fields, Enrol, Drop, Pair, Unpair, Rank, Hear};
ghost use Rattle.plain_named.specs.Named.{nobody};
ghost use Rattle.named.specs.Views.{named_of, Agreed, CarriedOut};
ghost use Rattle.plain_named.specs.Calls.{Answered, ToldByChains};

mod two_names;

use answers::{LineFault, Refusal, Told, write_answer};
use book::Book;
use lines::{Line, parse};
use maps::Store;
use names::Cards;
use placing::{digits, with_place};
use plain::BookFault;
use two_names::TwoNames;

// A rule of the project: that the book and the cards agree is asked of and promised by every call, and not kept by the type.
#[derive(Drop)]
pub struct NamedBook<S: Store> {
    book: Book<S>,
    cards: Cards,
}

// Whether a buffer may be too short for an answer.
fn is_short(buffer: &[u8]) -> bool
    ensures { result ≡ nat_lt (length buffer.now) 16 }
{
    buffer.len() < 16
}

impl<S: Store> NamedBook<S> {
    // A named book with no unit, over a store that is cleared first.
    pub fn make(store: S) -> NamedBook<S>
        ensures empty { named_of S.Map.meaning result ≡ nobody }
        ensures agreed { Agreed S.Map.meaning result }
    {
        NamedBook {
            book: Book::make(store),
            cards: Cards::blank(),
        }
    }

    // Pairs the one to the other. This and the next two differ in the call that they put, whose kinds of answer differ too.
    fn pair(&mut self, names: TwoNames<'_>) -> Result<Told, LineFault>
        requires { Agreed S.Map.meaning self.old }
        ensures { CarriedOut S.Map.meaning S.Store.room self.old (Pair names.entry.source.now names.entry.listener.now) result self.new }
    {
        let (a, b) = names.units(&self.cards)?;
        let labels = self.book.pair(a, b)?;
        Ok(Told::Changed(labels))
    }

    // Takes the pairing of the one to the other away.
    fn unpair(&mut self, names: TwoNames<'_>) -> Result<Told, LineFault>
        requires { Agreed S.Map.meaning self.old }
        ensures { CarriedOut S.Map.meaning S.Store.room self.old (Unpair names.entry.source.now names.entry.listener.now) result self.new }
    {
        let (a, b) = names.units(&self.cards)?;
        let labels = self.book.unpair(a, b)?;
        Ok(Told::Changed(labels))
    }

    // Whether the listener hears the source.
    fn hear(&self, names: TwoNames<'_>) -> Result<Told, LineFault>
        requires { Agreed S.Map.meaning self.now }
        ensures { CarriedOut S.Map.meaning S.Store.room self.now (Hear names.entry.source.now names.entry.listener.now) result self.now }
    {
        let (a, b) = names.units(&self.cards)?;
        let hears = self.book.hear(a, b)?;
        Ok(Told::Heard(hears))
    }

    // Moves the unit to the rank.
    fn rank(&mut self, name: &[u8], rank: u8) -> Result<Told, LineFault>
        requires { Agreed S.Map.meaning self.old }
        ensures { CarriedOut S.Map.meaning S.Store.room self.old (Rank name.now rank) result self.new }
    {
        let unit = self.cards.number_of(name, 3)?;
        let labels = self.book.rank(unit, rank)?;
        Ok(Told::Changed(labels))
    }

    // Drops the unit, and makes its card blank.
    fn drop_unit(&mut self, name: &[u8]) -> Result<Told, LineFault>
        requires { Agreed S.Map.meaning self.old }
        ensures { CarriedOut S.Map.meaning S.Store.room self.old (Drop name.now) result self.new }
    {
        let unit = self.cards.number_of(name, 3)?;
        let labels = self.book.drop_unit(unit)?;
        self.cards.wipe(unit);
        Ok(Told::Changed(labels))
    }

    // Enrols the unit with no partners, and writes its card.
    fn enrol(&mut self, number: u8, name: &[u8], rank: u8) -> Result<Told, LineFault>
        requires agreed { Agreed S.Map.meaning self.old }
        requires lawful { IsName name.now }
        ensures { CarriedOut S.Map.meaning S.Store.room self.old (Enrol number name.now rank) result self.new }
    {
        self.cards.check_free(name, 4 + digits(number))?;
        let labels = self.book.enrol(number, rank, &[], &[])?;
        self.cards.write(number, name);
        Ok(Told::Changed(labels))
    }

    // Carries out what the line says: what is told of it, or its first fault.
    fn obey(&mut self, line: Line<'_>) -> Result<Told, LineFault>
        requires agreed { Agreed S.Map.meaning self.old }
        requires lawful { LawfulFields (fields (said line)) }
        ensures { CarriedOut S.Map.meaning S.Store.room self.old (said line.entry) result self.new }
    {
        match line {
            Line::Enrol { number, name, rank } => self.enrol(number, name, rank),
            Line::Drop { name } => self.drop_unit(name),
            Line::Pair { source, listener } => self.pair(TwoNames { source, listener }),
            Line::Unpair { source, listener } => self.unpair(TwoNames { source, listener }),
            Line::Rank { name, rank } => self.rank(name, rank),
            Line::Hear { source, listener } => self.hear(TwoNames { source, listener }),
        }
    }

    // Reads the line and carries it out: what is told of it, or its first fault and the place.
    fn reply(&mut self, bytes: &[u8]) -> Result<Told, Refusal>
        requires { Agreed S.Map.meaning self.old }
        ensures told { result ≡ line_reply S.Store.room (named_of S.Map.meaning self.old) bytes.now }
        ensures left { named_of S.Map.meaning self.new ≡ after S.Store.room (named_of S.Map.meaning self.old) bytes.now }
        ensures agreed { Agreed S.Map.meaning self.new }
        ensures kept { (refusal : Refused) → result ≡ Err refusal → self.new ≡ self.old }
    {
        let line = parse(bytes)?;
        with_place(line, self.obey(line))
    }

    // Puts a line to the named book. Its answer is written from the buffer's start, and the length told; later bytes stay. A
    // buffer under 16 bytes is refused before all else, and 16 are always enough.
    pub fn line(&mut self, bytes: &[u8], buffer: &mut [u8]) -> Result<usize, BookFault>
        requires { Agreed S.Map.meaning self.old }
        ensures answered { Answered S.Store.room (named_of S.Map.meaning self.old) bytes.now buffer.old result (named_of S.Map.meaning self.new) buffer.new }
        ensures short { IfOk result (λ n. n ≤ 16) }
        ensures agreed { Agreed S.Map.meaning self.new }
        ensures untouched { (cause : BookFault) → result ≡ Err cause → self.new ≡ self.old }
        ensures chains { ToldByChains S.Store.room (named_of S.Map.meaning self.old) bytes.now }
        ensures kept { (refusal : Refused) → line_reply S.Store.room (named_of S.Map.meaning self.old) bytes.now ≡ Err refusal → self.new ≡ self.old }
    {
        if is_short(buffer) {
            return Err(BookFault::ShortBuffer);
        }
        let answer = self.reply(bytes);
        Ok(write_answer(answer, buffer))
    }
}
