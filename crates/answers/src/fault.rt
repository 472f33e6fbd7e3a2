// Why a line is refused, and where.
ghost use Rattle.std.specs.Prelude.{◌≡◌};
ghost use Rattle.answers.specs.Faults.{line_number, line_letter};
ghost use Rattle.answers.specs.declared.fault.LineFault.TheVariants.{Form, Name, Book};

use lines::Malformed;
use names::NameFault;
use plain::BookFault;

#[derive(Clone, Copy, PartialEq, Eq, Debug)]
pub enum LineFault {
    // the line is malformed
    Form(Malformed),
    // a name is unknown or taken
    Name(NameFault),
    // what the book refuses, carried whole
    Book(BookFault),
}

// A fault, and the place of the line where it is told, counted from 1.
#[derive(Clone, Copy, PartialEq, Eq, Debug)]
pub struct Refusal {
    pub fault: LineFault,
    pub place: u8,
}

// Written out, since a derived `From` does not say what it gives, and the calls promise which fault `?` hands on.
impl From<NameFault> for LineFault {
    ghost from_gives = { λ e r. r ≡ Name e };

    fn from(e: NameFault) -> LineFault {
        LineFault::Name(e)
    }
}

impl From<BookFault> for LineFault {
    ghost from_gives = { λ e r. r ≡ Book e };

    fn from(e: BookFault) -> LineFault {
        LineFault::Book(e)
    }
}

impl From<Malformed> for Refusal {
    ghost from_gives = { λ e r. r ≡ record { fault = Form e; place = e.place } };

    fn from(e: Malformed) -> Refusal {
        Refusal {
            fault: LineFault::Form(e),
            place: e.place,
        }
    }
}

impl LineFault {
    // The number that is shown for the fault. No discriminant, since variants carry the numbers of other faults.
    pub fn number(self) -> u8
        ensures { result ≡ line_number self }
    {
        match self {
            LineFault::Form(_) => 12,
            LineFault::Name(fault) => fault.number(),
            LineFault::Book(fault) => fault.number(),
        }
    }

    // The letter of the layer that refuses.
    pub fn letter(self) -> u8
        ensures { result ≡ line_letter self }
    {
        match self {
            LineFault::Form(_) => b'L',
            LineFault::Name(fault) => fault.letter(),
            LineFault::Book(fault) => fault.letter(),
        }
    }
}
