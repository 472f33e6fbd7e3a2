// The calls that can be put to a book, and what is answered to them.
use labels::List;
use places::Place;
use plain::BookFault;

// The units that are paired to a new unit, and those that it is paired to: two lists, each of a length of its own. They are
// owned, since a call is kept when its script is gone; the book is lent slices of them (`partners::Partners`).
#[derive(Drop)]
pub struct Partners {
    pub sources: Vec<u8>,
    pub listeners: Vec<u8>,
}

#[derive(Drop)]
pub enum Call {
    Load(Vec<u8>),
    Enrol {
        unit: u8,
        rank: u8,
        with: Partners,
    },
    Drop(u8),
    Pair(u8, u8),
    Unpair(u8, u8),
    Rank(u8, u8),
    Hear(u8, u8),
    BestPlace {
        unit: u8,
        with: Partners,
    },
    // one of the four lists of a unit, and how long a buffer is lent for it
    List {
        list: List,
        unit: u8,
        room: usize,
    },
    Reach {
        source: u8,
        listener: u8,
        sheet: Vec<u8>,
    },
    // from a place of a buffer of so many bytes
    Save {
        place: usize,
        room: usize,
    },
}

// What is told of a call that is granted.
#[derive(Drop)]
pub enum Told {
    // made, or loaded
    Done,
    // how many labels stand before or after, and not both
    Changed(u32),
    Heard(bool),
    Placed(Place),
    // the units of a list, or the bytes of a page
    Written(Vec<u8>),
    // the fewest pairings, or none
    Reached(Option<u16>),
}

// What a call is answered: what is told of it, or the cause for which it is refused.
pub type Answer = Result<Told, BookFault>;
