// Maps as bits, in fixed memory: a matrix, which is a map with fast whole-set answers, and a grid, which is a store with a
// matrix inside and room for 8,000 pairings.
#![tactic(auto)]

ghost use Rattle.std.specs.Prelude.{◌≡◌, ◌≤◌, true, ◌≢◌};
ghost use Rattle.theory.specs.Maps.{Sound, nothing, with_unit, without_unit, with_pair, without_pair};
ghost use Rattle.grid.specs.Rows.{map_of};
ghost use Rattle.grid.specs.Meaning.{matrix_map};
ghost use Rattle.grid.specs.Held.{grid_map};

use layers::Turned;
use maps::{Map, Store, StoreFault};
use units::{UnitSet, empty_rows};

mod matrix;
mod rows;
mod table;

pub use matrix::Matrix;
use rows::{insert_at, listener_rows, remove_among, remove_at, transposed};
pub use table::Grid;

impl Matrix {
    pub fn new() -> Matrix
        ensures { matrix_map result ≡ nothing }
    {
        Matrix {
            units: UnitSet::empty(),
            listeners: empty_rows(),
            sources: empty_rows(),
        }
    }

    // A copy of any map.
    pub fn copy_of<M: Map>(m: &M) -> Matrix
        ensures { matrix_map result ≡ M.Map.meaning m.now }
    {
        m.sound();
        Matrix {
            units: m.units(),
            listeners: listener_rows(m),
            sources: listener_rows(&Turned::over(m)),
        }
    }

    // The units, with for each number the set of its listeners.
    pub fn from_rows(units: UnitSet, listeners: [UnitSet; 256]) -> Matrix
        requires { Sound (map_of units listeners) }
        ensures { matrix_map result ≡ map_of units listeners }
    {
        let sources = transposed(&listeners);
        Matrix {
            units,
            listeners,
            sources,
        }
    }

    // Puts the unit u in, unpaired.
    pub fn add_unit(&mut self, u: u8)
        requires { 1 ≤ u }
        ensures { matrix_map self.new ≡ with_unit u (matrix_map self.old) }
    {
        self.units.insert(u);
    }

    // Takes the unit u out, with its pairings.
    fn remove_unit(&mut self, u: u8)
        ensures { matrix_map self.new ≡ without_unit u (matrix_map self.old) }
    {
        let listeners = self.listeners[u as usize];
        let sources = self.sources[u as usize];
        self.listeners[u as usize] = UnitSet::empty();
        self.sources[u as usize] = UnitSet::empty();
        remove_among(&mut self.listeners, &sources, u);
        remove_among(&mut self.sources, &listeners, u);
        self.units.remove(u);
    }

    // Pairs a to b.
    pub fn add_pair(&mut self, a: u8, b: u8)
        requires { ((matrix_map self.old).unit a ≡ true) × (((matrix_map self.old).unit b ≡ true) × ((a ≢ b))) }
        ensures { matrix_map self.new ≡ with_pair a b (matrix_map self.old) }
    {
        insert_at(&mut self.listeners, a, b);
        insert_at(&mut self.sources, b, a);
    }

    // Unpairs a from b.
    fn remove_pair(&mut self, a: u8, b: u8)
        ensures { matrix_map self.new ≡ without_pair a b (matrix_map self.old) }
    {
        remove_at(&mut self.listeners, a, b);
        remove_at(&mut self.sources, b, a);
    }
}

impl Map for Matrix {
    ghost meaning = { matrix_map };

    fn sound(&self) {}

    fn stands(&self, u: u8) -> bool {
        self.units.contains(u)
    }

    fn paired(&self, a: u8, b: u8) -> bool {
        self.listeners[a as usize].contains(b)
    }

    fn least_unit_above(&self, c: u8) -> Option<u8> {
        self.units.least_above(c)
    }

    fn least_listener_above(&self, a: u8, c: u8) -> Option<u8> {
        self.listeners[a as usize].least_above(c)
    }

    fn least_source_above(&self, b: u8, c: u8) -> Option<u8> {
        self.sources[b as usize].least_above(c)
    }

    fn units(&self) -> UnitSet {
        self.units
    }

    fn listeners(&self, a: u8) -> UnitSet {
        self.listeners[a as usize]
    }

    fn sources(&self, b: u8) -> UnitSet {
        self.sources[b as usize]
    }
}

// How many pairings a grid has room for.
const ROOM: u16 = 8000;

impl Grid {
    pub fn new() -> Grid
        ensures { grid_map result ≡ nothing }
    {
        Grid {
            matrix: Matrix::new(),
            count: 0,
        }
    }
}

// The questions of the matrix, each passed on by hand: there is no plainer form.
impl Map for Grid {
    ghost meaning = { grid_map };

    fn sound(&self) {
        self.matrix.sound()
    }

    fn stands(&self, u: u8) -> bool {
        self.matrix.stands(u)
    }

    fn paired(&self, a: u8, b: u8) -> bool {
        self.matrix.paired(a, b)
    }

    fn least_unit_above(&self, c: u8) -> Option<u8> {
        self.matrix.least_unit_above(c)
    }

    fn least_listener_above(&self, a: u8, c: u8) -> Option<u8> {
        self.matrix.least_listener_above(a, c)
    }

    fn least_source_above(&self, b: u8, c: u8) -> Option<u8> {
        self.matrix.least_source_above(b, c)
    }

    fn units(&self) -> UnitSet {
        self.matrix.units()
    }

    fn listeners(&self, a: u8) -> UnitSet {
        self.matrix.listeners(a)
    }

    fn sources(&self, b: u8) -> UnitSet {
        self.matrix.sources(b)
    }
}

impl Store for Grid {
    ghost room = { 8000 };

    fn pairings(&self) -> u16 {
        self.count
    }

    fn capacity(&self) -> u16 {
        ROOM
    }

    fn clear(&mut self) {
        *self = Grid::new();
    }

    fn put(&mut self, u: u8) -> Result<(), StoreFault> {
        if u == 0 {
            return Err(StoreFault::Zero);
        }
        if self.matrix.stands(u) {
            return Err(StoreFault::Standing);
        }
        self.matrix.add_unit(u);
        Ok(())
    }

    fn take(&mut self, u: u8) -> Result<(), StoreFault> {
        if !self.matrix.stands(u) {
            return Err(StoreFault::Unknown);
        }
        let gone = self.matrix.listeners(u).len() + self.matrix.sources(u).len();
        self.matrix.remove_unit(u);
        self.count -= gone;
        Ok(())
    }

    fn join(&mut self, a: u8, b: u8) -> Result<(), StoreFault> {
        if !self.matrix.stands(a) || !self.matrix.stands(b) {
            return Err(StoreFault::Unknown);
        }
        if a == b {
            return Err(StoreFault::SameUnit);
        }
        if self.matrix.paired(a, b) {
            return Err(StoreFault::AlreadyPaired);
        }
        if self.count >= ROOM {
            return Err(StoreFault::Full);
        }
        self.matrix.add_pair(a, b);
        self.count += 1;
        Ok(())
    }

    fn part(&mut self, a: u8, b: u8) -> Result<(), StoreFault> {
        if !self.matrix.stands(a) || !self.matrix.stands(b) {
            return Err(StoreFault::Unknown);
        }
        if !self.matrix.paired(a, b) {
            return Err(StoreFault::NotPaired);
        }
        self.matrix.remove_pair(a, b);
        self.count -= 1;
        Ok(())
    }
}
