// Which of the numbers 0 to 15 are related to which, in fixed memory. The loops here and in the tests go over such numbers, and
// not along a slice; each step writes the table that the next one reads.
ghost use Rattle.std.specs.Prelude.{◌<◌, ◌≤◌};

#[derive(Clone, Copy)]
pub struct Relation {
    cells: [bool; 256],
}

// Where the table says whether a is related to b.
fn cell(a: u8, b: u8) -> usize
    ensures { result < 256 }
{
    usize::from(a % 16) * 16 + usize::from(b % 16)
}

impl Relation {
    pub fn none() -> Relation {
        Relation {
            cells: [false; 256],
        }
    }

    // Relates a to b where the test passes.
    pub fn of<F: Fn(u8, u8) -> bool>(test: F) -> Relation
        requires { F.IsAlwaysCallable test }
    {
        let mut all = Relation::none();
        for i in 0..=255u8 {
            all.set(i / 16, i % 16, test(i / 16, i % 16));
        }
        all
    }

    pub fn has(&self, a: u8, b: u8) -> bool {
        self.cells[cell(a, b)]
    }

    pub fn set(&mut self, a: u8, b: u8, related: bool) {
        self.cells[cell(a, b)] = related;
    }

    // Takes away every pair that v is in.
    pub fn cut(&mut self, v: u8) {
        for u in 0..16u8 {
            self.set(u, v, false);
            self.set(v, u, false);
        }
    }

    // How many pairs stand in the one relation and not in the other.
    pub fn differences(&self, other: &Relation) -> usize
        ensures { result ≤ 256 }
    {
        let pairs = self.cells.iter().zip(other.cells.iter());
        pairs.filter(|(one, another)| one != another).count()
    }

    // Relates a to all that k is related to, where a is related to k.
    fn pass_on(&mut self, a: u8, k: u8) {
        for b in 0..16u8 {
            if self.has(a, k) && self.has(k, b) {
                self.set(a, b, true);
            }
        }
    }

    // Passes on by way of k.
    fn close_at(&mut self, k: u8) {
        for a in 0..16u8 {
            self.pass_on(a, k);
        }
    }

    // Relates each number to itself, and a to c wherever a is related to b and b to c.
    pub fn close(&mut self) {
        for k in 0..16u8 {
            self.set(k, k, true);
        }
        for k in 0..16u8 {
            self.close_at(k);
        }
    }

    // Relates a to b where b was related to a.
    pub fn turn(&self) -> Relation {
        Relation::of(|a, b| self.has(b, a))
    }
}
