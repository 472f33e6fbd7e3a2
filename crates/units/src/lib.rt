// A set of unit numbers, one bit for each number from 0 to 255. This is the one crate that knows bits: what is built on it
// speaks of membership alone.
#![tactic(auto)]

ghost use Rattle.std.specs.Prelude.{◌≡◌, ℕ, ◌+◌, ◌/◌, ◌%◌, ◌^◌, ◌<◌, ◌≤◌, false, not, ◌&&◌, ◌||◌, replicate, slice_index, IfSome, ◌==◌, bit_or, count_ones};
ghost use Rattle.std.specs.Bool.{xor};
ghost use Rattle.theory.specs.Counts.{count};
ghost use Rattle.units.specs.Bit.{bit, joined, lacking};
ghost use Rattle.units.specs.Has.{has, in_row};
ghost use Rattle.units.specs.Listed.{left, members};
ghost use Rattle.units.specs.Sets.{Inhabited, Least};

mod members;

pub use members::Members;

#[derive(Clone, Copy)]
pub struct UnitSet {
    words: [u64; 4],
}

impl UnitSet {
    pub fn empty() -> UnitSet
        ensures { (k : ℕ) → has result k ≡ false }
    {
        UnitSet { words: zeros() }
    }

    pub fn contains(&self, u: u8) -> bool
        ensures { result ≡ has self.now u }
    {
        bit_at(self.words[(u / 64) as usize], u % 64)
    }

    pub fn insert(&mut self, u: u8)
        ensures { (k : ℕ) → has self.new k ≡ (k == u || has self.old k) }
    {
        let w = (u / 64) as usize;
        self.words[w] = with_bit(self.words[w], u % 64);
    }

    pub fn remove(&mut self, u: u8)
        ensures { (k : ℕ) → has self.new k ≡ (not (k == u) && has self.old k) }
    {
        let w = (u / 64) as usize;
        self.words[w] = without_bit(self.words[w], u % 64);
    }

    // The members of either set.
    #[tactic(auto, using(crate::proofs::Words::union_words))]
    pub fn union(&self, other: &UnitSet) -> UnitSet
        ensures { (k : ℕ) → has result k ≡ (has self.now k || has other.now k) }
    {
        UnitSet {
            words: each_word(&self.words, &other.words, |x, y| x | y),
        }
    }

    // The members of both sets.
    #[tactic(auto, using(crate::proofs::Words::intersection_words))]
    pub fn intersection(&self, other: &UnitSet) -> UnitSet
        ensures { (k : ℕ) → has result k ≡ (has self.now k && has other.now k) }
    {
        UnitSet {
            words: each_word(&self.words, &other.words, |x, y| x & y),
        }
    }

    // The members that the other set lacks.
    #[tactic(auto, using(crate::proofs::Words::minus_words))]
    pub fn minus(&self, other: &UnitSet) -> UnitSet
        ensures { (k : ℕ) → has result k ≡ (has self.now k && not (has other.now k)) }
    {
        UnitSet {
            words: each_word(&self.words, &other.words, |x, y| x & !y),
        }
    }

    // The members of one of the sets and not of the other.
    #[tactic(auto, using(crate::proofs::Words::difference_words))]
    pub fn symmetric_difference(&self, other: &UnitSet) -> UnitSet
        ensures { (k : ℕ) → has result k ≡ xor (has self.now k) (has other.now k) }
    {
        UnitSet {
            words: each_word(&self.words, &other.words, |x, y| x ^ y),
        }
    }

    pub fn is_empty(&self) -> bool
        ensures { Inhabited (not result) (has self.now) }
    {
        joined_bits(&self.words) == 0
    }

    // Whether the two sets have a member in common.
    pub fn intersects(&self, other: &UnitSet) -> bool
        ensures { Inhabited result (λ k. has self.now k && has other.now k) }
    {
        !self.intersection(other).is_empty()
    }

    // The least member that is greater than c.
    pub fn least_above(&self, c: u8) -> Option<u8>
        ensures { Least (has self.now) (c + 1) result }
    {
        if c == 255 {
            return None;
        }
        self.least_from(c + 1)
    }

    // The least member that is not below from. By numbers, since that of its word is part of the member.
    pub(crate) fn least_from(&self, from: u8) -> Option<u8>
        ensures { Least (has self.now) from result }
    {
        let start = from / 64;
        if let Some(b) = first_set(self.words[start as usize], from % 64) {
            return Some(start * 64 + b);
        }
        for w in start + 1..4 {
            if let Some(b) = first_set(self.words[w as usize], 0) {
                return Some(w * 64 + b);
            }
        }
        None
    }

    // The members one by one, the least first.
    pub fn iter(&self) -> Members
        ensures { left result ≡ members self.now }
    {
        Members { rest: *self }
    }

    // How many members there are.
    pub fn len(&self) -> u16
        ensures number { result ≡ count (has self.now) }
        ensures most { result ≤ 256 }
    {
        let a = &self.words;
        set_bits(a[0]) + set_bits(a[1]) + set_bits(a[2]) + set_bits(a[3])
    }

    // How many numbers are in one of the sets and not in the other.
    pub fn difference_len(&self, other: &UnitSet) -> u16
        ensures number { result ≡ count (λ k. xor (has self.now k) (has other.now k)) }
        ensures most { result ≤ 256 }
    {
        self.symmetric_difference(other).len()
    }
}

// Four words without a bit.
fn zeros() -> [u64; 4]
    ensures { result ≡ replicate 4 0 }
{
    [0; 4]
}

// Whether the word has a bit at the place. A place below 64 is asked for here and twice below; a type for it would be no
// plainer than the remainder that is passed.
fn bit_at(word: u64, place: u8) -> bool
    requires { place < 64 }
    ensures { result ≡ (word / 2 ^ place % 2 == 1) }
{
    (word >> place) % 2 == 1
}

// The word with the bit at the place set.
fn with_bit(word: u64, place: u8) -> u64
    requires { place < 64 }
    ensures { result ≡ bit_or word (2 ^ place) }
{
    word | (1 << place)
}

// The word with the bit at the place cleared.
fn without_bit(word: u64, place: u8) -> u64
    requires { place < 64 }
    ensures { result ≡ lacking word (2 ^ place) }
{
    word & !(1 << place)
}

// The row whose words `op` makes of the words of two rows. The four words are told one by one, here and below: a loop over
// them would be no plainer.
fn each_word<F: Fn(u64, u64) -> u64>(a: &[u64; 4], b: &[u64; 4], op: F) -> [u64; 4]
    requires { F.IsAlwaysCallable op }
    ensures { (i : ℕ) → i < 4 → F.post op (slice_index a.now i) (slice_index b.now i) (slice_index result i) × (slice_index b.now i < 2 ^ 64) }
{
    [
        op(a[0], b[0]),
        op(a[1], b[1]),
        op(a[2], b[2]),
        op(a[3], b[3]),
    ]
}

// The bits that some word has.
fn joined_bits(a: &[u64; 4]) -> u64
    ensures { result ≡ joined a.now }
{
    a[0] | a[1] | a[2] | a[3]
}

// How many bits of the word are set.
fn set_bits(word: u64) -> u16
    ensures value { result ≡ count_ones word }
    ensures small { result ≤ 64 }
{
    word.count_ones() as u16
}

// The least place of a set bit of the word, from a place on.
fn first_set(word: u64, from: u8) -> Option<u8>
    requires { from < 64 }
    ensures least { Least (bit word) from result }
    ensures small { IfSome result (λ b. b < 64) }
{
    let rest = word >> from;
    if rest == 0 {
        return None;
    }
    Some(from + rest.trailing_zeros() as u8)
}

// A set for each number from 0 to 255, none with a member.
pub fn empty_rows() -> [UnitSet; 256]
    ensures { (x y : ℕ) → in_row result x y ≡ false }
{
    [UnitSet::empty(); 256]
}
