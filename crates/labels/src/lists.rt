// The labels and the holders of a unit as lists in the order of rank, written into a buffer that the caller lends.
ghost use Rattle.std.specs.Prelude.{◌≡◌, ◌≤◌, ◌++◌, filter, length, drop};
ghost use Rattle.theory.specs.Maps.{Map};
ghost use Rattle.labels.specs.Listed.{Listed, is_listed, list_of};
ghost use Rattle.labels.specs.OfMaps.{ExactOf};

use crate::Ranked;

// The buffer is too short for the list.
#[derive(Clone, Copy, PartialEq, Eq, Debug)]
pub struct ShortBuffer;

// The lists of a unit.
#[derive(Clone, Copy, PartialEq, Eq, Debug)]
pub enum List {
    InLabels,
    OutLabels,
    // the units that have it among their in-labels
    InHolders,
    // the units that have it among their out-labels
    OutHolders,
}

impl<'a> Ranked<'a> {
    // Whether v is in the list of u.
    fn is_listed(&self, list: List, u: u8, v: u8) -> bool
        ensures { result ≡ is_listed list self.now.labels.now u v }
    {
        match list {
            List::InLabels => self.labels.ins.holds(v, u),
            List::OutLabels => self.labels.outs.holds(v, u),
            List::InHolders => self.labels.ins.holds(u, v),
            List::OutHolders => self.labels.outs.holds(u, v),
        }
    }

    // How many units the list of u has.
    fn list_len(&self, list: List, u: u8) -> usize
        ensures { result ≡ length (filter (is_listed list self.now.labels.now u) self.now.order.now) }
    {
        self.order
            .iter()
            .filter(|v| self.is_listed(list, u, **v))
            .count()
    }

    // Writes the list of u from the buffer's start on.
    fn write_list(&self, list: List, u: u8, buffer: &mut [u8])
        requires { length (filter (is_listed list self.now.labels.now u) self.now.order.now) ≤ length buffer.old }
        ensures { buffer.new ≡ filter (is_listed list self.now.labels.now u) self.now.order.now ++ drop (length (filter (is_listed list self.now.labels.now u) self.now.order.now)) buffer.old }
    {
        let listed = self.order.iter().filter(|v| self.is_listed(list, u, **v));
        for (i, v) in listed.enumerate() {
            buffer[i] = *v;
        }
    }

    // The list of u, the highest first. Tells how many they are; a buffer that is too short stays as it was. The caller lends
    // the buffer, as it does wherever a list, a page or an answer is written: nothing below the programs allocates.
    pub fn list(&self, list: List, u: u8, buffer: &mut [u8]) -> Result<usize, ShortBuffer>
        ensures { (m : Map) → ExactOf m self.now → Listed (list_of list m self.now.order.now u) buffer.old result buffer.new }
    {
        let n = self.list_len(list, u);
        if n > buffer.len() {
            return Err(ShortBuffer);
        }
        self.write_list(list, u, buffer);
        Ok(n)
    }
}
