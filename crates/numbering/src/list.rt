// A list that gives each different element the number of its first appearance.
ghost use Rattle.std.specs.Prelude.{◌≡◌, ◌≤◌, [], length, position};
ghost use Rattle.numbering.specs.Lists.{Answered, ByAppearance};
ghost use Rattle.numbering.specs.Numbers.{number_in, entered};

use std::marker::Model;

// There is no place left for a new element.
#[derive(Clone, Copy, PartialEq, Eq, Debug)]
pub struct NoRoom;

// The elements stand in the order of their numbers, from 0 on, in the first places of a lent slice.
// A slice with a length beside it and no `Vec`, since a list has to take no memory of its own.
#[derive(Drop)]
pub struct Numbering<'a, K> {
    slots: &'a mut [K],
    len: usize,
}

impl<'a, K> Model for Numbering<'a, K> {
    ghost use Rattle.std.specs.Prelude.{◌≤◌, length, take};
    ghost use Rattle.numbering.specs.Numbers.{Numbered};

    ghost Value = { Numbered K };

    ghost view = { λ n. record { items = take n.len n.slots.now; room = length n.slots.now } };

    ghost invariant = { λ n. n.len ≤ length n.slots.now };
}

// The place of the first element that is equal.
fn place<K: Eq>(items: &[K], element: &K) -> Option<usize>
    ensures { result ≡ position (K.PartialEq.eq element.now) items.now }
{
    items.iter().position(|item| element == item)
}

impl<'a, K: Eq + Copy> Numbering<'a, K> {
    // A list without elements, with room for as many as the slice has places.
    pub fn new(slots: &'a mut [K]) -> Numbering<'a, K>
        ensures items { result.items ≡ [] }
        ensures room { result.room ≡ length slots.old }
    {
        Numbering { slots, len: 0 }
    }

    // The elements in the order of their numbers.
    pub fn items(&self) -> &[K]
        ensures items { result.now ≡ self.now.items }
        ensures few { length result.now ≤ self.now.room }
    {
        &self.slots[..self.len]
    }

    // The number of the element, if it has one.
    #[tactic(auto, using(crate::proofs::Positions::position_is))]
    pub fn find(&self, element: &K) -> Option<usize>
        ensures value { result ≡ number_in K.PartialEq.eq element.now self.now.items }
        ensures few { length self.now.items ≤ self.now.room }
    {
        place(self.items(), element)
    }

    // The number of the element: the one that it has, or the next one if it is new.
    pub fn number(&mut self, element: K) -> Result<usize, NoRoom>
        ensures value { Answered (entered K.PartialEq.eq self.old.room element self.old.items) result self.new.items }
        ensures appearance { ByAppearance K.PartialEq.eq self.old.room element self.old.items result self.new.items }
        ensures room { self.new.room ≡ self.old.room }
        ensures few { length self.new.items ≤ self.new.room }
    {
        if let Some(number) = self.find(&element) {
            return Ok(number);
        }
        let number = self.len;
        if number >= self.slots.len() {
            return Err(NoRoom);
        }
        self.slots[number] = element;
        self.len = number + 1;
        Ok(number)
    }
}
