// A list over a lent table of slots, for every type of element that is copied.
ghost use Rattle.std.specs.Prelude.{◌≡◌, ◌<◌, ◌≤◌, [], take, MatchBool};
ghost use Rattle.slots.specs.Slots.{table, items, count, room, Reads, Sets, Inserts, Removes, Moves};

use crate::refusal::Refusal;

/// The items lie in the first slots of the table, and what lies past them is left over.
// A slice with a length beside it, since the table is the caller's and nothing here allocates. No `impl Model`: clauses speak of
// the whole table and of its lender too, and a view that keeps both is the fields again.
#[derive(Drop)]
pub struct SlotList<'a, T> {
    slots: &'a mut [T],
    len: usize,
}

impl<'a, T: Copy> SlotList<'a, T> {
    /// The empty list over a table.
    pub fn over(slots: &'a mut [T]) -> SlotList<'a, T>
        ensures empty { items result ≡ [] }
        ensures slots { table result ≡ slots.old }
        ensures lender { result.slots.ghost_name ≡ slots.entry.ghost_name }
    {
        SlotList { slots, len: 0 }
    }

    /// How many items there are.
    pub fn len(&self) -> usize
        ensures value { result ≡ count self.now }
        ensures within { result ≤ room self.now }
        ensures front { items self.now ≡ take result (table self.now) }
    {
        self.len.min(self.capacity())
    }

    /// How many items the table has room for.
    pub fn capacity(&self) -> usize
        ensures { result ≡ room self.now }
    {
        self.slots.len()
    }

    /// Whether there is no item.
    pub fn is_empty(&self) -> bool
        ensures { MatchBool result (items self.now ≡ []) (0 < count self.now) }
    {
        self.len() == 0
    }

    /// The items, in their order.
    pub fn as_slice(&self) -> &[T]
        ensures { result.now ≡ items self.now }
    {
        &self.slots[..self.len()]
    }

    /// The item at a position.
    pub fn get(&self, at: usize) -> Result<T, Refusal>
        ensures { Reads self.now at result }
    {
        self.as_slice().get(at).copied().ok_or(Refusal::NotInList)
    }

    /// Puts `item` in the place of the item at a position.
    pub fn set(&mut self, at: usize, item: T) -> Result<(), Refusal>
        ensures { Sets self.old at item result self.new }
    {
        if at >= self.len() {
            return Err(Refusal::NotInList);
        }
        self.slots[at] = item;
        Ok(())
    }

    /// Puts `item` in at a position, which may be the end; the items from there on move up by one.
    pub fn insert(&mut self, at: usize, item: T) -> Result<(), Refusal>
        ensures { Inserts self.old at item result self.new }
    {
        let len = self.len();
        if at > len {
            return Err(Refusal::NotInList);
        }
        if len == self.capacity() {
            return Err(Refusal::Full);
        }
        self.slots.copy_within(at..len, at + 1);
        self.slots[at] = item;
        self.len = len + 1;
        Ok(())
    }

    /// Takes out the item at a position; the items after it move down by one.
    pub fn remove(&mut self, at: usize) -> Result<T, Refusal>
        ensures { Removes self.old at result self.new }
    {
        let len = self.len();
        if at >= len {
            return Err(Refusal::NotInList);
        }
        let item = self.slots[at];
        self.slots.copy_within(at + 1..len, at);
        self.len = len - 1;
        Ok(item)
    }

    /// Moves the item at `from` so that it ends at `to`; the others keep their order.
    pub fn move_item(&mut self, from: usize, to: usize) -> Result<(), Refusal>
        ensures { Moves self.old from to result self.new }
    {
        let len = self.len();
        if from >= len || to >= len {
            return Err(Refusal::NotInList);
        }
        let item = self.slots[from];
        if from < to {
            self.slots.copy_within(from + 1..to + 1, from);
        } else {
            self.slots.copy_within(to..from, to + 1);
        }
        self.slots[to] = item;
        Ok(())
    }
}
