ghost use Rattle.std.specs.Prelude.{◌≡◌, ◌<◌, ◌≤◌, ◌&&◌, ◌↔◌, [], ◌∷◌, ◌++◌, length, cond, nat_lt, Option, IsOk, OnOk, OnErr, IfOk, MatchResult, slice_get, slice_set, swap};
ghost use Rattle.std.specs.Iterator.{IsFinite, size};
ghost use Rattle.std.specs.Iterator.Runs.{SomeRun, WholeRun};
ghost use Rattle.std.specs.List.{All, AllZip, insert, remove};
ghost use Rattle.std.specs.Option.{unwrap_or};
ghost use Rattle.short_list.specs.Items.{items_of, with_swapped, Swapped};

use crate::list::shifts::{last_to, take_out};
use crate::list::{Full, ShortList};
use std::alloc::AllocError;
use std::ops::DerefSlice;

impl<T: Copy + Default, const N: usize> ShortList<T, N> {
    // No item.
    pub fn new() -> Self
        ensures { items_of result ≡ [] }
    {
        ShortList {
            slots: [T::default(); N],
            len: 0,
        }
    }

    // The items that an iterator gives, in order, if they are not too many. It asks of the iterator what every function asks
    // that goes through one: that it may be called, and ends.
    pub fn from_iter<I: Iterator<Item = T>>(items: I) -> Result<Self, Full>
        requires can { I.can_next items }
        requires finite { IsFinite (I.remaining items) }
        ensures all { IfOk result (λ list. WholeRun I.next_gives items (λ run. items_of list ≡ run.items)) }
        ensures full { OnErr result (SomeRun I.next_gives items (λ run. N < run.len)) }
        ensures room { size (I.remaining items) ≤ N → IsOk result }
    {
        let mut list = ShortList::new();
        for item in items {
            list.push(item)?;
        }
        Ok(list)
    }
}

impl<T: Copy, const N: usize> ShortList<T, N> {
    // The items, in order. A slice has no bound in its type: here, and where another type shows one, a clause says it.
    pub fn as_slice(&self) -> &[T]
        ensures value { result.now ≡ items_of self.now }
        ensures few { length result.now ≤ N }
    {
        &self.slots[..self.len]
    }

    // One more item, behind the others. A full list stays as it was.
    pub fn push(&mut self, item: T) -> Result<(), Full>
        ensures room { IsOk result ↔ (length (items_of self.old) < N) }
        ensures ok { OnOk result (items_of self.new ≡ items_of self.old ++ item ∷ []) }
        ensures full { OnErr result (self.new ≡ self.old) }
    {
        if self.len == N {
            return Err(Full);
        }
        self.slots[self.len] = item;
        self.len += 1;
        Ok(())
    }

    // One more item, at a place, or behind the others where the place lies beyond them. A full list stays as it was.
    pub fn insert(&mut self, place: usize, item: T) -> Result<(), Full>
        ensures room { IsOk result ↔ (length (items_of self.old) < N) }
        ensures ok { OnOk result (items_of self.new ≡ insert (items_of self.old) place item) }
        ensures full { OnErr result (self.new ≡ self.old) }
    {
        let place = place.min(self.len);
        self.push(item)?;
        last_to(&mut self.slots[..self.len], place);
        Ok(())
    }

    // Takes the item at a place out, if there is one; those after it move up.
    pub fn remove(&mut self, place: usize) -> Option<T>
        ensures value { result ≡ slice_get (items_of self.old) place }
        ensures after { items_of self.new ≡ remove (items_of self.old) place }
    {
        let item = self.as_slice().get(place).copied()?;
        take_out(&mut self.slots[..self.len], place);
        self.len -= 1;
        Some(item)
    }

    // Puts an item in the place of another, which it gives back; where there is none, nothing changes.
    pub fn replace(&mut self, place: usize, item: T) -> Option<T>
        ensures value { result ≡ slice_get (items_of self.old) place }
        ensures after { items_of self.new ≡ slice_set (items_of self.old) place item }
    {
        let other = self.as_slice().get(place).copied()?;
        self.slots[place] = item;
        Some(other)
    }

    // Exchanges two items; where one of them is not there, nothing changes.
    pub fn swap(&mut self, first: usize, second: usize)
        ensures items { items_of self.new ≡ with_swapped first second (items_of self.old) }
        ensures value { Swapped first second self.old self.new }
    {
        if first < self.len && second < self.len {
            self.slots.swap(first, second);
        }
    }

    // Puts what a function gives of it in the place of each item.
    pub fn update<F: Fn(T) -> T>(&mut self, by: F)
        requires { All (F.pre by) (items_of self.old) }
        ensures { AllZip (F.post by) (items_of self.old) (items_of self.new) }
    {
        for item in self.slots[..self.len].iter_mut() {
            *item = by(*item);
        }
    }

    // The same with a function that gives something of some items only: the others stay, and are not written.
    pub fn update_some<F: Fn(T) -> Option<T>>(&mut self, by: F)
        requires { All (F.pre by) (items_of self.old) }
        ensures { AllZip (λ old new. (given : Option T) × F.post by old given × (new ≡ unwrap_or given old)) (items_of self.old) (items_of self.new) }
    {
        for slot in self.slots[..self.len].iter_mut() {
            if let Some(given) = by(*slot) {
                *slot = given;
            }
        }
    }
}

impl<T: Copy, const N: usize> DerefSlice for ShortList<T, N> {
    type Elem = T;

    ghost deref_gives = { λ list items. (items ≡ items_of list) × (length items ≤ N) };

    fn deref(&self) -> &[T] {
        Self::as_slice(self)
    }
}

// A list of these items, if they are not too many.
impl<T: Copy + Default, const N: usize> TryFrom<&[T]> for ShortList<T, N> {
    type Error = Full;

    ghost try_from_gives = { λ items r. MatchResult r (λ list. items_of list ≡ items.now) (λ _. N < length items.now) };

    fn try_from(items: &[T]) -> Result<Self, Full> {
        if items.len() > N {
            return Err(Full);
        }
        let mut slots = [T::default(); N];
        slots[..items.len()].copy_from_slice(items);
        Ok(ShortList {
            slots,
            len: items.len(),
        })
    }
}

// By hand: no derive serves a generic struct with a ghost field.
impl<T: Copy, const N: usize> Clone for ShortList<T, N> {
    ghost is_clone = { λ list copy. copy ≡ list };

    ghost is_infallible = { λ _. Unit {0} };

    fn clone(&self) -> Result<Self, AllocError> {
        Ok(*self)
    }
}
