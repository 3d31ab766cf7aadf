//! A list in fixed memory.
ghost use Rattle.std.specs.Prelude.{◌≡◌, ◌-◌, ◌<◌, ◌==◌, ◌≤◌, [], length, replicate, Some};
ghost use Rattle.std.specs.List.{slice_get};
ghost use Rattle.line.specs.Listings.{emptied, pushed, moved_last};

use std::marker::Model;

/// A list of at most `N` elements. Its memory lies in the value itself, and what is removed is not cleared: each call
/// costs the same however long the list is. (The kit's `ArrayVec` writes a blank over each element that it removes.)
/// A clause sees the elements and what the places behind them hold, so two lists are equal where all of it is.
#[derive(Drop)]
pub(crate) struct FixedList<T, const N: usize> {
    pub(crate) places: [T; N],
    pub(crate) len: usize,
}

impl<T, const N: usize> Model for FixedList<T, N> {
    ghost use Rattle.std.specs.Prelude.{◌≡◌, ◌≤◌, List, length};
    ghost use Rattle.std.specs.Coded.{coded_list, coded×};
    ghost use Rattle.line.specs.Listings.{listing};

    ghost Value = { List T × List T };

    ghost coded = { coded× (coded_list T.code) (coded_list T.code) };

    ghost view = { λ l. listing l.len l.places };

    ghost invariant = { λ l. (l.len ≤ N) × (length l.places ≡ N) };
}

impl<T: Copy, const N: usize> FixedList<T, N> {
    /// An empty list, with the filler in its memory.
    pub(crate) fn new(filler: T) -> Self
        ensures { result ≡ ([], replicate N filler) }
    {
        FixedList {
            places: [filler; N],
            len: 0,
        }
    }

    /// Whether no element more fits.
    pub(crate) fn is_full(&self) -> bool
        ensures full { result ≡ (length self.now.0 == N) }
        ensures within { length self.now.0 ≤ N }
    {
        self.len == N
    }

    /// The element at the place.
    pub(crate) fn at(&self, place: usize) -> &T
        requires { place < length self.now.0 }
        ensures { slice_get self.now.0 place ≡ Some result.now }
    {
        &self.as_slice()[place]
    }

    pub(crate) fn as_slice(&self) -> &[T]
        ensures { result.now ≡ self.now.0 }
    {
        &self.places[..self.len]
    }

    /// Puts an element behind the others.
    pub(crate) fn push(&mut self, element: T)
        requires { length self.old.0 < N }
        ensures { self.new ≡ pushed self.old element }
    {
        self.places[self.len] = element;
        self.len += 1;
    }

    /// Removes the element at the place; the last one takes it.
    pub(crate) fn swap_remove(&mut self, place: usize)
        requires { place < length self.old.0 }
        ensures { (last : T) → slice_get self.old.0 (length self.old.0 - 1) ≡ Some last → self.new ≡ moved_last self.old place last }
    {
        self.len -= 1;
        self.places[place] = self.places[self.len];
    }

    pub(crate) fn clear(&mut self)
        ensures { self.new ≡ emptied self.old }
    {
        self.len = 0;
    }
}
