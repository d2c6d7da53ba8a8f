// Items that are collected in a fixed table: the bytes of lines and answers, and the words of a session.
ghost use Rattle.std.specs.Prelude.{◌≡◌, ◌+◌, ◌≤◌, ◌<◌, ◌↔◌, List, [], ◌∷◌, ◌++◌, IsTrue, length, take};

use std::marker::Model;

// At most N items, seen as their list: an array with a length beside it, since the program has no heap for a `Vec`. The crate's functions on
// bytes and words write into the array itself, which is why it is theirs too.
#[derive(Drop)]
pub struct Buffer<T: Copy + Default, const N: usize> {
    pub(crate) items: [T; N],
    pub(crate) count: usize,
}

impl<T: Copy + Default, const N: usize> Model for Buffer<T, N> {
    ghost Value = { List T };

    ghost view = { λ b. take b.count b.items };

    ghost invariant = { λ b. b.count ≤ N };
}

impl<T: Copy + Default, const N: usize> Buffer<T, N> {
    // The first of these items, so many.
    pub fn first(items: [T; N], count: usize) -> Self
        requires { count ≤ N }
        ensures { result ≡ take count items }
    {
        Buffer { items, count }
    }

    // None yet.
    pub fn new() -> Self
        ensures { result ≡ [] }
    {
        Self::first([T::default(); N], 0)
    }

    // The items that are collected.
    pub fn as_slice(&self) -> &[T]
        ensures items { result.now ≡ self.now }
        ensures few { length self.now ≤ N }
    {
        &self.items[..self.count]
    }

    // Are there none?
    pub fn is_empty(&self) -> bool
        ensures { IsTrue result ↔ (self.now ≡ []) }
    {
        self.count == 0
    }

    // How many more there is room for.
    pub fn room(&self) -> usize
        ensures { length self.now + result ≡ N }
    {
        N - self.count
    }

    // Puts an item behind the others.
    pub fn push(&mut self, item: T)
        requires { length self.old < N }
        ensures { self.new ≡ self.old ++ item ∷ [] }
    {
        self.items[self.count] = item;
        self.count += 1;
    }

    // Forgets them all.
    pub fn clear(&mut self)
        ensures { self.new ≡ [] }
    {
        self.count = 0;
    }
}
