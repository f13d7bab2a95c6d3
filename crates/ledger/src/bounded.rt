// A list of bounded length that lies in its row and is copied with it. The kit's `ArrayVec`, which the other tables have, is not `Copy`.
ghost use Rattle.std.specs.Prelude.{◌≡◌, ◌<◌, ◌≤◌, [], ◌∷◌, ◌++◌, length, nat_eq, slice_set};
ghost use Rattle.ledger.specs.Bounded.{elements};

// At most N elements: the first `len` of the N items. What stands behind them has no meaning.
// `elements`, and no `Model`: a type is `Copy` only where its `Model` gives all its fields back.
#[derive(Clone, Copy)]
pub struct Bounded<T, const N: usize> {
    items: [T; N],
    len: usize,
}

impl<T: Copy + Default, const N: usize> Bounded<T, N> {
    // The empty list.
    pub fn new() -> Bounded<T, N>
        ensures { elements result ≡ [] }
    {
        Bounded {
            items: [T::default(); N],
            len: 0,
        }
    }
}

impl<T: Copy, const N: usize> Bounded<T, N> {
    pub fn as_slice(&self) -> &[T]
        ensures value { result.now ≡ elements self.now }
        ensures bound { length result.now ≤ N }
    {
        self.items.get(..self.len).unwrap_or(&self.items)
    }

    pub fn len(&self) -> usize
        ensures value { result ≡ length (elements self.now) }
        ensures bound { result ≤ N }
    {
        self.as_slice().len()
    }

    pub fn is_empty(&self) -> bool
        ensures { result ≡ nat_eq (length (elements self.now)) 0 }
    {
        self.as_slice().is_empty()
    }

    // Adds an element at the end.
    pub fn push(&mut self, element: T)
        requires { length (elements self.old) < N }
        ensures { elements self.new ≡ elements self.old ++ element ∷ [] }
    {
        self.items[self.len] = element;
        self.len += 1;
    }

    // Replaces the element at an index.
    pub fn replace(&mut self, index: usize, element: T)
        requires { index < length (elements self.old) }
        ensures { elements self.new ≡ slice_set (elements self.old) index element }
    {
        self.items[index] = element;
    }
}
