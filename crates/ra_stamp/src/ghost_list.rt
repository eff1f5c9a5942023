ghost use Rattle.std.specs.Prelude.{◌≡◌, List, [], ◌∷◌, ◌++◌};
ghost use Rattle.std.specs.Borrow.{ftrue};

use std::marker::{Model, PhantomData};

/// A list that only clauses and proofs see, as `items`. It takes no memory, and its methods do nothing at run time.
#[derive(Drop)]
pub struct GhostList<T> {
    of: PhantomData<T>,
    pub ghost items: { List T },
}

impl<T> Model for GhostList<T> {
    ghost also_owns = { λ _. ftrue };
}

// It owns nothing, so it may go to another thread, whatever its items are.
unsafe impl<T> Send for GhostList<T> {}

impl<T> GhostList<T> {
    /// Makes the empty list.
    pub fn new() -> GhostList<T>
        ensures { result.items ≡ [] }
    {
        GhostList { of: PhantomData }
    }

    /// Makes the list with this item after the others.
    pub fn and(&self, item: &T) -> GhostList<T>
        ensures { result.items ≡ self.now.items ++ item.now ∷ [] }
    {
        GhostList { of: PhantomData }
    }
}

impl<A, B> GhostList<(A, B)> {
    /// Makes the list with this pair after the others.
    pub fn and_pair(&self, first: &A, second: &B) -> GhostList<(A, B)>
        ensures { result.items ≡ self.now.items ++ (first.now, second.now) ∷ [] }
    {
        GhostList { of: PhantomData }
    }
}
