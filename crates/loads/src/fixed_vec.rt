ghost use Rattle.std.specs.Prelude.{◌≡◌, ◌≤◌, ⊤, length};

use std::alloc::AllocError;

/// At most N values one after another, in fixed memory: those of the first `count` places. The kit's `ArrayVec` is not
/// `Copy` and wants a default value, so it does not serve here. Nor has this one a model: a `Copy` type with a model has
/// to give back what stands in the places not in use.
#[derive(Copy, Drop)]
pub(crate) struct FixedVec<T, const N: usize> {
    items: [T; N],
    count: usize,
    ghost places: { length items ≡ N },
    ghost room: { count ≤ N },
}

/// By hand, since `Clone` cannot be derived over a ghost field where there is a type parameter.
impl<T: Copy, const N: usize> Clone for FixedVec<T, N> {
    ghost is_clone = { λ x y. y ≡ x };

    ghost is_infallible = { λ _. ⊤ };

    fn clone(&self) -> Result<Self, AllocError> {
        Ok(*self)
    }
}

impl<T: Copy, const N: usize> FixedVec<T, N> {
    ghost use Rattle.std.specs.Prelude.{[]};
    ghost use Rattle.loads.specs.FixedVecs.{items_of, added};

    /// Without values: the places that are not in use hold `blank`.
    pub(crate) fn new(blank: T) -> FixedVec<T, N>
        ensures { items_of result ≡ [] }
    {
        FixedVec {
            items: [blank; N],
            count: 0,
        }
    }

    /// The values, in order.
    pub(crate) fn as_slice(&self) -> &[T]
        ensures same { result.now ≡ items_of self.now }
        ensures few { length result.now ≤ N }
    {
        &self.items[..self.count]
    }

    /// Adds a value at the end; where there are N already, it comes back and nothing changes.
    pub(crate) fn push(&mut self, x: T) -> Result<(), T>
        ensures { (result, items_of self.new) ≡ added N x (items_of self.old) x }
    {
        if self.count == N {
            return Err(x);
        }
        self.items[self.count] = x;
        self.count += 1;
        Ok(())
    }

    /// Takes all values out.
    pub(crate) fn clear(&mut self)
        ensures { items_of self.new ≡ [] }
    {
        self.count = 0;
    }
}
