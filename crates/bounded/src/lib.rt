//! A vector with room for so many items, whose memory is reserved when it is made.
#![tactic(auto)]

ghost use Rattle.std.specs.Prelude.{◌≡◌, ◌<◌, ◌≤◌, ◌↔◌, [], ◌∷◌, ◌++◌, length, take, reverse, IfOk, IfSome, IfNone, IsSome, IsTrue, slice_get, vec_capacity};

use std::alloc::{AllocError, Global};
use std::marker::Model;

/// Room for `ROOM` items or more. A push asks that so many are not held yet, so no call but `new` allocates.
#[derive(Drop)]
pub struct BoundedVec<T, const ROOM: usize> {
    items: Vec<T>,
}

impl<T, const ROOM: usize> Model for BoundedVec<T, ROOM> {
    ghost use Rattle.std.specs.Prelude.{◌≤◌, List, vec_capacity};

    ghost Value = { List T };

    ghost view = { λ v. v.items.items };

    ghost invariant = { λ v. ROOM ≤ vec_capacity v.items };
}

impl<T, const ROOM: usize> BoundedVec<T, ROOM> {
    /// No items, with the memory for all reserved.
    pub fn new(heap: Global) -> Result<BoundedVec<T, ROOM>, AllocError>
        ensures { IfOk result (λ v. v ≡ []) }
    {
        let items = Vec::with_capacity(heap, ROOM)?;
        Ok(BoundedVec { items })
    }

    /// A vector whose memory is reserved, with items already in it.
    pub fn from_vec(items: Vec<T>) -> BoundedVec<T, ROOM>
        requires { ROOM ≤ vec_capacity items }
        ensures { result ≡ items.items }
    {
        Self { items }
    }

    /// The items, in the memory that was reserved.
    pub fn into_vec(self) -> Vec<T>
        ensures items { result.items ≡ self }
        ensures room { ROOM ≤ vec_capacity result }
    {
        let BoundedVec { items } = self;
        items
    }

    pub fn len(&self) -> usize
        ensures { result ≡ length self.now }
    {
        self.items.len()
    }

    pub fn is_empty(&self) -> bool
        ensures { IsTrue result ↔ (self.now ≡ []) }
    {
        self.items.is_empty()
    }

    /// Whether `ROOM` items or more are held, so that none may be pushed.
    pub fn is_full(&self) -> bool
        ensures { IsTrue result ↔ (ROOM ≤ length self.now) }
    {
        self.len() >= ROOM
    }

    pub fn as_slice(&self) -> &[T]
        ensures { result.now ≡ self.now }
    {
        self.items.as_slice()
    }

    /// Puts an item at the end.
    pub fn push(&mut self, item: T)
        requires { length self.old < ROOM }
        ensures { self.new ≡ self.old ++ item ∷ [] }
    {
        self.items.push_reserved(item);
    }

    /// Takes the last item off.
    pub fn pop(&mut self) -> Option<T>
        ensures some { IfSome result (λ item. self.old ≡ self.new ++ item ∷ []) }
        ensures none { IfNone result ((self.old ≡ []) × (self.new ≡ [])) }
    {
        self.items.pop()
    }
}

impl<T: Drop, const ROOM: usize> BoundedVec<T, ROOM> {
    pub fn clear(&mut self)
        ensures { self.new ≡ [] }
    {
        self.items.clear();
    }

    /// Keeps the first so many items.
    pub fn truncate(&mut self, len: usize)
        ensures { self.new ≡ take len self.old }
    {
        self.items.truncate(len);
    }
}

impl<T: Copy, const ROOM: usize> BoundedVec<T, ROOM> {
    /// The item that so many others follow.
    pub fn nth_last(&self, after: usize) -> Option<T>
        ensures value { result ≡ slice_get (reverse self.now) after }
        ensures within { IsSome result ↔ (after < length self.now) }
    {
        let place = self.len().checked_sub(after)?.checked_sub(1)?;
        self.items.get(place).copied()
    }
}

#[cfg(test)]
mod tests {
    use super::BoundedVec;
    use std::alloc::AllocError;

    #[test]
    fn holds_what_is_pushed(rt: HostRuntime) -> Result<(), AllocError> {
        let mut v = BoundedVec::<u8, 2>::new(rt.alloc())?;
        v.push(7);
        v.push(9);
        assert!(rt; v.is_full());
        assert_eq!(rt; v.nth_last(1), Some(7));
        assert_eq!(rt; v.pop(), Some(9));
        let v = BoundedVec::<u8, 2>::from_vec(v.into_vec());
        assert_eq!(rt; v.as_slice(), [7].as_slice());
        Ok(())
    }
}
