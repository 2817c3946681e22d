ghost use Rattle.std.specs.Prelude.{◌≡◌, IfOk};

use std::alloc::{AllocError, Global};
use std::marker::Model;
use std::rc::Rc;

/// A value that several owners hold, counted, and that none of them can change. Contracts see it as that value, so two
/// owners of one value and two owners of equal ones are alike to them. A type may lead back to itself through it.
#[derive(Drop)]
pub struct Shared<T> {
    inner: Rc<T>,
}

impl<T> Model for Shared<T> {
    ghost Value = { T };

    ghost coded = { T.code };

    ghost view = { λ shared. shared.inner.value };
}

impl<T: Drop> Shared<T> {
    /// The value's first owner.
    ///
    /// # Errors
    /// `AllocError` where there is no room for the value; it is dropped then.
    pub fn new(alloc: Global, value: T) -> Result<Shared<T>, AllocError>
        ensures { IfOk result (λ shared. shared ≡ value) }
    {
        Ok(Shared {
            inner: Rc::new(alloc, value)?,
        })
    }

    /// The value.
    pub fn get(&self) -> &T
        ensures { result.now ≡ self.now }
    {
        &self.inner
    }

    /// One owner more of the same value. Nothing is copied.
    ///
    /// # Errors
    /// `AllocError` where the owners cannot be counted any more.
    pub fn share(&self) -> Result<Shared<T>, AllocError>
        ensures { IfOk result (λ shared. shared ≡ self.now) }
    {
        Ok(Shared {
            inner: self.inner.clone()?,
        })
    }
}

impl<T: Drop> Clone for Shared<T> {
    ghost is_clone = { λ shared another. another ≡ shared };

    fn clone(&self) -> Result<Shared<T>, AllocError> {
        self.share()
    }
}
