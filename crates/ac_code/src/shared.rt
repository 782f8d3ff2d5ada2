// A value that several others hold.

ghost use Rattle.std.specs.Prelude.{◌≡◌, IfOk};

use ac_types::Memory;
use std::alloc::Global;
use std::marker::Model;
use std::ops::Deref;
use std::sync::Arc;

/// A value that several others hold, which contracts see as the value.
pub struct Shared<T> {
    inner: Arc<T>,
}

impl<T: Drop> Drop for Shared<T> {
    fn drop(self) {
        let Shared { inner: _ } = self;
    }
}

impl<T> Model for Shared<T> {
    ghost Value = { T };

    ghost coded = { T.code };

    ghost view = { λ b. b.inner.value };
}

impl<T: Drop> Shared<T> {
    /// The value, held once.
    pub fn new(alloc: Global, value: T) -> Result<Shared<T>, Memory>
        ensures { IfOk result (λ b. b ≡ value) }
    {
        Ok(Shared {
            inner: Arc::new(alloc, value)?,
        })
    }

    /// The same value, held once more.
    pub fn share(&self) -> Result<Shared<T>, Memory>
        ensures { IfOk result (λ b. b ≡ self.now) }
    {
        Ok(Shared {
            inner: Arc::try_clone(&self.inner)?,
        })
    }
}

impl<T> Deref for Shared<T> {
    type Target = T;

    ghost deref_gives = { λ b v. v ≡ b };

    fn deref(&self) -> &T {
        &self.inner
    }
}
