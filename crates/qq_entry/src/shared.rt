ghost use Rattle.std.specs.Prelude.{◌≡◌, IfOk, IsOkUnless};

use qq_base::{Duplicate, Memory};
use std::alloc::Global;
use std::marker::Model;
use std::sync::Arc;

/// A value that its copies share, which contracts see as the value. A copy of it copies a handle.
#[derive(Debug, Drop)]
pub struct Shared<T> {
    value: Arc<T, Global>,
}

impl<T> Model for Shared<T> {
    ghost Value = { T };

    ghost view = { λ s. s.value.value };
}

impl<T: PartialEq> PartialEq for Shared<T> {
    ghost eq = { T.eq };

    ghost laws = { T.laws };

    fn eq(&self, other: &Self) -> bool {
        *self.value == *other.value
    }
}

impl<T: Drop> Shared<T> {
    /// The value, with room of its own.
    pub fn new(alloc: Global, value: T) -> Result<Self, Memory>
        ensures ok { IfOk result (λ shared. shared ≡ value) }
        ensures want { IsOkUnless result Memory.Want }
    {
        Ok(Shared {
            value: Arc::new(alloc, value)?,
        })
    }

    /// The value.
    pub fn get(&self) -> &T
        ensures { result.now ≡ self.now }
    {
        &self.value
    }
}

impl<T: Drop> Duplicate for Shared<T> {
    fn copy(&self, _alloc: Global) -> Result<Self, Memory> {
        Ok(Shared {
            value: Arc::try_clone(&self.value)?,
        })
    }
}
