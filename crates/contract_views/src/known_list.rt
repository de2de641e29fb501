// A list that only clauses read.
ghost use Rattle.std.specs.Prelude.{◌≡◌, List, [], ◌∷◌, ◌++◌};
ghost use base.Fml.{ftrue};
ghost use base.Stored.{coded_list};

use std::marker::{Model, PhantomData};

/// Items in order. It has no bytes and owns nothing, so only clauses tie its items.
pub struct KnownList<T> {
    marker: PhantomData<T>,
    pub ghost items: { List T } by { coded_list T.code },
}

impl<T> Model for KnownList<T> {
    ghost also_owns = { λ _. ftrue };
}

impl<T> KnownList<T> {
    pub fn none() -> KnownList<T>
        ensures { result.items ≡ [] }
    {
        KnownList {
            marker: PhantomData,
        }
    }

    /// These items, which nobody has to make.
    pub fn of() -> KnownList<T>
        ghost items: { List T }
        ensures { result.items ≡ items }
    {
        KnownList {
            marker: PhantomData,
        }
    }

    /// The same with this one at the end.
    pub fn with(self, x: &T) -> KnownList<T>
        ensures { result.items ≡ self.items ++ x.now ∷ [] }
    {
        // It holds nothing when it runs: the contract alone has the list.
        let _ = x;
        let KnownList { marker: _ } = self;
        KnownList {
            marker: PhantomData,
        }
    }

    /// The same with the others at the end.
    pub fn followed_by(self, others: KnownList<T>) -> KnownList<T>
        ensures { result.items ≡ self.items ++ others.items }
    {
        let KnownList { marker: _ } = others;
        let KnownList { marker: _ } = self;
        KnownList {
            marker: PhantomData,
        }
    }
}

impl<T> Drop for KnownList<T> {
    fn drop(self) {
        let Self { marker: _ } = self;
    }
}

unsafe impl<T> Send for KnownList<T> {}

unsafe impl<T> Sync for KnownList<T> {}
