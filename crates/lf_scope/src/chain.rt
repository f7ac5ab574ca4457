//! Lists that share their fronts.
ghost use Rattle.std.specs.Prelude.{◌≡◌, ◌++◌, ◌∷◌, [], IfOk, MatchOption};

use lf_base::NoMemory;
use lf_name::Name;
use lf_syntax::Shared;
use std::alloc::Global;
use std::marker::Model;
use std::sync::Arc;

/// A list whose copies, and the longer lists made of it, share its items. Contracts see the list.
#[derive(Drop)]
pub struct Chain<T> {
    last: Option<Arc<(Chain<T>, T)>>,
}

impl<T> Model for Chain<T> {
    ghost use Rattle.std.specs.Prelude.{List, length};
    ghost use Rattle.std.specs.Coded.{coded_list};
    ghost use Rattle.lf_scope.specs.Chain.{chained};

    ghost Value = { List T };

    ghost coded = { coded_list T.code };

    ghost view = { λ c. chained c.last };

    ghost size = { length };
}

/// What is copied by counting one owner more.
pub trait Counted: Drop {
    /// The same value; only a count of owners that is at its end is refused.
    fn share(&self, alloc: Global) -> Result<Self, NoMemory>
        ensures { IfOk result (λ c. c ≡ self.now) };
}

impl Counted for Name {
    fn share(&self, alloc: Global) -> Result<Name, NoMemory> {
        self.copy(alloc)
    }
}

impl<T: Drop> Counted for Shared<T> {
    fn share(&self, alloc: Global) -> Result<Shared<T>, NoMemory> {
        self.copy(alloc)
    }
}

impl<T> Chain<T> {
    /// The empty list.
    pub fn new() -> Chain<T>
        ensures { result ≡ [] }
    {
        Chain { last: None }
    }

    /// The same list. It takes no memory, but a count of owners that is at its end is refused.
    pub fn copy(&self, _alloc: Global) -> Result<Chain<T>, NoMemory>
        ensures { IfOk result (λ c. c ≡ self.now) }
    {
        match &self.last {
            None => Ok(Chain { last: None }),
            Some(pair) => Ok(Chain {
                last: Some(Arc::try_clone(pair)?),
            }),
        }
    }

    /// The list with one more item at its end.
    pub fn push(&self, alloc: Global, item: T) -> Result<Chain<T>, NoMemory>
    where
        T: Drop,
        ensures { IfOk result (λ c. c ≡ self.now ++ item ∷ []) }
    {
        let before = self.copy(alloc)?;
        Ok(Chain {
            last: Some(Arc::new(alloc, (before, item))?),
        })
    }

    /// The list before the last item, and that item; None where the list is empty.
    pub fn split(&self) -> Option<(&Chain<T>, &T)>
        ensures { MatchOption result (self.now ≡ []) (λ p. self.now ≡ p.0.now ++ p.1.now ∷ []) }
    {
        match &self.last {
            None => None,
            Some(pair) => Some((&pair.0, &pair.1)),
        }
    }
}

/// The items, in order.
pub fn in_order<T: Counted>(alloc: Global, chain: &Chain<T>) -> Result<Vec<T>, NoMemory>
    ensures { IfOk result (λ all. all.items ≡ chain.now) }
{
    let mut all = Vec::new(alloc);
    let mut rest = chain;
    'items: while let Some((before, item)) = rest.split() {
        all.push(item.share(alloc)?)?;
        rest = before;
    }
    all.reverse();
    Ok(all)
}
