ghost use Rattle.std.specs.Prelude.{◌≡◌, IfOk};

use lf_base::NoMemory;
use std::alloc::Global;
use std::marker::Model;
use std::sync::Arc;

/// A list whose copies share its items. Contracts see the list.
#[derive(Debug, Drop)]
pub struct Shared<T> {
    items: Arc<Vec<T>>,
}

impl<T> Model for Shared<T> {
    ghost use Rattle.std.specs.Prelude.{List};
    ghost use Rattle.std.specs.Coded.{coded_list};
    ghost use Rattle.std.specs.Arc.{arc_value};

    ghost Value = { List T };

    ghost coded = { coded_list T.code };

    ghost view = { λ s. (arc_value s.items).items };
}

impl<T> Shared<T> {
    /// The list of these items; `NoMemory` is its one fault.
    pub fn of(alloc: Global, items: Vec<T>) -> Result<Shared<T>, NoMemory>
    where
        T: Drop,
        ensures { IfOk result (λ s. s ≡ items.items) }
    {
        Ok(Shared {
            items: Arc::new(alloc, items)?,
        })
    }

    /// The items, in order.
    pub fn as_slice(&self) -> &[T]
        ensures { result.now ≡ self.now }
    {
        self.items.as_slice()
    }

    /// The same list. It takes no memory, but a count of owners that is at its end is refused.
    pub fn copy(&self, _alloc: Global) -> Result<Shared<T>, NoMemory>
        ensures { IfOk result (λ s. s ≡ self.now) }
    {
        Ok(Shared {
            items: Arc::try_clone(&self.items)?,
        })
    }
}
