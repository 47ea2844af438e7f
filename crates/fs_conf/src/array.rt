//! The items of an array.

ghost use Rattle.std.specs.Prelude.{◌≡◌, Some, None, IfOk, IsErrOf};
ghost use Rattle.toml.specs.View.{items_view};
ghost use Rattle.fs_conf.specs.Document.{each_item};

use crate::config::ConfFault;
use crate::fields::keep;
use std::alloc::Global;
use toml::Value;

/// What an item of an array can say.
pub(crate) trait OfItem: Drop {
    ghost use Rattle.std.specs.Prelude.{◌≡◌, Option, Some, None, IfOk, IsErrOf};
    ghost use Rattle.toml.specs.{Data.{Data}, View.{view}};

    ghost says: { Data → Option Self };

    /// What the item says. `Refused` where it says nothing of the kind.
    fn of_item(alloc: Global, item: &Value) -> Result<Self, ConfFault>
        ensures ok { IfOk result (λ own. says (view item.now) ≡ Some own) }
        ensures refused { IsErrOf result ConfFault.Refused → says (view item.now) ≡ None };
}

/// What each item says.
pub(crate) fn each_item<T: OfItem>(alloc: Global, items: &[Value]) -> Result<Vec<T>, ConfFault>
    ensures ok { IfOk result (λ list. each_item T.says (items_view items.now) ≡ Some list.items) }
    ensures refused { IsErrOf result ConfFault.Refused → each_item T.says (items_view items.now) ≡ None }
{
    let mut list = Vec::new(alloc);
    for item in items {
        let own = T::of_item(alloc, item)?;
        keep(&mut list, own)?;
    }
    Ok(list)
}
