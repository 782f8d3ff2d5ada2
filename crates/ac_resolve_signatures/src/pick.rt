// The names that the items of a list give.

ghost use Rattle.std.specs.Prelude.{◌≡◌, ◌++◌, List, map, flat_map, option_map, option_to_list, IfOk, OnOk};
ghost use Rattle.ac_syntax.specs.Trees.{NameAt};
ghost use Rattle.ac_resolve_signatures.specs.Reads.{named};

use crate::named::Named;
use ac_types::Memory;
use std::alloc::Global;

/// Which name an item of a list gives.
pub trait Pick<T> {
    /// What items are read as.
    ghost Tree: { Type 0 };

    /// How they are read.
    ghost read: { T → Self.Tree };

    /// The name that one gives, or none.
    ghost picks: { Self.Tree → List NameAt };

    /// The name that an item gives.
    fn pick<'a>(&self, item: &'a T) -> Option<Named<'a>>
        ensures { option_to_list (option_map named result) ≡ picks (read item.now) };
}

/// The names that items give, in order.
pub fn picked_names<'a, T, P: Pick<T>>(
    alloc: Global,
    items: &'a [T],
    pick: &P,
) -> Result<Vec<Named<'a>>, Memory>
    ensures { IfOk result (λ names. map named names.items
        ≡ flat_map P.picks (map P.read items.now)) }
{
    let mut names = Vec::new(alloc);
    for item in items {
        add(&mut names, pick.pick(item))?;
    }
    Ok(names)
}

// Appends a name, where there is one.
fn add<'a>(names: &mut Vec<Named<'a>>, name: Option<Named<'a>>) -> Result<(), Memory>
    ensures { OnOk result (map named names.new.items ≡ map named names.old.items ++ option_to_list
        (option_map named name.entry)) }
{
    if let Some(name) = name {
        names.push(name)?;
    }
    Ok(())
}
