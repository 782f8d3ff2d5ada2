// Sets of entries: a flag for each.

ghost use Rattle.std.specs.Prelude.{◌≡◌};
ghost use Rattle.ac_terms.specs.Read.{home_of};
ghost use Rattle.ac_closure.specs.inner.Chosen.{with_one_entry, with_entries, with_found, with_home};

use ac_terms::Home;

/// Adds an entry, where it is there.
pub fn add_entry(set: &mut [bool], j: u32)
    ensures { set.new ≡ with_one_entry set.old j }
{
    let j = j as usize;
    if j < set.len() {
        set[j] = true;
    }
}

/// Adds entries.
pub fn add_entries(set: &mut [bool], all: &[u32])
    ensures { set.new ≡ with_entries set.old all.now }
{
    for j in all {
        add_entry(set, *j);
    }
}

/// Adds an entry that was found.
pub fn add_found(set: &mut [bool], found: Option<u32>)
    ensures { set.new ≡ with_found set.old found }
{
    match found {
        None => {}
        Some(j) => add_entry(set, j),
    }
}

/// Adds the definition at which a function is at home.
pub fn add_home(set: &mut [bool], home: Home)
    ensures { set.new ≡ with_home set.old (home_of home) }
{
    match home {
        Home::Main => {}
        Home::In(k) => add_entry(set, k),
    }
}
