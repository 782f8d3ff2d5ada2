// The numbers that entries have in a packet.

ghost use Rattle.std.specs.Prelude.{◌≡◌, ◌≤◌, IfOk, length, slice_set, ◌^◌};
ghost use Rattle.ac_rules.specs.Needed.{place_in};
ghost use Rattle.ac_terms_renumber.specs.Numbers.{number_for};
ghost use Rattle.ac_pack_definitions.specs.Forms.{AllBelow};
ghost use Rattle.ac_pack_definitions.specs.inner.Passing.{numbered};

use ac_types::Memory;
use std::alloc::Global;

/// The place of each entry among the chosen ones, 0 for one that isn't chosen.
pub fn places(alloc: Global, entries: usize, chosen: &[u32]) -> Result<Vec<u16>, Memory>
    requires few { length chosen.now ≤ 2 ^ 16 }
    requires below { AllBelow entries chosen.now }
    ensures { IfOk result (λ ns. number_for ns.items ≡ place_in chosen.now) }
{
    let mut numbers = vec![in alloc; 0; entries]?;
    put_places(&mut numbers, chosen);
    Ok(numbers)
}

// Puts the place of each of the chosen ones, from the last to the first.
fn put_places(numbers: &mut [u16], chosen: &[u32])
    requires few { length chosen.now ≤ 2 ^ 16 }
    requires below { AllBelow (length numbers.old) chosen.now }
    ensures { numbers.new ≡ numbered numbers.old 0 chosen.now }
{
    let mut i = chosen.len();
    while i > 0 {
        i -= 1;
        put_place(numbers, chosen[i], i as u16);
    }
}

// Puts the place of an entry, where it is there.
fn put_place(numbers: &mut [u16], entry: u32, place: u16)
    ensures { numbers.new ≡ slice_set numbers.old entry place }
{
    let entry = entry as usize;
    if entry < numbers.len() {
        numbers[entry] = place;
    }
}

/// The same numbers in four bytes.
pub fn wide(alloc: Global, numbers: &[u16]) -> Result<Vec<u32>, Memory>
    ensures { IfOk result (λ ns. ns.items ≡ numbers.now) }
{
    let mut found = Vec::new(alloc);
    for n in numbers {
        found.push(u32::from(*n))?;
    }
    Ok(found)
}
