// Lists that share their tails: stacks, frames and handlers.

ghost use Rattle.std.specs.Prelude.{◌≡◌, ◌++◌, ◌∷◌, [], ◌+◌, ◌<◌, ◌≤◌, length, get_or, take, slice_get, OnOk, OnErr, IfOk, MatchOption};
ghost use Rattle.std.specs.Option.{option_copied};

use ac_types::Memory;
use std::alloc::Global;
use std::marker::Model;

// A list: its newest item and the number of the rest.
#[derive(Clone, Copy)]
struct Cell<T> {
    item: T,
    below: usize,
}

/// Lists that share their tails, each with a number. List 0 is empty, and cells past the count are
/// to be written over.
pub struct SharedLists<T> {
    cells: Vec<Cell<T>>,
    count: usize,
}

impl<T: Drop> Drop for SharedLists<T> {
    fn drop(self) {
        let SharedLists { cells: _, count: _ } = self;
    }
}

impl<T> Model for SharedLists<T> {
    ghost use Rattle.std.specs.Prelude.{List, length, take, ◌≤◌};
    ghost use Rattle.std.specs.Coded.{coded_list};

    ghost Value = { List (List T) };

    ghost coded = { coded_list (coded_list T.code) };

    ghost use Rattle.ac_values.specs.inner.Chains.{lists, AreEarlier};

    ghost view = { λ c. lists (take c.count c.cells.items) };

    ghost invariant = { λ c. (c.count ≤ length c.cells.items) ×
        AreEarlier (take c.count c.cells.items) };
}

impl<T: Copy> SharedLists<T> {
    /// The empty list alone.
    #[tactic(auto, using(crate::proofs::ChainLaws::lists_none))]
    pub fn new(alloc: Global) -> SharedLists<T>
        ensures { result ≡ [] ∷ [] }
    {
        SharedLists {
            cells: Vec::new(alloc),
            count: 0,
        }
    }

    /// How many lists there are.
    #[tactic(auto, using(crate::proofs::ChainLaws::len_laws))]
    pub fn len(&self) -> usize
        ensures count { result ≡ length self.now }
        ensures first { get_or self.now 0 [] ≡ [] }
    {
        let cells = self.cells.len();
        prove!(self.count <= cells);
        self.count + 1
    }

    /// Gives back all lists but the first so many.
    #[inline(always)]
    #[tactic(auto, using(crate::proofs::ChainLaws::truncate_laws))]
    pub fn truncate(&mut self, count: usize)
        requires { 0 < count }
        ensures { self.new ≡ take count self.old }
    {
        if count - 1 < self.count {
            self.count = count - 1;
        }
    }

    /// One more list: an item on an older one.
    #[inline(always)]
    #[tactic(auto, using(crate::proofs::ChainLaws::push_laws))]
    pub fn push(&mut self, item: T, below: usize) -> Result<usize, Memory>
        requires { below < length self.old }
        ensures ok { OnOk result (self.new ≡ self.old ++ (item ∷ get_or self.old below []) ∷ []) }
        ensures number { IfOk result (λ n. n ≡ length self.old) }
        ensures err { OnErr result (self.new ≡ self.old) }
    {
        write(&mut self.cells, self.count, Cell { item, below })?;
        self.count += 1;
        Ok(self.count)
    }

    /// The newest item of a list, and the number of the rest.
    #[inline(always)]
    #[tactic(auto, using(crate::proofs::ChainLaws::top_laws))]
    pub fn top(&self, number: usize) -> Option<(T, usize)>
        requires { number < length self.now }
        ensures { MatchOption result (get_or self.now number [] ≡ []) (λ p. (p.1 < number) ×
            (get_or self.now number [] ≡ p.0 ∷ get_or self.now p.1 [])) }
    {
        let cells = &self.cells;
        if number == 0 {
            return None;
        }
        match cell_of(cells, number - 1) {
            Some(cell) => Some((cell.item, cell.below)),
            None => None,
        }
    }
}

fn cell_of<T>(cells: &Vec<Cell<T>>, i: usize) -> Option<&Cell<T>>
    ensures { option_copied result ≡ slice_get cells.now.items i }
{
    cells.get(i)
}

// So many cells are made at once.
const MORE: usize = 1024;

// Makes room for more cells.
#[cold]
#[inline(never)]
fn grow<T: Copy>(cells: &mut Vec<Cell<T>>, cell: Cell<T>) -> Result<(), Memory>
    ensures ok { OnOk result (take (length cells.old.items) cells.new.items ≡ cells.old.items) }
    ensures more { OnOk result (length cells.old.items < length cells.new.items) }
    ensures err { OnErr result (cells.new.items ≡ cells.old.items) }
{
    let count = cells.len();
    if count > usize::MAX - MORE {
        return Err(Memory);
    }
    cells.resize(count + MORE, cell)?;
    Ok(())
}

// Writes a cell behind the first so many.
#[inline(always)]
#[tactic(auto, using(crate::proofs::ChainLaws::write_laws))]
fn write<T: Copy>(cells: &mut Vec<Cell<T>>, count: usize, cell: Cell<T>) -> Result<(), Memory>
    requires { count ≤ length cells.old.items }
    ensures ok { OnOk result (take (count + 1) cells.new.items ≡ take count cells.old.items ++
        cell ∷ []) }
    ensures within { OnOk result (count < length cells.new.items) }
    ensures err { OnErr result (cells.new.items ≡ cells.old.items) }
{
    if count >= cells.len() {
        grow(cells, cell)?;
    }
    cells[count] = cell;
    Ok(())
}
