// Types as they are written.

ghost use Rattle.std.specs.Prelude.{◌≡◌, Some, None, is_some, map};
ghost use Rattle.ac_syntax.specs.Trees.{type_trees};
ghost use Rattle.ac_syntax.specs.ReadTrees.{type_tree_of, name_of};
ghost use Rattle.ac_resolve_scopes.specs.Unbound.{unless, unbound_behind};
ghost use Rattle.ac_resolve_signatures.specs.KnownScopes.{called_definition, dotted_size};
ghost use Rattle.ac_resolve_signatures.specs.Reads.{known_in};
ghost use Rattle.ac_resolve_signatures.specs.TypeFlaws.{leaf_of, no_type, measured_around, measured_both, measured_with, measured, measured_all, written_flaws, type_flaws};

use crate::flaws::Flaws;
use crate::known::Scan;
use crate::outside::{outside_of, size_under};
use crate::size::Size;
use ac_resolve_scopes::is_standard;
use ac_syntax::{SName, SType, STypeKind};
use ac_types::Word;
use ac_types::limits::{HIGHEST_TYPE, MOST_TYPE_PARTS, WIDEST_TUPLE};

/// What is wrong with a type's names and tuples, and its size.
#[derive(Clone, Copy)]
pub struct Measured {
    /// What is wrong.
    pub flaws: Flaws,
    /// The size of the type written out.
    pub size: Size,
}

impl Measured {
    // Of a type without parts, in scope.
    fn leaf(size: Size) -> Measured
        ensures { result ≡ leaf_of None (Some size) }
    {
        Measured {
            flaws: Flaws::none(),
            size,
        }
    }

    // Of a name that isn't in scope.
    fn unbound(at: u32) -> Measured
        ensures { result ≡ leaf_of (Some at) None }
    {
        Measured {
            flaws: Flaws::missing(Some(at)),
            size: Size::leaf(),
        }
    }

    // Of no type.
    fn none() -> Measured
        ensures { result ≡ no_type }
    {
        Measured {
            flaws: Flaws::none(),
            size: Size::none(),
        }
    }

    // Of a type around this one.
    fn around(self) -> Measured
        ensures { result ≡ measured_around self }
    {
        Measured {
            flaws: self.flaws,
            size: self.size.around(),
        }
    }

    // Of two types side by side.
    fn beside(self, other: Measured) -> Measured
        ensures { result ≡ measured_both self other }
    {
        Measured {
            flaws: self.flaws.join(other.flaws),
            size: self.size.beside(other.size),
        }
    }

    // With what else is wrong.
    fn with(self, flaws: Flaws) -> Measured
        ensures { result ≡ measured_with flaws self }
    {
        Measured {
            flaws: flaws.join(self.flaws),
            size: self.size,
        }
    }

    /// What is wrong where the type is written.
    pub fn flaws(self) -> Flaws
        ensures { result ≡ written_flaws self }
    {
        let height = Flaws::counted(HIGHEST_TYPE, self.size.height);
        let parts = Flaws::counted(MOST_TYPE_PARTS, self.size.parts);
        self.flaws.join(height.join(parts))
    }
}

/// What is wrong with a type where it is written.
pub fn type_flaws<'a>(tree: &'a SType, scan: &Scan<'_, 'a>) -> Flaws
    ensures { result ≡ type_flaws (known_in scan.now) (type_tree_of tree.now) }
{
    measure(tree, scan).flaws()
}

/// What is wrong with a type's names and tuples, and its size.
#[cycle(measure)]
#[tactic(auto, using(crate::proofs::Forms::type_forms))]
pub fn measure<'a>(tree: &'a SType, scan: &Scan<'_, 'a>) -> Measured
    ensures { result ≡ measured (known_in scan.now) (type_tree_of tree.now) }
{
    match &tree.kind {
        STypeKind::Int => Measured::leaf(Size::leaf()),
        STypeKind::Bool => Measured::leaf(Size::leaf()),
        STypeKind::Str => Measured::leaf(Size::leaf()),
        STypeKind::Unit => Measured::leaf(Size::leaf()),
        STypeKind::Exn => Measured::leaf(Size::leaf()),
        STypeKind::Local(word) => local(tree.at, word, scan),
        STypeKind::Of(owner, name) => dotted(owner, name, scan),
        STypeKind::Tuple(parts) => {
            let width = Flaws::counted(WIDEST_TUPLE as u32, parts.len());
            all(parts.as_slice(), scan).around().with(width)
        }
        STypeKind::List(item) => measure(item, scan).around(),
        STypeKind::Opt(item) => measure(item, scan).around(),
        STypeKind::Fun(from, to) => {
            let from = measure(from, scan);
            from.beside(measure(to, scan)).around()
        }
    }
}

#[cycle(measure)]
fn all<'a>(trees: &'a [SType], scan: &Scan<'_, 'a>) -> Measured
    ensures { result ≡ measured_all (known_in scan.now) no_type (type_trees
        (map type_tree_of trees.now)) }
{
    let mut found = Measured::none();
    for tree in trees {
        let here = measure(tree, scan);
        found = found.beside(here);
    }
    found
}

// Of a type with a plain name.
fn local<'a>(at: u32, word: &'a Word, scan: &Scan<'_, 'a>) -> Measured
    ensures { result ≡ leaf_of (unless ((known_in scan.now).types word.now) at)
        ((known_in scan.now).types word.now) }
{
    match size_under(&scan.types, word) {
        None => Measured::unbound(at),
        Some(size) => Measured::leaf(size),
    }
}

// Of a type behind a dot.
fn dotted<'a>(owner: &'a SName, name: &'a SName, scan: &Scan<'_, 'a>) -> Measured
    ensures { result ≡ leaf_of
        (unbound_behind (is_some (called_definition (known_in scan.now) owner.now.word))
        (dotted_size (known_in scan.now) owner.now.word name.now.word)
        (name_of owner.now) (name_of name.now))
        (dotted_size (known_in scan.now) owner.now.word name.now.word) }
{
    if is_standard(&owner.word) {
        return Measured::unbound(owner.at);
    }
    match outside_of(scan.externals, &owner.word) {
        None => Measured::unbound(owner.at),
        Some(outside) => match size_under(&outside.types, &name.word) {
            None => Measured::unbound(name.at),
            Some(size) => Measured::leaf(size),
        },
    }
}
