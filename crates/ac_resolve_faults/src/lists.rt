// The names of the types and of the values of structs and likespecs, and the marks.

ghost use Rattle.std.specs.Prelude.{◌≡◌, ◌∷◌, []};
ghost use Rattle.ac_syntax.specs.Trees.{FieldTree, AbbrevTree, DefTree};
ghost use Rattle.ac_syntax.specs.ReadTrees.{field_tree_of, abbrev_of, def_tree_of};
ghost use Rattle.ac_resolve_scopes.specs.Repeated.{field_type_name, field_value_name, mark_name};
ghost use Rattle.ac_resolve_faults.specs.inner.DefFlaws.{abbrev_name};

use ac_resolve_signatures::{Named, Pick};
use ac_syntax::{SAbbrev, SDef, SDefKind, SField};

/// The types of a struct.
#[derive(Clone, Copy)]
pub struct FieldTypes;

impl Pick<SField> for FieldTypes {
    ghost Tree = { FieldTree };

    ghost read = { field_tree_of };

    ghost picks = { field_type_name };

    fn pick<'a>(&self, field: &'a SField) -> Option<Named<'a>> {
        match field {
            SField::Abbrev(alias) => Some(Named::of(&alias.name)),
            SField::Val(_, _, _) => None,
        }
    }
}

/// The fields of a struct.
#[derive(Clone, Copy)]
pub struct FieldValues;

impl Pick<SField> for FieldValues {
    ghost Tree = { FieldTree };

    ghost read = { field_tree_of };

    ghost picks = { field_value_name };

    fn pick<'a>(&self, field: &'a SField) -> Option<Named<'a>> {
        match field {
            SField::Abbrev(_) => None,
            SField::Val(name, _, _) => Some(Named::of(name)),
        }
    }
}

/// The types of a likespec.
#[derive(Clone, Copy)]
pub struct LikeTypes;

impl Pick<SAbbrev> for LikeTypes {
    ghost Tree = { AbbrevTree };

    ghost read = { abbrev_of };

    ghost picks = { λ a. abbrev_name a ∷ [] };

    fn pick<'a>(&self, alias: &'a SAbbrev) -> Option<Named<'a>> {
        Some(Named::of(&alias.name))
    }
}

/// The names of the marks, at the places of their strings.
#[derive(Clone, Copy)]
pub struct Marks;

impl Pick<SDef> for Marks {
    ghost Tree = { DefTree };

    ghost read = { def_tree_of };

    ghost picks = { mark_name };

    fn pick<'a>(&self, def: &'a SDef) -> Option<Named<'a>> {
        match &def.kind {
            SDefKind::Module { .. } => None,
            SDefKind::Import { .. } => None,
            SDefKind::Mark { text_at, text } => Some(Named {
                at: *text_at,
                word: text.as_slice(),
            }),
        }
    }
}
