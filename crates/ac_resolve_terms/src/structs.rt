// Structs.

ghost use Rattle.std.specs.Prelude.{◌≡◌, ◌∷◌, ◌++◌, ◌<◌, ◌≤◌, [], length, map, None, IfOk, ◌^◌};
ghost use Rattle.ac_types.specs.Limits.{most_items};
ghost use Rattle.ac_types.specs.ReadTypes.{typed_of};
ghost use Rattle.ac_terms.specs.Read.{expr_of, field_of};
ghost use Rattle.ac_syntax.specs.Trees.{ValField};
ghost use Rattle.ac_syntax.specs.ReadTrees.{name_of, type_tree_of, tree_of, abbrev_of, field_tree_of};
ghost use Rattle.ac_resolve_scopes.specs.Scopes.{with_field, each_in};
ghost use Rattle.ac_resolve_scopes.specs.Written.{term_in};
ghost use Rattle.ac_resolve_scopes.specs.Definitions.{after_abbrev, after_field, abbrev_type, item_type, item_field};
ghost use Rattle.ac_resolve_scopes.specs.Searches.{found, found_in_field, least_in};
ghost use Rattle.ac_resolve_names.specs.Fronts.{front_of, outer_of};
ghost use Rattle.ac_resolve_terms.specs.inner.Crowd.{crowd};

use crate::term::term_in;
use crate::types::{Abbrevs, outer_ty};
use ac_resolve_names::{Front, Outer, Scope};
use ac_syntax::{SAbbrev, SExpr, SField, SName, SType};
use ac_terms::{Field, Term};
use ac_types::{Many, Memory, TyField, both};
use std::alloc::Global;

/// A term where no variables are in scope.
pub fn outer_term(alloc: Global, tree: &SExpr, outer: &Outer) -> Result<Term, Memory>
    requires { found crowd (outer_of outer.now) (tree_of tree.now) ≡ None }
    ensures { IfOk result (λ t. expr_of t ≡ term_in (outer_of outer.now) (tree_of tree.now)) }
{
    let scope = Scope::new(outer);
    term_in(alloc, tree, &scope)
}

/// The first items of a struct, and the scope behind them.
pub struct Items<'a> {
    abbrevs: Abbrevs<'a>,
    fields: Many<Field>,
}

impl<'a> Drop for Items<'a> {
    fn drop(self) {
        let Items {
            abbrevs: _,
            fields: _,
        } = self;
    }
}

impl<'a> Items<'a> {
    // With one more.
    fn with(self, alloc: Global, item: &SField) -> Result<Items<'a>, Memory>
        requires crowd { found_in_field crowd (outer_of self.abbrevs.outer) (field_tree_of
            item.now) ≡ None }
        requires few { length (outer_of self.abbrevs.outer).fields < 2 ^ 16 }
        ensures outer { IfOk result (λ r. outer_of r.abbrevs.outer ≡
            after_field (outer_of self.entry.abbrevs.outer) (field_tree_of item.now)) }
        ensures types { IfOk result (λ r. map typed_of r.abbrevs.types ≡
            map typed_of self.entry.abbrevs.types
            ++ item_type (outer_of self.entry.abbrevs.outer) (field_tree_of item.now)) }
        ensures fields { IfOk result (λ r. map field_of r.fields ≡
            map field_of self.entry.fields ++ item_field (outer_of self.entry.abbrevs.outer)
            (field_tree_of
            item.now)) }
    {
        match item {
            SField::Abbrev(a) => self.with_abbrev(alloc, a),
            SField::Val(name, ty, body) => self.with_val(alloc, name, ty, body),
        }
    }

    fn with_abbrev(self, alloc: Global, a: &SAbbrev) -> Result<Items<'a>, Memory>
        ensures outer { IfOk result (λ r. outer_of r.abbrevs.outer ≡
            after_abbrev (outer_of self.entry.abbrevs.outer) (abbrev_of a.now)) }
        ensures types { IfOk result (λ r. map typed_of r.abbrevs.types ≡
            map typed_of self.entry.abbrevs.types
            ++ abbrev_type (outer_of self.entry.abbrevs.outer) (abbrev_of a.now)) }
        ensures fields { IfOk result (λ r. r.fields ≡ self.entry.fields) }
    {
        let Items { abbrevs, fields } = self;
        let abbrevs = abbrevs.with(alloc, a)?;
        Ok(Items { abbrevs, fields })
    }

    fn with_val(
        self,
        alloc: Global,
        name: &SName,
        ty: &SType,
        body: &SExpr,
    ) -> Result<Items<'a>, Memory>
        requires crowd { found crowd (outer_of self.abbrevs.outer) (tree_of body.now) ≡ None }
        requires few { length (outer_of self.abbrevs.outer).fields < 2 ^ 16 }
        ensures outer { IfOk result (λ r. outer_of r.abbrevs.outer ≡
            with_field (name_of name.now) (outer_of self.entry.abbrevs.outer)) }
        ensures types { IfOk result (λ r. r.abbrevs.types ≡ self.entry.abbrevs.types) }
        ensures fields { IfOk result (λ r. map field_of r.fields ≡ map field_of self.entry.fields
            ++ item_field (outer_of self.entry.abbrevs.outer)
            (ValField (name_of name.now) (type_tree_of ty.now) (tree_of body.now))) }
    {
        let field = field(alloc, name, ty, body, &self.abbrevs.outer)?;
        let Items { abbrevs, fields } = self;
        let fields = field_more(fields, field);
        let (fields, abbrevs) = both(fields, abbrevs.with_field(alloc, name))?;
        Ok(Items { abbrevs, fields })
    }

    // The types and the fields alone.
    fn into_contents(self) -> (Many<TyField>, Many<Field>)
        ensures types { result.0 ≡ self.entry.abbrevs.types }
        ensures fields { result.1 ≡ self.entry.fields }
    {
        let Items { abbrevs, fields } = self;
        (abbrevs.into_types(), fields)
    }
}

// These fields, and behind them this one.
fn field_more(fields: Many<Field>, field: Field) -> Result<Many<Field>, Memory>
    ensures { IfOk result (λ r. r ≡ fields ++ field ∷ []) }
{
    let mut fields = fields;
    fields.push(field)?;
    Ok(fields)
}

// A field of a struct.
fn field(
    alloc: Global,
    name: &SName,
    ty: &SType,
    body: &SExpr,
    outer: &Outer,
) -> Result<Field, Memory>
    requires { found crowd (outer_of outer.now) (tree_of body.now) ≡ None }
    ensures { IfOk result (λ f. field_of f ∷ [] ≡ item_field (outer_of outer.now)
        (ValField (name_of name.now) (type_tree_of ty.now) (tree_of body.now))) }
{
    let typed = both(name.word.copy(alloc), outer_ty(alloc, ty, outer));
    both(typed, outer_term(alloc, body, outer)).map(|((name, ty), term)| Field { name, ty, term })
}

/// The types and the fields of a struct.
pub fn contents(
    alloc: Global,
    front: &Front,
    trees: &[SField],
) -> Result<(Many<TyField>, Many<Field>), Memory>
    requires crowd { least_in after_field (found_in_field crowd) (front_of front.now)
        (map field_tree_of trees.now) ≡ None }
    requires few { length (each_in after_field item_field (front_of front.now)
        (map field_tree_of trees.now)) ≤ most_items }
    ensures types { IfOk result (λ r. map typed_of r.0 ≡
        each_in after_field item_type (front_of front.now) (map field_tree_of trees.now)) }
    ensures fields { IfOk result (λ r. map field_of r.1 ≡
        each_in after_field item_field (front_of front.now) (map field_tree_of trees.now)) }
{
    let mut found = Items {
        abbrevs: Abbrevs::new(alloc, front),
        fields: Many::new(alloc),
    };
    for tree in trees {
        let more = found.with(alloc, tree)?;
        found = more;
    }
    Ok(found.into_contents())
}
