// Types with names: abbreviations, and the specs of signatures.

ghost use Rattle.std.specs.Prelude.{◌≡◌, ◌∷◌, ◌++◌, ◌<◌, [], length, map, None, Some, IfOk, ◌^◌};
ghost use Rattle.ac_types.specs.Types.{TMine};
ghost use Rattle.ac_types.specs.ReadTypes.{typ_of, typed_of, sig_type_of, sig_of};
ghost use Rattle.ac_syntax.specs.ReadTrees.{name_of, type_tree_of, abbrev_of, abbrevs_of, spec_of, sig_tree_of};
ghost use Rattle.ac_syntax.specs.Trees.{AbstractSpec, ManifestSpec, ValSpec};
ghost use Rattle.ac_resolve_scopes.specs.Scopes.{with_type_name, with_field, each_in};
ghost use Rattle.ac_resolve_scopes.specs.Written.{type_in};
ghost use Rattle.ac_resolve_scopes.specs.Definitions.{after_abbrev, after_spec, abbrev_type, spec_type, spec_value, signature_in};
ghost use Rattle.ac_resolve_names.specs.Fronts.{front_of, outer_of};

use ac_resolve_names::{Front, Outer, Scope, ty};
use ac_syntax::{SAbbrev, SName, SSig, SSpec, SType};
use ac_types::{Many, Memory, Sig, SigType, Ty, TyField, Word, both};
use std::alloc::Global;

/// A type where no variables are in scope.
pub fn outer_ty(alloc: Global, tree: &SType, outer: &Outer) -> Result<Ty, Memory>
    ensures { IfOk result (λ t. typ_of t ≡ type_in (outer_of outer.now) (type_tree_of tree.now)) }
{
    let scope = Scope::new(outer);
    ty(alloc, tree, &scope)
}

/// The types of some abbreviations, and the scope behind them.
pub struct Abbrevs<'a> {
    /// The scope.
    pub outer: Outer<'a>,
    /// The types.
    pub types: Many<TyField>,
}

impl<'a> Drop for Abbrevs<'a> {
    fn drop(self) {
        let Abbrevs { outer: _, types: _ } = self;
    }
}

impl<'a> Abbrevs<'a> {
    /// None yet.
    pub fn new(alloc: Global, front: &'a Front) -> Abbrevs<'a>
        ensures outer { outer_of result.outer ≡ front_of front.now }
        ensures fields { (outer_of result.outer).fields ≡ [] }
        ensures types { result.types ≡ [] }
    {
        Abbrevs {
            outer: front.outer(alloc),
            types: Many::new(alloc),
        }
    }

    /// With one more.
    pub fn with(self, alloc: Global, a: &SAbbrev) -> Result<Abbrevs<'a>, Memory>
        ensures outer { IfOk result (λ r. outer_of r.outer ≡
            after_abbrev (outer_of self.entry.outer) (abbrev_of a.now)) }
        ensures types { IfOk result (λ r. map typed_of r.types ≡
            map typed_of self.entry.types ++ abbrev_type (outer_of self.entry.outer)
            (abbrev_of a.now)) }
    {
        let ty = outer_ty(alloc, &a.ty, &self.outer)?;
        let Abbrevs { outer, types } = self;
        let types = typed_more(alloc, types, &a.name.word, &ty);
        let (types, outer) = both(types, outer.with_type(alloc, &a.name, ty))?;
        Ok(Abbrevs { outer, types })
    }

    /// With one more field in scope.
    pub fn with_field(self, alloc: Global, name: &SName) -> Result<Abbrevs<'a>, Memory>
        requires { length (outer_of self.outer).fields < 2 ^ 16 }
        ensures outer { IfOk result (λ r. outer_of r.outer ≡
            with_field (name_of name.now) (outer_of self.entry.outer)) }
        ensures types { IfOk result (λ r. r.types ≡ self.entry.types) }
    {
        let Abbrevs { outer, types } = self;
        let outer = outer.with_field(alloc, name)?;
        Ok(Abbrevs { outer, types })
    }

    /// The types alone.
    pub fn into_types(self) -> Many<TyField>
        ensures { result ≡ self.entry.types }
    {
        let Abbrevs { outer, types } = self;
        drop(outer);
        types
    }
}

// These types, and behind them a copy of this one with its name.
fn typed_more(
    alloc: Global,
    types: Many<TyField>,
    name: &Word,
    ty: &Ty,
) -> Result<Many<TyField>, Memory>
    ensures { IfOk result (λ r. map typed_of r ≡ map typed_of types
        ++ record { name = name.now; ty = typ_of ty.now } ∷ []) }
{
    let mut types = types;
    let typed = both(name.copy(alloc), ty.copy(alloc)).map(|(name, ty)| TyField { name, ty })?;
    types.push(typed)?;
    Ok(types)
}

/// The types of a likespec.
pub fn like(alloc: Global, front: &Front, abbrevs: &[SAbbrev]) -> Result<Many<TyField>, Memory>
    ensures { IfOk result (λ types. map typed_of types ≡
        each_in after_abbrev abbrev_type (front_of front.now) (abbrevs_of abbrevs.now)) }
{
    let mut found = Abbrevs::new(alloc, front);
    for a in abbrevs {
        let more = found.with(alloc, a)?;
        found = more;
    }
    Ok(found.into_types())
}

// The first specs of a signature, and the scope behind them.
struct Specs<'a> {
    outer: Outer<'a>,
    types: Many<SigType>,
    vals: Many<TyField>,
}

impl<'a> Drop for Specs<'a> {
    fn drop(self) {
        let Specs {
            outer: _,
            types: _,
            vals: _,
        } = self;
    }
}

impl<'a> Specs<'a> {
    // With one more.
    fn with(self, alloc: Global, spec: &SSpec) -> Result<Specs<'a>, Memory>
        ensures outer { IfOk result (λ r. outer_of r.outer ≡
            after_spec (outer_of self.entry.outer) (spec_of spec.now)) }
        ensures types { IfOk result (λ r. map sig_type_of r.types ≡
            map sig_type_of self.entry.types ++ spec_type (outer_of self.entry.outer)
            (spec_of spec.now)) }
        ensures vals { IfOk result (λ r. map typed_of r.vals ≡
            map typed_of self.entry.vals ++ spec_value (outer_of self.entry.outer)
            (spec_of spec.now)) }
    {
        match spec {
            SSpec::Abstract(name) => self.with_abstract(alloc, name),
            SSpec::Manifest(a) => self.with_manifest(alloc, a),
            SSpec::Val(name, tree) => self.with_val(alloc, name, tree),
        }
    }

    fn with_abstract(self, alloc: Global, name: &SName) -> Result<Specs<'a>, Memory>
        ensures outer { IfOk result (λ r. outer_of r.outer ≡
            after_spec (outer_of self.entry.outer) (AbstractSpec (name_of name.now))) }
        ensures types { IfOk result (λ r. map sig_type_of r.types ≡ map sig_type_of self.entry.types
            ++ spec_type (outer_of self.entry.outer) (AbstractSpec (name_of name.now))) }
        ensures vals { IfOk result (λ r. r.vals ≡ self.entry.vals) }
    {
        let Specs { outer, types, vals } = self;
        let types = abstract_more(alloc, types, &name.word);
        let (types, outer) = both(types, with_own(alloc, outer, name))?;
        Ok(Specs { outer, types, vals })
    }

    fn with_manifest(self, alloc: Global, a: &SAbbrev) -> Result<Specs<'a>, Memory>
        ensures outer { IfOk result (λ r. outer_of r.outer ≡
            after_spec (outer_of self.entry.outer) (ManifestSpec (abbrev_of a.now))) }
        ensures types { IfOk result (λ r. map sig_type_of r.types ≡ map sig_type_of self.entry.types
            ++ spec_type (outer_of self.entry.outer) (ManifestSpec (abbrev_of a.now))) }
        ensures vals { IfOk result (λ r. r.vals ≡ self.entry.vals) }
    {
        let ty = outer_ty(alloc, &a.ty, &self.outer)?;
        let Specs { outer, types, vals } = self;
        let types = manifest_more(alloc, types, &a.name.word, &ty);
        let (types, outer) = both(types, outer.with_type(alloc, &a.name, ty))?;
        Ok(Specs { outer, types, vals })
    }

    fn with_val(self, alloc: Global, name: &SName, tree: &SType) -> Result<Specs<'a>, Memory>
        ensures outer { IfOk result (λ r. outer_of r.outer ≡ outer_of self.entry.outer) }
        ensures types { IfOk result (λ r. r.types ≡ self.entry.types) }
        ensures vals { IfOk result (λ r. map typed_of r.vals ≡ map typed_of self.entry.vals
            ++ spec_value (outer_of self.entry.outer)
            (ValSpec (name_of name.now) (type_tree_of tree.now))) }
    {
        let mut specs = self;
        let (name, ty) = both(name.word.copy(alloc), outer_ty(alloc, tree, &specs.outer))?;
        specs.vals.push(TyField { name, ty })?;
        Ok(specs)
    }

    // The signature of them.
    fn into_sig(self) -> Sig
        ensures { result ≡ record { types = self.entry.types; vals = self.entry.vals } }
    {
        let Specs { outer, types, vals } = self;
        drop(outer);
        Sig { types, vals }
    }
}

// These types, and behind them an abstract one.
fn abstract_more(alloc: Global, types: Many<SigType>, name: &Word) -> Result<Many<SigType>, Memory>
    ensures { IfOk result (λ r. map sig_type_of r ≡ map sig_type_of types
        ++ record { name = name.now; manifest = None } ∷ []) }
{
    let mut types = types;
    let name = name.copy(alloc)?;
    types.push(SigType {
        name,
        manifest: None,
    })?;
    Ok(types)
}

// These types, and behind them one that is known to be a copy of this.
fn manifest_more(
    alloc: Global,
    types: Many<SigType>,
    name: &Word,
    ty: &Ty,
) -> Result<Many<SigType>, Memory>
    ensures { IfOk result (λ r. map sig_type_of r ≡ map sig_type_of types
        ++ record { name = name.now; manifest = Some (typ_of ty.now) } ∷ []) }
{
    let mut types = types;
    let known = both(name.copy(alloc), ty.copy(alloc)).map(|(name, ty)| SigType {
        name,
        manifest: Some(ty),
    })?;
    types.push(known)?;
    Ok(types)
}

// The scope behind an abstract type of a signature.
#[tactic(auto, using(ac_types::proofs::SizeLaws::type_laws))]
fn with_own<'a>(alloc: Global, outer: Outer<'a>, name: &SName) -> Result<Outer<'a>, Memory>
    ensures { IfOk result (λ o. outer_of o ≡ with_type_name (name_of name.now)
        (TMine (name_of name.now).word) (outer_of outer.entry)) }
{
    let own = name.word.copy(alloc).map(Ty::Mine)?;
    outer.with_type(alloc, name, own)
}

/// The signature that a tree writes.
pub fn signature(alloc: Global, front: &Front, tree: &SSig) -> Result<Sig, Memory>
    ensures { IfOk result (λ s. sig_of s ≡ signature_in (front_of front.now) (sig_tree_of
        tree.now)) }
{
    let specs = tree.specs.as_slice();
    let mut found = Specs {
        outer: front.outer(alloc),
        types: Many::new(alloc),
        vals: Many::new(alloc),
    };
    for spec in specs {
        let more = found.with(alloc, spec)?;
        found = more;
    }
    Ok(found.into_sig())
}
