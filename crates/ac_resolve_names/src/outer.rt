// What is in scope at a place.

ghost use Rattle.std.specs.Prelude.{◌≡◌, ◌<◌, ◌≤◌, ◌∷◌, [], length, map, None, option_and_then, option_map, unwrap_or, IfOk, IsTrue, ◌^◌};
ghost use Rattle.std.specs.List.{list_all};
ghost use Rattle.ac_types.specs.Types.{TUnit};
ghost use Rattle.ac_types.specs.ReadTypes.{typ_of};
ghost use Rattle.ac_terms.specs.Terms.{Unit', Var, Ref};
ghost use Rattle.ac_terms.specs.Read.{environment_of, expr_of};
ghost use Rattle.ac_syntax.specs.ReadTrees.{name_of};
ghost use Rattle.ac_resolve_scopes.specs.Scopes.{plain_type, dotted_type, plain_value, dotted_value, value_outside, before_dot, own_number, with_type_name, with_field, with_variables};
ghost use Rattle.ac_resolve_scopes.specs.Counts.{crowded};
ghost use Rattle.ac_resolve_names.specs.Entries.{keeps_name};

use crate::entries::{has_value, type_outside};
use crate::latest::Latest;
use crate::primitive::named;
use crate::variables::{Variables, number_of};
use ac_resolve_scopes::is_standard;
use ac_syntax::SName;
use ac_terms::{Env, Term};
use ac_types::{Memory, Ty, Word};
use std::alloc::Global;

/// The scope of a place but for its variables: what is in front of its definition, and the types
/// and the fields in front of it in its signature, struct or likespec.
#[derive(Drop)]
pub struct Outer<'a> {
    /// The entries in front, of which all but marks keep names.
    pub env: &'a Env,
    /// The numbers of those that are called by their names.
    pub externals: &'a Latest<u32>,
    /// The types with a plain name.
    pub types: Latest<Ty>,
    /// The fields.
    pub fields: Latest<()>,
    ghost named: { IsTrue (list_all keeps_name (environment_of env.now)) },
    ghost few: { length fields ≤ 2 ^ 16 },
}

#[tactic(auto, using(crate::proofs::OuterLaws::outer_laws), unfolding(crate::specs::Fronts::outer_of))]
impl<'a> Outer<'a> {
    ghost use Rattle.ac_resolve_scopes.specs.Scopes.{scope_behind};
    ghost use Rattle.ac_resolve_names.specs.Fronts.{outer_of};

    /// The scope at the front of a signature, a struct or a likespec.
    pub fn new(alloc: Global, env: &'a Env, externals: &'a Latest<u32>) -> Outer<'a>
        requires { IsTrue (list_all keeps_name (environment_of env.now)) }
        ensures { outer_of result ≡
            record (scope_behind (environment_of env.now)) { externals = externals.now } }
    {
        Outer {
            env,
            externals,
            types: Latest::new(alloc),
            fields: Latest::new(alloc),
        }
    }

    /// Behind a type.
    pub fn with_type(self, alloc: Global, name: &SName, ty: Ty) -> Result<Outer<'a>, Memory>
        ensures { IfOk result (λ o. outer_of o ≡
            with_type_name (name_of name.now) (typ_of ty) (outer_of self.entry)) }
    {
        let Outer {
            env,
            externals,
            types,
            fields,
        } = self;
        let types = types.with(alloc, &name.word, ty)?;
        Ok(Outer {
            env,
            externals,
            types,
            fields,
        })
    }

    /// Behind a field.
    pub fn with_field(self, alloc: Global, name: &SName) -> Result<Outer<'a>, Memory>
        requires { length (outer_of self).fields < 2 ^ 16 }
        ensures { IfOk result (λ o. outer_of o ≡ with_field (name_of name.now)
            (outer_of self.entry)) }
    {
        let Outer {
            env,
            externals,
            types,
            fields,
        } = self;
        let fields = fields.with(alloc, &name.word, ())?;
        Ok(Outer {
            env,
            externals,
            types,
            fields,
        })
    }

    /// What a type's name means, `None` exactly where it isn't in scope.
    pub fn plain_type(&self, alloc: Global, t: &Word) -> Result<Option<Ty>, Memory>
        ensures { IfOk result (λ o. option_map typ_of o ≡ plain_type (outer_of self.now) t.now) }
    {
        match self.types.find(t) {
            None => Ok(None),
            Some(ty) => ty.copy(alloc).map(Some),
        }
    }

    /// What a type's name behind a dot means, `None` exactly where it isn't in scope.
    pub fn dotted_type(&self, alloc: Global, m: &Word, t: &Word) -> Result<Option<Ty>, Memory>
        ensures { IfOk result (λ o. option_map typ_of o ≡ dotted_type (outer_of self.now) m.now
            t.now) }
    {
        if is_standard(m) {
            return Ok(None);
        }
        let Some(number) = self.externals.find(m) else {
            return Ok(None);
        };
        match self.env.entry(*number) {
            None => Ok(None),
            Some(entry) => type_outside(alloc, entry, t),
        }
    }

    /// What a name behind a dot means, `None` exactly where it isn't in scope.
    pub fn dotted_value(&self, alloc: Global, m: &Word, x: &Word) -> Result<Option<Term>, Memory>
        ensures { IfOk result (λ o. option_map expr_of o ≡
            dotted_value (outer_of self.now) m.now x.now) }
    {
        match named(m, x) {
            Some(primitive) => {
                let function = primitive.function(alloc)?;
                Ok(Some(function))
            }
            None => self.shown(alloc, m, x),
        }
    }

    // What a name behind that of an entry means.
    fn shown(&self, alloc: Global, m: &Word, x: &Word) -> Result<Option<Term>, Memory>
        ensures { IfOk result (λ o. option_map expr_of o ≡ option_and_then
            (value_outside (outer_of self.now).entries x.now)
            (before_dot (outer_of self.now) m.now)) }
    {
        match self.showing(m, x) {
            None => Ok(None),
            Some(number) => {
                let name = x.copy(alloc)?;
                Ok(Some(Term::Ref(number, name)))
            }
        }
    }

    // The entry that a name in front of a dot calls, where it shows the value behind it.
    fn showing(&self, m: &Word, x: &Word) -> Option<u32>
        ensures { option_map (λ j. Ref j x.now) result ≡
            option_and_then (value_outside (outer_of self.now).entries x.now) (before_dot
            (outer_of self.now) m.now) }
    {
        if is_standard(m) {
            return None;
        }
        let number = *self.externals.find(m)?;
        let entry = self.env.entry(number)?;
        if has_value(entry, x) {
            Some(number)
        } else {
            None
        }
    }

    /// The number of a field, `None` exactly where it isn't in scope.
    pub fn field(&self, x: &Word) -> Option<u16>
        ensures { result ≡ own_number x.now (outer_of self.now).fields }
    {
        let place = self.fields.place(x)?;
        Some(place as u16)
    }
}

/// The scope of a place.
#[derive(Drop)]
pub struct Scope<'a> {
    /// What is in scope but for variables.
    pub outer: &'a Outer<'a>,
    /// The variables.
    pub variables: Variables<'a>,
}

#[tactic(auto, using(crate::proofs::OuterLaws::scope_laws), unfolding(crate::specs::Fronts::scope_of, crate::specs::Fronts::outer_of))]
impl<'a> Scope<'a> {
    ghost use Rattle.ac_resolve_names.specs.Fronts.{outer_of, scope_of};

    /// Without variables.
    pub fn new(outer: &'a Outer<'a>) -> Scope<'a>
        ensures { scope_of result ≡ outer_of outer.now }
    {
        Scope {
            outer,
            variables: Variables::Empty,
        }
    }

    /// Behind one more variable.
    pub fn under(&'a self, name: &'a SName) -> Scope<'a>
        ensures { scope_of result ≡ with_variables (name_of name.now ∷ []) (scope_of self.now) }
    {
        Scope {
            outer: self.outer,
            variables: Variables::Inner(&self.variables, name),
        }
    }

    /// Behind the variables of a pattern, which are bound from left to right.
    pub fn in_arm(&'a self, names: &'a [SName]) -> Scope<'a>
        ensures { scope_of result ≡ with_variables (map name_of names.now) (scope_of self.now) }
    {
        Scope {
            outer: self.outer,
            variables: Variables::Arm(&self.variables, names),
        }
    }

    /// What a type's name means, `unit` where it isn't in scope.
    pub fn plain_type(&self, alloc: Global, t: &Word) -> Result<Ty, Memory>
        ensures { IfOk result (λ ty. typ_of ty ≡ unwrap_or (plain_type (scope_of self.now)
            t.now) TUnit) }
    {
        Ok(self.outer.plain_type(alloc, t)?.unwrap_or(Ty::Unit))
    }

    /// What a type's name behind a dot means, `unit` where it isn't in scope.
    pub fn dotted_type(&self, alloc: Global, m: &Word, t: &Word) -> Result<Ty, Memory>
        ensures { IfOk result (λ ty. typ_of ty ≡ unwrap_or (dotted_type (scope_of self.now)
            m.now t.now) TUnit) }
    {
        Ok(self.outer.dotted_type(alloc, m, t)?.unwrap_or(Ty::Unit))
    }

    /// What a name means, the newest variable where it isn't in scope.
    pub fn plain_value(&self, x: &Word) -> Term
        requires { crowded (scope_of self.now) ≡ None }
        ensures { expr_of result ≡ unwrap_or (plain_value (scope_of self.now) x.now) (Var 0) }
    {
        match number_of(&self.variables, x) {
            Some(number) => Term::Var(number),
            None => match self.outer.field(x) {
                Some(number) => Term::Own(number),
                None => Term::Var(0),
            },
        }
    }

    /// What a name behind a dot means, `()` where it isn't in scope.
    pub fn dotted_value(&self, alloc: Global, m: &Word, x: &Word) -> Result<Term, Memory>
        ensures { IfOk result (λ t. expr_of t ≡ unwrap_or (dotted_value (scope_of self.now)
            m.now x.now) Unit') }
    {
        Ok(self.outer.dotted_value(alloc, m, x)?.unwrap_or(Term::Unit))
    }
}
