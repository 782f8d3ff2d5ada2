// Whether the names of a list are distinct.

ghost use Rattle.std.specs.Prelude.{◌≡◌, map};
ghost use Rattle.std.specs.List.{list_any};
ghost use Rattle.ac_types.specs.Types.{Bytes, same_bytes};
ghost use Rattle.ac_types.specs.ReadTypes.{sig_of};
ghost use Rattle.ac_terms.specs.Read.{def_of_code};
ghost use Rattle.ac_rules.specs.Modules.{are_distinct, is_distinct_sig, has_distinct_names};

use ac_terms::{Def, Field};
use ac_types::{Sig, SigType, TyField, Word};

// What has a name.
trait Named {
    /// The name.
    ghost named: { Self → Bytes };

    fn name(&self) -> &Word
        ensures { result.now ≡ named self.now };
}

impl Named for SigType {
    ghost named = { λ x. x.name };

    fn name(&self) -> &Word {
        &self.name
    }
}

impl Named for TyField {
    ghost named = { λ x. x.name };

    fn name(&self) -> &Word {
        &self.name
    }
}

impl Named for Field {
    ghost named = { λ x. x.name };

    fn name(&self) -> &Word {
        &self.name
    }
}

// Whether one of them has the name.
fn has_name<T: Named>(xs: &[T], name: &Word) -> bool
    ensures { result ≡ list_any (same_bytes name.now) (map T.named xs.now) }
{
    for x in xs {
        if name.is(x.name()) {
            return true;
        }
    }
    false
}

fn are_distinct<T: Named>(xs: &[T]) -> bool
    ensures { result ≡ are_distinct (map T.named xs.now) }
{
    for i in 0..xs.len() {
        if has_name(&xs[i + 1..], xs[i].name()) {
            return false;
        }
    }
    true
}

#[tactic(auto, using(crate::proofs::NameLaws::list_names))]
fn is_distinct_sig(sig: &Sig) -> bool
    ensures { result ≡ is_distinct_sig (sig_of sig.now) }
{
    // `&`, not `&&`: one branch fewer in the proof
    are_distinct(sig.types.as_slice()) & are_distinct(sig.vals.as_slice())
}

/// Whether the names in each list of a definition are distinct.
#[tactic(auto, using(crate::proofs::NameLaws::list_names))]
pub fn has_distinct_names(def: &Def) -> bool
    ensures { result ≡ has_distinct_names (def_of_code def.now) }
{
    // `&`, not `&&`, between parts: one branch fewer in the proof of each arm
    match def {
        Def::Module(m) => {
            is_distinct_sig(&m.sig)
                & (are_distinct(m.types.as_slice()) & are_distinct(m.fields.as_slice()))
        }
        Def::Import(i) => is_distinct_sig(&i.sig) & are_distinct(i.like.as_slice()),
        Def::Mark(_) => true,
    }
}
