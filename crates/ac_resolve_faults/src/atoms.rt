// Resolvespecs.

ghost use Rattle.std.specs.Prelude.{◌≡◌, map};
ghost use Rattle.ac_types.specs.ReadTypes.{resolve_of};
ghost use Rattle.ac_resolve_scopes.specs.Counts.{many_atoms, long_uri};
ghost use Rattle.ac_resolve_signatures.specs.Joined.{counts};

use ac_resolve_signatures::Flaws;
use ac_types::Resolve;
use ac_types::limits::{LONGEST_URI, MOST_RESOLVES};

/// What is wrong with the atoms of a resolvespec.
pub fn atom_flaws(by: &[Resolve]) -> Flaws
    ensures { result ≡ counts (many_atoms (map resolve_of by.now)) }
{
    let mut found = Flaws::counted(MOST_RESOLVES as u32, by.len());
    for resolve in by {
        let here = uri_flaws(resolve);
        found = found.join(here);
    }
    found
}

fn uri_flaws(resolve: &Resolve) -> Flaws
    ensures { result ≡ counts (long_uri (resolve_of resolve.now)) }
{
    match resolve {
        Resolve::StaticLink => Flaws::none(),
        Resolve::HereAlready => Flaws::none(),
        Resolve::Uri(uri) => Flaws::counted(LONGEST_URI, uri.as_slice().len()),
    }
}
