// The least of two numbers that may be there.

ghost use Rattle.std.specs.Prelude.{◌≡◌};
ghost use Rattle.ac_resolve_scopes.specs.Searches.{least};

/// The least of what is there.
pub fn least(a: Option<u32>, b: Option<u32>) -> Option<u32>
    ensures { result ≡ least a b }
{
    match (a, b) {
        (None, b) => b,
        (Some(a), None) => Some(a),
        (Some(a), Some(b)) => Some(a.min(b)),
    }
}
