// How large a type is as a home sees it, without writing it out.

ghost use Rattle.std.specs.Prelude.{◌≡◌, ◌<◌, ◌^◌, MatchOption, length};
ghost use Rattle.ac_types.specs.Types.{is_small, node_count, height, parts_of_all, height_of_all};
ghost use Rattle.ac_types.specs.ReadTypes.{typ_of};
ghost use Rattle.ac_types.specs.inner.Size.{Exceeds, FitsSize};
ghost use Rattle.ac_check_views.specs.inner.Sizes.{from_home, all_from_home};

use crate::opened::opened;
use crate::site::Site;
use ac_types::limits::{HIGHEST_TYPE, MOST_TYPE_PARTS};
use ac_types::{Ty, spend};

// What is left of a number of parts after those of a type as the site's home sees it, which may
// have a height of `depth`.
#[cycle(spend_here)]
#[tactic(auto, using(ac_types::proofs::SizeLaws::size_laws))]
fn spend_here<'a>(ty: &'a Ty, site: &'a Site<'a>, left: u32, depth: u32) -> Option<u32>
    requires { length site.now.env.now.entries < 2 ^ 32 }
    ensures { MatchOption result (Exceeds left depth (node_count
        (from_home site.now (typ_of ty.now)))
        (height (from_home site.now (typ_of ty.now)))) (λ rest. FitsSize left depth
        (node_count (from_home site.now (typ_of ty.now)))
        (height (from_home site.now (typ_of ty.now)))
        rest) }
{
    if let Ty::Abs(name, word) = ty {
        return match opened(site, name, word) {
            None => spend(ty, left, depth),
            Some(found) => spend(found, left, depth),
        };
    }
    if left == 0 || depth == 0 {
        return None;
    }
    let left = left - 1;
    let depth = depth - 1;
    match ty {
        Ty::Tuple(parts) => spend_all_here(parts.as_slice(), site, left, depth),
        Ty::List(item) => spend_here(item, site, left, depth),
        Ty::Opt(item) => spend_here(item, site, left, depth),
        Ty::Fun(from, to) => {
            let left = spend_here(from, site, left, depth)?;
            spend_here(to, site, left, depth)
        }
        _ => Some(left),
    }
}

#[cycle(spend_here)]
fn spend_all_here<'a>(tys: &'a [Ty], site: &'a Site<'a>, left: u32, depth: u32) -> Option<u32>
    requires { length site.now.env.now.entries < 2 ^ 32 }
    ensures { MatchOption result (Exceeds left depth (parts_of_all (all_from_home site.now tys.now))
        (height_of_all (all_from_home site.now tys.now))) (λ rest. FitsSize left depth
        (parts_of_all (all_from_home site.now tys.now))
        (height_of_all (all_from_home site.now tys.now)) rest) }
{
    let mut left = left;
    for ty in tys {
        left = spend_here(ty, site, left, depth)?;
    }
    Some(left)
}

/// Whether a type as the site's home sees it is within the limits of parts and height.
#[tactic(auto, using(ac_types::proofs::SizeLaws::small_laws))]
pub fn is_small_here<'a>(ty: &'a Ty, site: &'a Site<'a>) -> bool
    requires { length site.now.env.now.entries < 2 ^ 32 }
    ensures { result ≡ is_small (from_home site.now (typ_of ty.now)) }
{
    spend_here(ty, site, MOST_TYPE_PARTS, HIGHEST_TYPE).is_some()
}
