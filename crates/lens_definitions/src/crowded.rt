// The first place at which a count passes its limit.

use crate::trees::{name_of_tree, place_of, signature_of_tree};
use ac_resolve_signatures::{
    Externals, Scan, entries_in_front, put_outside, shown_sig, type_flaws, walk_abbrev,
};
use ac_syntax::{
    SAbbrev, SArm, SDef, SDefKind, SExpr, SExprKind, SField, SFun, SPat, SPatKind, SSpec, SType,
    Surface,
};
use ac_terms::Entry;
use ac_text::Page;
use ac_types::limits::{
    HIGHEST_TYPE, LONGEST_URI, MOST_ARMS, MOST_DEFINITIONS, MOST_ITEMS, MOST_RESOLVES,
    MOST_TYPE_PARTS, MOST_VARIABLES, WIDEST_TUPLE,
};
use ac_types::{Memory, Resolve};
use lens_say::Message;
use std::alloc::Global;
use std::collections::BTreeMap;

// A look for a count of one more than its limit.
#[derive(Drop)]
struct Look<'s, 'e, 'a> {
    scan: &'s Scan<'e, 'a>,
    count: u32,
}

// Whether so many pass this limit, which is one less than the count that is looked for.
fn passes(count: u32, limit: u32, found: usize) -> bool {
    limit.saturating_add(1) == count && found > limit as usize
}

// How many variables a pattern binds.
#[cycle(bound)]
fn bound(pat: &SPat) -> u32 {
    match &pat.kind {
        SPatKind::Var(_, _) => 1,
        SPatKind::Tuple(parts) => bound_by_all(parts.as_slice()),
        SPatKind::Cons(head, tail) => bound(head).saturating_add(bound(tail)),
        SPatKind::Present(inner) | SPatKind::ExnOf(_, inner) => bound(inner),
        _ => 0,
    }
}

#[cycle(bound)]
fn bound_by_all(pats: &[SPat]) -> u32 {
    let mut count = 0u32;
    for pat in pats {
        count = count.saturating_add(bound(pat));
    }
    count
}

impl<'a> Look<'_, '_, 'a> {
    fn passes(&self, limit: u32, found: usize) -> bool {
        passes(self.count, limit, found)
    }

    fn in_type(&self, ty: &'a SType) -> Option<u32> {
        if type_flaws(ty, self.scan).count == Some(self.count) {
            Some(ty.at)
        } else {
            None
        }
    }
}

#[cycle(pattern)]
fn in_pattern<'a>(look: &Look<'_, '_, 'a>, pat: &'a SPat) -> Option<u32> {
    match &pat.kind {
        SPatKind::Var(_, ty) => look.in_type(ty),
        SPatKind::Tuple(parts) => {
            if look.passes(u32::from(WIDEST_TUPLE), parts.len()) {
                return Some(pat.at);
            }
            in_patterns(look, parts.as_slice())
        }
        SPatKind::Cons(head, tail) => in_pattern(look, head).or(in_pattern(look, tail)),
        SPatKind::Present(inner) | SPatKind::ExnOf(_, inner) => in_pattern(look, inner),
        _ => None,
    }
}

#[cycle(pattern)]
fn in_patterns<'a>(look: &Look<'_, '_, 'a>, pats: &'a [SPat]) -> Option<u32> {
    for pat in pats {
        if let Some(at) = in_pattern(look, pat) {
            return Some(at);
        }
    }
    None
}

#[cycle(expression)]
fn in_all<'a>(look: &Look<'_, '_, 'a>, variables: u32, trees: &'a [SExpr]) -> Option<u32> {
    for tree in trees {
        if let Some(at) = in_expression(look, variables, tree) {
            return Some(at);
        }
    }
    None
}

#[cycle(expression)]
fn in_arms<'a>(look: &Look<'_, '_, 'a>, variables: u32, arms: &'a [SArm]) -> Option<u32> {
    for arm in arms {
        if let Some(at) = in_pattern(look, &arm.pat) {
            return Some(at);
        }
        let variables = variables.saturating_add(bound(&arm.pat));
        if look.passes(MOST_VARIABLES, variables as usize) {
            return Some(arm.pat.at);
        }
        if let Some(at) = in_expression(look, variables, &arm.body) {
            return Some(at);
        }
    }
    None
}

// In a function with a name, whose body sees both.
#[cycle(expression)]
fn in_function<'a>(look: &Look<'_, '_, 'a>, variables: u32, fun: &'a SFun) -> Option<u32> {
    if let Some(at) = look.in_type(&fun.ty).or(look.in_type(&fun.result)) {
        return Some(at);
    }
    let variables = variables.saturating_add(2);
    if look.passes(MOST_VARIABLES, variables as usize) {
        return Some(fun.arg.at);
    }
    in_expression(look, variables, &fun.body)
}

// In a form that binds variables.
#[cycle(expression)]
fn in_binder<'a>(look: &Look<'_, '_, 'a>, variables: u32, tree: &'a SExpr) -> Option<u32> {
    let more = variables.saturating_add(1);
    let is_crowded = look.passes(MOST_VARIABLES, more as usize);
    match &tree.kind {
        SExprKind::Fun(name, ty, body) => {
            if let Some(at) = look.in_type(ty) {
                return Some(at);
            }
            if is_crowded {
                return Some(name.at);
            }
            in_expression(look, more, body)
        }
        SExprKind::Rec(fun) => in_function(look, variables, fun),
        SExprKind::Let(name, ty, bound, body) => {
            if let Some(at) = look.in_type(ty) {
                return Some(at);
            }
            if let Some(at) = in_expression(look, variables, bound) {
                return Some(at);
            }
            if is_crowded {
                return Some(name.at);
            }
            in_expression(look, more, body)
        }
        SExprKind::LetRec(fun, body) => {
            if let Some(at) = in_function(look, variables, fun) {
                return Some(at);
            }
            in_expression(look, more, body)
        }
        SExprKind::Match(inner, arms) | SExprKind::Try(inner, arms) => {
            if look.passes(u32::from(MOST_ARMS), arms.len()) {
                return Some(tree.at);
            }
            if let Some(at) = in_expression(look, variables, inner) {
                return Some(at);
            }
            in_arms(look, variables, arms.as_slice())
        }
        _ => None,
    }
}

// In an expression with so many variables in scope.
#[cycle(expression)]
fn in_expression<'a>(look: &Look<'_, '_, 'a>, variables: u32, tree: &'a SExpr) -> Option<u32> {
    match &tree.kind {
        SExprKind::Tuple(parts) => {
            if look.passes(u32::from(WIDEST_TUPLE), parts.len()) {
                return Some(tree.at);
            }
            in_all(look, variables, parts.as_slice())
        }
        SExprKind::Seq(parts) | SExprKind::Op(_, parts) => {
            in_all(look, variables, parts.as_slice())
        }
        SExprKind::Nil(ty) | SExprKind::Absent(ty) => look.in_type(ty),
        SExprKind::ExnOf(_, a) | SExprKind::Present(a) => in_expression(look, variables, a),
        SExprKind::Raise(a, ty) | SExprKind::Unmarshal(a, ty) => {
            look.in_type(ty).or(in_expression(look, variables, a))
        }
        SExprKind::Marshal(a, b, ty) => {
            let inner = in_expression(look, variables, a).or(in_expression(look, variables, b));
            look.in_type(ty).or(inner)
        }
        SExprKind::Cons(a, b) | SExprKind::App(a, b) | SExprKind::And(a, b) | SExprKind::Or(a, b) =>
            { in_expression(look, variables, a).or(in_expression(look, variables, b)) }
        SExprKind::If(a, b, c) => {
            let front = in_expression(look, variables, a).or(in_expression(look, variables, b));
            front.or(in_expression(look, variables, c))
        }
        _ => in_binder(look, variables, tree),
    }
}

// How many steps halve any list away.
const HALVINGS: usize = 64;

fn is_crowded<'a>(
    alloc: Global,
    externals: &Externals<'a>,
    specs: &'a [SSpec],
    count: u32,
) -> Result<bool, Memory> {
    match shown_sig(alloc, externals, specs) {
        Ok(shown) => {
            let found = shown.flaws.count;
            drop(shown);
            Ok(found == Some(count))
        }
        Err(memory) => Err(memory),
    }
}

fn place_of_spec(spec: &SSpec) -> u32 {
    match spec {
        SSpec::Abstract(name) | SSpec::Val(name, _) => name.at,
        SSpec::Manifest(alias) => alias.name.at,
    }
}

// The place of the first spec of a signature with which a count passes its limit.
fn in_signature<'a>(
    alloc: Global,
    externals: &Externals<'a>,
    specs: &'a [SSpec],
    count: u32,
) -> Result<Option<u32>, Memory> {
    if !is_crowded(alloc, externals, specs, count)? {
        return Ok(None);
    }
    let (mut low, mut high) = (0usize, specs.len());
    for _ in 0..HALVINGS {
        if low < high {
            let middle = low + (high - low) / 2;
            let front = specs.get(..middle).unwrap_or(specs);
            if is_crowded(alloc, externals, front, count)? {
                high = middle;
            } else {
                low = middle + 1;
            }
        }
    }
    Ok(specs.get(high.saturating_sub(1)).map(place_of_spec))
}

// Where the types or the values of a struct pass their limit.
fn in_numbers(fields: &[SField], count: u32) -> Option<u32> {
    let (mut types, mut values) = (0usize, 0usize);
    for field in fields {
        let at = match field {
            SField::Abbrev(alias) => {
                types = types.saturating_add(1);
                alias.name.at
            }
            SField::Val(name, _, _) => {
                values = values.saturating_add(1);
                name.at
            }
        };
        if passes(count, u32::from(MOST_ITEMS), types.max(values)) {
            return Some(at);
        }
    }
    None
}

fn in_fields<'a>(
    alloc: Global,
    externals: &Externals<'a>,
    fields: &'a [SField],
    count: u32,
) -> Result<Option<u32>, Memory> {
    let mut scan = Scan::new(alloc, externals);
    for field in fields {
        match field {
            SField::Abbrev(alias) => {
                if walk_abbrev(&mut scan, alias)?.count == Some(count) {
                    return Ok(Some(alias.name.at));
                }
            }
            SField::Val(name, ty, body) => {
                let look = Look { scan: &scan, count };
                if let Some(at) = look.in_type(ty).or(in_expression(&look, 0, body)) {
                    return Ok(Some(at));
                }
                scan.put_field(&name.word)?;
            }
        }
    }
    Ok(None)
}

fn in_like<'a>(
    alloc: Global,
    externals: &Externals<'a>,
    like: &'a [SAbbrev],
    count: u32,
) -> Result<Option<u32>, Memory> {
    let mut scan = Scan::new(alloc, externals);
    let mut number = 0usize;
    for alias in like {
        number = number.saturating_add(1);
        let is_large = walk_abbrev(&mut scan, alias)?.count == Some(count);
        if is_large || passes(count, u32::from(MOST_ITEMS), number) {
            return Ok(Some(alias.name.at));
        }
    }
    Ok(None)
}

fn is_crowded_by(by: &[Resolve], count: u32) -> bool {
    for atom in by {
        if let Resolve::Uri(uri) = atom
            && passes(count, LONGEST_URI, uri.as_slice().len())
        {
            return true;
        }
    }
    passes(count, u32::from(MOST_RESOLVES), by.len())
}

// In a definition behind these.
fn in_definition<'a>(
    alloc: Global,
    externals: &Externals<'a>,
    def: &'a SDef,
    count: u32,
) -> Result<Option<u32>, Memory> {
    if let Some(sig) = signature_of_tree(def)
        && let Some(at) = in_signature(alloc, externals, sig.specs.as_slice(), count)?
    {
        return Ok(Some(at));
    }
    match &def.kind {
        SDefKind::Module {
            name: _,
            sig: _,
            version: _,
            fields,
        } => match in_numbers(fields.as_slice(), count) {
            Some(at) => Ok(Some(at)),
            None => in_fields(alloc, externals, fields.as_slice(), count),
        },
        SDefKind::Import {
            name,
            sig: _,
            wants: _,
            like,
            by,
        } => {
            if is_crowded_by(by.as_slice(), count) {
                return Ok(Some(name.at));
            }
            match like {
                Some(like) => in_like(alloc, externals, like.as_slice(), count),
                None => Ok(None),
            }
        }
        SDefKind::Mark {
            text_at: _,
            text: _,
        } => Ok(None),
    }
}

// Puts what a definition shows behind its name.
fn put_shown<'a>(
    alloc: Global,
    externals: &mut Externals<'a>,
    def: &'a SDef,
) -> Result<(), Memory> {
    if let (Some(name), Some(sig)) = (name_of_tree(def), signature_of_tree(def)) {
        let shown = shown_sig(alloc, externals, sig.specs.as_slice())?;
        put_outside(externals, &name.word, shown.outside)?;
    }
    Ok(())
}

// The first place in the definitions of a text, and in its expression.
fn place_in<'a>(
    alloc: Global,
    front: Externals<'a>,
    surface: &'a Surface,
    count: u32,
) -> Result<Option<u32>, Memory> {
    let defs = surface.defs.as_slice();
    if passes(count, MOST_DEFINITIONS, defs.len())
        && let Some(def) = defs.get(MOST_DEFINITIONS as usize)
    {
        return Ok(Some(place_of(def)));
    }
    let mut externals = front;
    for def in defs {
        if let Some(at) = in_definition(alloc, &externals, def, count)? {
            return Ok(Some(at));
        }
        put_shown(alloc, &mut externals, def)?;
    }
    match &surface.expr {
        None => Ok(None),
        Some(tree) => {
            let scan = Scan::new(alloc, &externals);
            let look = Look { scan: &scan, count };
            Ok(in_expression(&look, 0, tree))
        }
    }
}

// Adds which limits are one less than a count.
fn write_limits(page: &mut Page, count: u32) {
    let limits: &[(u32, &[u8])] = &[
        (u32::from(WIDEST_TUPLE), b"parts of a tuple"),
        (u32::from(MOST_RESOLVES), b"places behind `by`"),
        (
            HIGHEST_TYPE,
            b"the height of a type, with abbreviations written out",
        ),
        (
            u32::from(MOST_ITEMS),
            b"types, and values, of a signature, a struct or a likespec",
        ),
        (u32::from(MOST_ARMS), b"arms of a `match` or a `try`"),
        (LONGEST_URI, b"bytes of a URI"),
        (
            MOST_TYPE_PARTS,
            b"parts of a type, with abbreviations written out",
        ),
        (MOST_DEFINITIONS, b"definitions of a program"),
        (MOST_VARIABLES, b"variables in scope"),
    ];
    for (limit, what) in limits {
        if limit.saturating_add(1) == count {
            page.put(b"  at most ");
            page.number(u64::from(*limit));
            page.put(b": ");
            page.put(what);
            page.put(b"\n");
        }
    }
}

/// What is said of a text in which a count passes its limit, which is one less than this. A module by
/// itself sees the entries in front of it.
pub fn why_too_many(
    alloc: Global,
    surface: &Surface,
    entries: &[Entry],
    count: u32,
) -> Result<Message, Memory> {
    let front = match &surface.expr {
        None => entries_in_front(alloc, entries)?,
        Some(_) => BTreeMap::new(alloc),
    };
    let at = place_in(alloc, front, surface, count)?.unwrap_or(0);
    let mut message = Message::saying(alloc, at, b"more stand here than may");
    write_limits(&mut message.more, count);
    Ok(message)
}
