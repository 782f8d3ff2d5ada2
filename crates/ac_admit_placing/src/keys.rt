// The bytes by which definitions with their links are looked up.

ghost use Rattle.std.specs.Prelude.{◌≡◌, ◌++◌, ℕ, IfOk, OnOk};
ghost use Rattle.ac_types.specs.Types.{Bytes};
ghost use Rattle.ac_terms.specs.Spelling.{type_bytes, four_written};
ghost use Rattle.ac_terms.specs.Read.{def_of_code};
ghost use Rattle.ac_rules.specs.Packets.{wide_bytes};
ghost use Rattle.ac_admit_placing.specs.inner.Keys.{link_bytes, key_bytes};

use ac_bytes::Out;
use ac_canon::{Spelling, put_import, put_module, put_resolves, put_type};
use ac_terms::Def;
use ac_types::{Memory, Text, Ty};
use std::alloc::Global;

// The spelling with references of four bytes.
#[derive(Clone, Copy)]
struct Wide;

impl Spelling for Wide {
    ghost spelled_type = { λ _ T. type_bytes T };

    ghost spelled_reference = { λ _ j. four_written j };

    fn put_type(&self, out: &mut Out, ty: &Ty) -> Result<(), Memory> {
        put_type(out, ty)
    }

    fn put_reference(&self, out: &mut Out, entry: u32) -> Result<(), Memory> {
        out.put_u32(entry)
    }
}

// Puts a definition with references of four bytes.
#[tactic(auto, using(ac_canon::proofs::Lists::lists))]
fn put_def(out: &mut Out, def: &Def) -> Result<(), Memory>
    ensures { OnOk result (out.new ≡ out.old ++ wide_bytes (def_of_code def.now)) }
{
    match def {
        Def::Module(m) => put_module(out, &Wide, m),
        Def::Import(i) => {
            put_import(out, &Wide, i)?;
            put_resolves(out, i.by.as_slice())
        }
        Def::Mark(_) => Ok(()),
    }
}

// Puts a link.
#[tactic(auto, using(ac_canon::proofs::Lists::lists))]
fn put_link(out: &mut Out, link: Option<u32>) -> Result<(), Memory>
    ensures { OnOk result (out.new ≡ out.old ++ link_bytes link) }
{
    match link {
        None => out.put_u8(0),
        Some(j) => {
            out.put_u8(1)?;
            out.put_u32(j)
        }
    }
}

/// The key of a definition with its link.
#[tactic(auto, using(ac_canon::proofs::Lists::lists))]
pub fn key_of(alloc: Global, def: &Def, link: Option<u32>) -> Result<Vec<u8>, Memory>
    ensures { IfOk result (λ k. k.items ≡ key_bytes (def_of_code def.now) link) }
{
    let mut out = Out::new(alloc);
    put_link(&mut out, link)?;
    put_def(&mut out, def)?;
    Ok(out.into_text().into_bytes().into_vec())
}
