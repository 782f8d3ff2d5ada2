// The entries that the definitions of a packet take.

ghost use Rattle.std.specs.Prelude.{◌≡◌, ◌<◌, ◌≤◌, ◌+◌, ◌^◌, ◌++◌, ◌∷◌, [], true, Some, length, map, option_map, unwrap_or, IfOk, OnOk, IsTrue};
ghost use Rattle.std.specs.List.{list_all};
ghost use Rattle.std.specs.Option.{option_or};
ghost use Rattle.sha2.specs.Sha256.{sha256};
ghost use Rattle.ac_types.specs.Types.{same_bytes};
ghost use Rattle.ac_types.specs.Partial.{given};
ghost use Rattle.ac_terms.specs.Bounds.{fits_def};
ghost use Rattle.ac_terms.specs.Defs.{AModule, AnImport};
ghost use Rattle.ac_terms.specs.Names.{name_by};
ghost use Rattle.ac_terms.specs.Read.{environment_of, entry_of, def_of_code, name_of_code, pdef_of, module_of_code, import_of_code};
ghost use Rattle.ac_rules.specs.Coherent.{IsCoherent};
ghost use Rattle.ac_rules.specs.Links.{linked, InPacket};
ghost use Rattle.ac_rules.specs.Packets.{put, found_or_put, place_exact, place_ranges, place, places};
ghost use Rattle.ac_link.specs.Fronts.{IsFront};
ghost use Rattle.ac_admit_placing.specs.Placed.{state_of, place_number};
ghost use Rattle.ac_admit_placing.specs.inner.Keys.{is_short, key_bytes};
ghost use Rattle.ac_admit_placing.specs.inner.Links.{link_target, link_open};
ghost use Rattle.ac_admit_placing.specs.inner.Maps.{Key, key_found};
ghost use Rattle.ac_admit_placing.specs.inner.State.{IsSound};

use crate::finding::{Keys, found, keys_of, note};
use crate::keys::key_of;
use crate::link::Link;
use crate::names::name_behind;
use crate::places::{Place, is_resolved};
use ac_link::{When, front, resolve_with_front};
use ac_terms::{Def, Entry, Env, Import, Module, PDef, Seen};
use ac_terms_renumber::module_renumbered;
use ac_types::{Constraint, Many, Memory, Name, Text};
use std::alloc::Global;

/// The places of definitions, and the entries that come with them.
#[derive(Drop)]
pub struct Placing {
    /// Where each definition is placed.
    pub places: Many<Place>,
    /// The entry of each definition, 0 where it has none.
    pub numbers: Many<u32>,
    /// The new entries.
    pub more: Many<Entry>,
    keys: Keys,
}

// The entries that are there, of which all behind the first `front` have arrived.
#[derive(Clone, Copy)]
struct Site<'a> {
    alloc: Global,
    env: &'a Env,
    front: usize,
}

impl Placing {
    /// The entry of each definition, and the new entries.
    pub fn into_parts(self) -> (Many<u32>, Many<Entry>)
        ensures { (result.0 ≡ self.numbers) × (result.1 ≡ self.more) }
    {
        let Placing {
            places,
            numbers,
            more,
            keys,
        } = self;
        drop(places);
        drop(keys);
        (numbers, more)
    }

    // No definition is placed yet.
    fn at_first(alloc: Global, env: &Env) -> Result<Placing, Memory>
        requires coherent { IsCoherent (environment_of env.now) }
        requires few { length env.now.entries < 2 ^ 32 }
        ensures sound { IfOk result (λ p. IsSound (environment_of env.now) p) }
        ensures empty { IfOk result (λ p. (p.places ≡ []) × (p.more ≡ [])) }
    {
        let keys = keys_of(alloc, env.entries())?;
        Ok(Placing {
            places: Many::new(alloc),
            numbers: Many::new(alloc),
            more: Many::new(alloc),
            keys,
        })
    }

    // Notes the place of the next definition.
    fn stands(&mut self, here: Place) -> Result<(), Memory>
        ensures numbers { OnOk result (self.new.numbers ≡ self.old.numbers ++
            unwrap_or here.at 0 ∷ []) }
        ensures places { OnOk result (self.new.places ≡ self.old.places ++ here ∷ []) }
        ensures more { OnOk result (self.new.more ≡ self.old.more) }
        ensures keys { OnOk result (self.new.keys ≡ self.old.keys) }
    {
        self.numbers.push(here.at.unwrap_or(0))?;
        self.places.push(here)?;
        Ok(())
    }

    // The number that the key of a definition leads to.
    fn standing(&self, alloc: Global, def: &Def, link: Option<u32>) -> Result<Option<u32>, Memory>
        ensures { IfOk result (λ o. (k : Key) × (k.items ≡ key_bytes (def_of_code def.now) link) ×
            (o ≡ key_found self.now.keys k)) }
    {
        let key = key_of(alloc, def, link)?;
        Ok(found(&self.keys, &key))
    }

    // The name of the definition that becomes the entry of this number. From now on its key leads
    // there.
    fn noted<'a>(
        &mut self,
        site: Site<'a>,
        def: &Def,
        link: Option<u32>,
        number: u32,
    ) -> Result<Option<Name>, Memory>
        ensures name { IfOk result (λ o. option_map name_of_code o ≡ name_by sha256
            (environment_of site.entry.env.now ++ map entry_of self.old.more)
            (def_of_code def.now)) }
        ensures keys { OnOk result ((k : Key) → key_found self.new.keys k ≡
            option_or (key_found self.old.keys k)
            (given (same_bytes (key_bytes (def_of_code def.now) link) k.items) (Some number))) }
        ensures places { OnOk result (self.new.places ≡ self.old.places) }
        ensures numbers { OnOk result (self.new.numbers ≡ self.old.numbers) }
        ensures more { OnOk result (self.new.more ≡ self.old.more) }
    {
        let name = name_behind(site.alloc, site.env, self.more.as_slice(), def)?;
        let key = key_of(site.alloc, def, link)?;
        note(&mut self.keys, key, number)?;
        Ok(name)
    }

    // A new entry.
    fn put<'a>(&mut self, site: Site<'a>, def: Def, link: Link) -> Result<(), Memory>
        requires room { length site.env.now.entries + length self.old.places + 1 < 2 ^ 32 }
        requires sound { IsSound (environment_of site.env.now) self.old }
        requires short { is_short (link_target link) ≡ true }
        ensures sound { OnOk result (IsSound (environment_of site.entry.env.now) self.new) }
        ensures many { OnOk result (length self.new.places ≡ length self.old.places + 1) }
        ensures put { OnOk result (state_of (environment_of site.entry.env.now) self.new ≡
            put sha256 (state_of (environment_of site.entry.env.now) self.old) (def_of_code def)
            (link_target link) (link_open link)) }
    {
        let number = (site.env.len() + self.more.len()) as u32;
        let here = Place {
            at: Some(number),
            unresolved: link.is_unresolved(),
        };
        let to = link.target();
        match self.noted(site, &def, to, number) {
            Ok(name) => {
                self.more.push(Entry {
                    def,
                    name,
                    seen: Seen::Arrived,
                    link: to,
                })?;
                self.stands(here)?;
                Ok(())
            }
            Err(memory) => {
                drop(def);
                Err(memory)
            }
        }
    }

    // The least entry that equals a definition, or a new one.
    fn find_or_put<'a>(&mut self, site: Site<'a>, def: Def, link: Option<u32>) -> Result<(), Memory>
        requires room { length site.env.now.entries + length self.old.places + 1 < 2 ^ 32 }
        requires sound { IsSound (environment_of site.env.now) self.old }
        requires short { is_short link ≡ true }
        ensures sound { OnOk result (IsSound (environment_of site.entry.env.now) self.new) }
        ensures many { OnOk result (length self.new.places ≡ length self.old.places + 1) }
        ensures placed { OnOk result (state_of (environment_of site.entry.env.now) self.new ≡
            found_or_put sha256 (state_of (environment_of site.entry.env.now) self.old)
            (def_of_code def) link) }
    {
        match self.standing(site.alloc, &def, link) {
            Ok(Some(j)) => {
                drop(def);
                self.stands(Place {
                    at: Some(j),
                    unresolved: false,
                })?;
                Ok(())
            }
            Ok(None) => {
                self.put(site, def, Link::Resolved(link))?;
                Ok(())
            }
            Err(memory) => {
                drop(def);
                Err(memory)
            }
        }
    }

    // An import by version.
    fn place_ranges<'a>(&mut self, site: Site<'a>, i: &Import) -> Result<(), Memory>
        requires front { IsFront (environment_of site.env.now) site.front }
        requires room { length site.env.now.entries + length self.old.places + 1 < 2 ^ 32 }
        requires sound { IsSound (environment_of site.env.now) self.old }
        requires fits { IsTrue (fits_def (AnImport (import_of_code i.now))) }
        ensures sound { OnOk result (IsSound (environment_of site.entry.env.now) self.new) }
        ensures many { OnOk result (length self.new.places ≡ length self.old.places + 1) }
        ensures placed { OnOk result (state_of (environment_of site.entry.env.now) self.new ≡
            place_ranges sha256 (state_of (environment_of site.entry.env.now) self.old)
            (import_of_code i.now)
            (linked (environment_of site.entry.env.now) (import_of_code i.now) InPacket)) }
    {
        let copy = i.copy(site.alloc)?;
        let def = Def::Import(copy);
        match resolve_with_front(site.env, i, When::Packet, site.front) {
            None => {
                self.put(site, def, Link::Unresolved)?;
                Ok(())
            }
            Some(j) => {
                self.find_or_put(site, def, Some(j))?;
                Ok(())
            }
        }
    }

    // An import by exact name: what it is linked to stands for it.
    fn place_exact<'a>(&mut self, site: Site<'a>, i: &Import) -> Result<(), Memory>
        requires front { IsFront (environment_of site.env.now) site.front }
        requires room { length site.env.now.entries + length self.old.places + 1 < 2 ^ 32 }
        requires sound { IsSound (environment_of site.env.now) self.old }
        requires fits { IsTrue (fits_def (AnImport (import_of_code i.now))) }
        ensures sound { OnOk result (IsSound (environment_of site.entry.env.now) self.new) }
        ensures many { OnOk result (length self.new.places ≡ length self.old.places + 1) }
        ensures placed { OnOk result (state_of (environment_of site.entry.env.now) self.new ≡
            place_exact sha256 (state_of (environment_of site.entry.env.now) self.old)
            (linked (environment_of site.entry.env.now) (import_of_code i.now) InPacket)) }
    {
        match resolve_with_front(site.env, i, When::Packet, site.front) {
            None => {
                self.stands(Place {
                    at: None,
                    unresolved: true,
                })?;
                Ok(())
            }
            Some(j) => {
                self.stands(Place {
                    at: Some(j),
                    unresolved: false,
                })?;
                Ok(())
            }
        }
    }

    // An import.
    fn place_import<'a>(&mut self, site: Site<'a>, i: &Import) -> Result<(), Memory>
        requires front { IsFront (environment_of site.env.now) site.front }
        requires room { length site.env.now.entries + length self.old.places + 1 < 2 ^ 32 }
        requires sound { IsSound (environment_of site.env.now) self.old }
        requires fits { IsTrue (fits_def (AnImport (import_of_code i.now))) }
        ensures sound { OnOk result (IsSound (environment_of site.entry.env.now) self.new) }
        ensures many { OnOk result (length self.new.places ≡ length self.old.places + 1) }
        ensures placed { OnOk result (state_of (environment_of site.entry.env.now) self.new ≡
            place sha256 (environment_of site.entry.env.now)
            (state_of (environment_of site.entry.env.now) self.old)
            (AnImport (import_of_code i.now))) }
    {
        match &i.constraint {
            Constraint::Ranges { atoms: _, star: _ } => {
                self.place_ranges(site, i)?;
                Ok(())
            }
            Constraint::Exact(_) => {
                self.place_exact(site, i)?;
                Ok(())
            }
        }
    }

    // A module. For one that refers to an import without a link stands an empty mark.
    fn place_module<'a>(&mut self, site: Site<'a>, m: &Module) -> Result<(), Memory>
        requires room { length site.env.now.entries + length self.old.places + 1 < 2 ^ 32 }
        requires sound { IsSound (environment_of site.env.now) self.old }
        ensures sound { OnOk result (IsSound (environment_of site.entry.env.now) self.new) }
        ensures many { OnOk result (length self.new.places ≡ length self.old.places + 1) }
        ensures placed { OnOk result (state_of (environment_of site.entry.env.now) self.new ≡
            place sha256 (environment_of site.entry.env.now)
            (state_of (environment_of site.entry.env.now) self.old)
            (AModule (module_of_code m.now))) }
    {
        let places = self.places.as_slice();
        if is_resolved(places, m) {
            let numbers = self.numbers.as_slice();
            let m = module_renumbered(site.alloc, m, numbers)?;
            self.find_or_put(site, Def::Module(m), None)?;
            return Ok(());
        }
        let empty = Text::new(site.alloc);
        self.put(site, Def::Mark(empty), Link::Resolved(None))?;
        Ok(())
    }

    fn place<'a>(&mut self, site: Site<'a>, def: &PDef) -> Result<(), Memory>
        requires front { IsFront (environment_of site.env.now) site.front }
        requires room { length site.env.now.entries + length self.old.places + 1 < 2 ^ 32 }
        requires sound { IsSound (environment_of site.env.now) self.old }
        requires fits { IsTrue (fits_def (pdef_of def.now)) }
        ensures sound { OnOk result (IsSound (environment_of site.entry.env.now) self.new) }
        ensures many { OnOk result (length self.new.places ≡ length self.old.places + 1) }
        ensures placed { OnOk result (state_of (environment_of site.entry.env.now) self.new ≡
            place sha256 (environment_of site.entry.env.now)
            (state_of (environment_of site.entry.env.now) self.old) (pdef_of def.now)) }
    {
        match def {
            PDef::Module(m) => {
                self.place_module(site, m)?;
                Ok(())
            }
            PDef::Import(i) => {
                self.place_import(site, i)?;
                Ok(())
            }
        }
    }
}

/// The places of the definitions of a packet, and the entries that come with them.
pub fn placed(alloc: Global, env: &Env, defs: &[PDef]) -> Result<Placing, Memory>
    requires coherent { IsCoherent (environment_of env.now) }
    requires few { length env.now.entries + length defs.now < 2 ^ 32 }
    requires fits { IsTrue (list_all fits_def (map pdef_of defs.now)) }
    ensures placed { IfOk result (λ p. state_of (environment_of env.now) p ≡ places sha256
        (environment_of env.now) (map pdef_of defs.now)) }
    ensures numbers { IfOk result (λ p. p.numbers ≡ map place_number (places sha256
        (environment_of env.now) (map pdef_of defs.now)).1) }
    ensures few { IfOk result (λ p. length p.more ≤ length defs.now) }
{
    let front = front(env);
    let site = Site { alloc, env, front };
    let mut placing = Placing::at_first(alloc, env)?;
    for def in defs {
        placing.place(site, def)?;
    }
    Ok(placing)
}
