// The entries in front of a text, and behind it.

ghost use Rattle.std.specs.Prelude.{IsTrue};
ghost use Rattle.std.specs.List.{list_all};
ghost use Rattle.ac_terms.specs.Read.{environment_of};
ghost use Rattle.ac_resolve_names.specs.Entries.{keeps_name};

use ac_load::ShelfEntry;
use ac_parser::parse_module;
use ac_resolve::{ScopeFault, elaborate};
use ac_resolve_terms::RawProgram;
use ac_syntax::{ParseFault, Surface};
use ac_terms::{Env, Term};
use ac_types::Memory;
use ac_types::limits::MOST_ENTRIES;
use std::alloc::Global;

/// Entries that keep their names.
#[derive(Drop)]
pub struct EntriesAhead {
    /// The entries.
    pub env: Env,
    ghost named: { IsTrue (list_all keeps_name (environment_of env)) },
}

/// What a text elaborates to: the entries in front of it with its own behind them, and its term.
#[derive(Drop)]
pub struct Elaborated {
    /// The entries.
    pub ahead: EntriesAhead,
    /// The term.
    pub main: Term,
}

impl EntriesAhead {
    /// No entries.
    pub fn none(alloc: Global) -> EntriesAhead {
        EntriesAhead {
            env: Env::new(alloc),
        }
    }

    /// What a tree elaborates to behind these entries, `None` where it has a fault of its names or
    /// counts, or where there are too many entries.
    pub fn with(self, alloc: Global, surface: &Surface) -> Result<Option<Elaborated>, Memory> {
        let EntriesAhead { env } = self;
        if env.len() > MOST_ENTRIES {
            drop(env);
            return Ok(None);
        }
        match elaborate(alloc, surface, env) {
            Ok(RawProgram { env, main }) => Ok(Some(Elaborated {
                ahead: EntriesAhead { env },
                main,
            })),
            Err(ScopeFault::Memory) => Err(Memory),
            Err(_) => Ok(None),
        }
    }

    // With the entries of a text of the shelf.
    fn with_text(self, alloc: Global, text: &[u8]) -> Result<Option<EntriesAhead>, Memory> {
        let surface = match parse_module(alloc, text) {
            Ok(surface) => surface,
            Err(ParseFault::Memory) => return Err(Memory),
            Err(_) => return Ok(None),
        };
        let found = self.with(alloc, &surface);
        drop(surface);
        match found? {
            None => Ok(None),
            Some(Elaborated { ahead, main }) => {
                drop(main);
                Ok(Some(ahead))
            }
        }
    }

    /// The entries of some texts of a shelf, `None` where one of them has no tree or a fault of its
    /// names or counts.
    pub fn of_shelf(alloc: Global, shelf: &[ShelfEntry]) -> Result<Option<EntriesAhead>, Memory> {
        let mut ahead = EntriesAhead::none(alloc);
        for entry in shelf {
            match ahead.with_text(alloc, entry.text.as_slice())? {
                Some(more) => ahead = more,
                None => return Ok(None),
            }
        }
        Ok(Some(ahead))
    }
}
