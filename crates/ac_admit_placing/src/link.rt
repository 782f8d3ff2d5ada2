// What a new entry is linked to.

ghost use Rattle.std.specs.Prelude.{◌≡◌};
ghost use Rattle.ac_admit_placing.specs.inner.Links.{link_target, link_open};

/// What a new entry is linked to.
#[derive(Clone, Copy)]
pub enum Link {
    /// This entry, or none where it needs none.
    Resolved(Option<u32>),
    /// None, though it is an import.
    Unresolved,
}

impl Link {
    /// The entry, if it is linked to one.
    pub fn target(self) -> Option<u32>
        ensures { result ≡ link_target self }
    {
        match self {
            Link::Resolved(entry) => entry,
            Link::Unresolved => None,
        }
    }

    /// Whether it is an import without a link.
    pub fn is_unresolved(self) -> bool
        ensures { result ≡ link_open self }
    {
        match self {
            Link::Resolved(_) => false,
            Link::Unresolved => true,
        }
    }
}
