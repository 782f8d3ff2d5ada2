// Why an import can't link to an entry, and when it is resolved.

/// Why an import can't link to an entry: the first condition that fails.
#[derive(Clone, Copy, Debug, PartialEq, Eq)]
pub enum LinkFault {
    /// The entry is no module.
    Kind,
    /// The external names differ.
    External,
    /// The module's version doesn't meet the constraint.
    Version,
    /// The module's signature lacks that spec of the import's; types are counted first, then
    /// values, from 0.
    Signature { spec: u32 },
    /// That abstract type of the import has another representation in the module than its likespec
    /// says.
    Like { spec: u32 },
    /// The module doesn't have the name that is demanded.
    Name,
}

/// When an import is resolved.
#[derive(Clone, Copy, Debug, PartialEq, Eq)]
pub enum When {
    /// As its program is loaded, over the entries before it.
    Load,
    /// As a packet is unmarshalled, over the entries that are there.
    Packet,
}
