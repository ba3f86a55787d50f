ghost use Rattle.std.specs.Prelude.{◌≡◌, unwrap_or};
ghost use Rattle.std.specs.Option.{option_copied};
ghost use Rattle.lwc_base.specs.Lending.{keys_of};
ghost use Rattle.lwc_base.specs.declared.descriptor.Cap as caps;
ghost use Rattle.fd_table.specs.Slots.{cell_of};
ghost use Rattle.fd_table.specs.Stored as spec;
ghost use Rattle.fd_table.specs.Stored.{cell_in, keys_in};

use lwc_base::{Cap, Cell, Grant, Lent, Name, PageNumber};

/// The keys of a descriptor, as they are stored: where they are neither all nor none, their words stand
/// beside them.
#[derive(Clone, Copy)]
pub(crate) enum StoredKeys {
    All { pages: PageNumber },
    None,
    Words,
}

/// The cell of a slot, as it is stored.
#[derive(Clone, Copy)]
pub(crate) enum StoredCell {
    Empty,
    Console,
    File { file: u8, at: u32 },
    Request { r: u16, at: u32 },
    Reply { r: u16 },
    Ctx { name: Name, keys: StoredKeys },
    Common(Name),
}

/// The words that stand beside a cell, if some do.
pub(crate) fn words_of<'a>(cell: &Cell<Lent<'a>>) -> Option<&'a Cap>
    ensures { option_copied result ≡ spec.words_of cell.now }
{
    match cell {
        Cell::Own(
            Lent::Ctx {
                keys: Grant::Of(words),
                ..
            },
        ) => Some(words),
        _ => None,
    }
}

impl StoredKeys {
    /// Keys as they are stored.
    fn from_grant(keys: Grant<'_>) -> StoredKeys
        ensures { (words : caps.Cap) → keys_in result (unwrap_or (spec.words_of_keys keys.entry) words)
            ≡ keys_of keys.entry }
    {
        match keys {
            Grant::All { pages } => StoredKeys::All { pages },
            Grant::None => StoredKeys::None,
            Grant::Of(_) => StoredKeys::Words,
        }
    }

    /// The keys, lent, with the words that stand beside them.
    fn lend(self, words: &Cap) -> Grant<'_>
        ensures { keys_of result ≡ keys_in self words.now }
    {
        match self {
            StoredKeys::All { pages } => Grant::All { pages },
            StoredKeys::None => Grant::None,
            StoredKeys::Words => Grant::Of(words),
        }
    }
}

impl StoredCell {
    /// A cell as it is stored.
    pub(crate) fn from_cell(cell: &Cell<Lent<'_>>) -> StoredCell
        ensures { (words : caps.Cap) → cell_in result (unwrap_or (spec.words_of cell.now) words)
            ≡ cell_of cell.now }
    {
        match cell {
            Cell::Common(group) => StoredCell::Common(*group),
            Cell::Own(Lent::Empty) => StoredCell::Empty,
            Cell::Own(Lent::Console) => StoredCell::Console,
            Cell::Own(Lent::File { file, at }) => StoredCell::File {
                file: *file,
                at: *at,
            },
            Cell::Own(Lent::Request { r, at }) => StoredCell::Request { r: *r, at: *at },
            Cell::Own(Lent::Reply { r }) => StoredCell::Reply { r: *r },
            Cell::Own(Lent::Ctx { name, keys }) => StoredCell::Ctx {
                name: *name,
                keys: StoredKeys::from_grant(*keys),
            },
        }
    }

    /// The cell, lent, with the words that stand beside it.
    pub(crate) fn lend(self, words: &Cap) -> Cell<Lent<'_>>
        ensures { cell_of result ≡ cell_in self words.now }
    {
        match self {
            StoredCell::Common(group) => Cell::Common(group),
            StoredCell::Empty => Cell::Own(Lent::Empty),
            StoredCell::Console => Cell::Own(Lent::Console),
            StoredCell::File { file, at } => Cell::Own(Lent::File { file, at }),
            StoredCell::Request { r, at } => Cell::Own(Lent::Request { r, at }),
            StoredCell::Reply { r } => Cell::Own(Lent::Reply { r }),
            StoredCell::Ctx { name, keys } => Cell::Own(Lent::Ctx {
                name,
                keys: keys.lend(words),
            }),
        }
    }
}
