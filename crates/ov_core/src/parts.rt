// The core of a store.

ghost use Rattle.std.specs.Prelude.{◌≡◌};
ghost use Rattle.ov_catalog.specs.Extents.{live};
ghost use Rattle.ov_pages.specs.Live.{AreReserved};
ghost use Rattle.ov_core.specs.Held.{IsReplayed};

use ov_catalog::Catalog;
use ov_journal::Journal;
use ov_pages::Pages;
use std::marker::Model;

/// A journal, the catalog of its events, and the pages of the catalog's live extents, which are reserved. Contracts see what
/// the journal and the catalog keep; the reserved pages follow from it.
#[derive(Drop)]
pub struct Core {
    pub(crate) journal: Journal,
    pub(crate) pages: Pages,
    pub(crate) catalog: Catalog,
}

impl Model for Core {
    ghost use Rattle.ov_core.specs.Held.{Held};

    ghost Value = { Held };

    ghost use Rattle.ov_catalog.specs.Extents.{live};
    ghost use Rattle.ov_pages.specs.Live.{AreReserved};
    ghost use Rattle.ov_core.specs.Held.{IsReplayed};

    ghost view = { λ c. record { journal = c.journal; numbers = c.catalog.numbers } };

    ghost invariant = { λ c. AreReserved (live c.catalog.numbers) c.pages × IsReplayed c.catalog.numbers };
}

impl Core {
    /// The core of this journal and this catalog, where the catalog is that of events each of which applied, and these pages
    /// are those of the live extents.
    pub fn of(journal: Journal, catalog: Catalog, pages: Pages) -> Core
        requires reserved { AreReserved (live catalog.numbers) pages }
        requires replayed { IsReplayed catalog.numbers }
        ensures { result ≡ record { journal = journal; numbers = catalog.numbers } }
    {
        Core {
            journal,
            pages,
            catalog,
        }
    }

    /// The journal's numbers.
    pub fn journal(&self) -> &Journal
        ensures { result.now ≡ self.now.journal }
    {
        &self.journal
    }

    /// The catalog is always that of events each of which applied.
    pub fn is_replayed(&self)
        ensures { IsReplayed self.now.numbers }
    {
        let _ = &self.catalog;
    }

    /// The catalog of all events.
    pub fn catalog(&self) -> &Catalog
        ensures { result.now.numbers ≡ self.now.numbers }
    {
        &self.catalog
    }
}
