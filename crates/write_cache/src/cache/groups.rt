//! Groups of pages with keys of their own, and the rests that their pages wait for.
ghost use Rattle.std.specs.Prelude.{◌≡◌, ◌+◌, ◌^◌, ◌<◌, All, IsTrue, false, length};
ghost use Rattle.std.specs.List.{list_any};
ghost use Rattle.write_cache.specs.Rests.{IsPart, awaits, pages_appended, rests_filled, waits};
ghost use Rattle.write_cache.specs.Slots.{has_number};

use super::Cache;
use crate::rests::NewPage;
use ufs_spec::Name;

impl Cache {
    /// Puts the group of these pages behind all that are pending, each in the slot that the reader
    /// claimed for the block of its index, and answers its number. What else the reader claimed is
    /// free.
    pub fn append_pages(&mut self, reader: u8, pages: &[NewPage<'_>]) -> u64
        requires numbered { IsTrue (has_number self.old) }
        requires parts { All IsPart pages.now }
        requires few { length pages.now < 2 ^ 16 }
        ensures number { result ≡ self.old.last + 1 }
        ensures after { self.new ≡ pages_appended self.old reader pages.now }
    {
        let number = self.last + 1;
        self.claims.bring(&self.pages, reader, pages);
        self.claims
            .move_pages(&mut self.pages, &mut self.free, reader, number, pages);
        self.last = number;
        number
    }

    /// Gives their rest to all pages that wait for the read that is done for the page of this name,
    /// which brought these 4096 bytes. The own blocks of each page stay. The first takes its rest
    /// from what was read, and each later one from the one before it.
    pub fn fill_rests(&mut self, name: Name, block: &[u8])
        requires { length block.now ≡ 4096 }
        ensures after { self.new ≡ record self.old {
          pages = rests_filled name block.now self.old.pages;
        } }
        // None of them waits any more.
        ensures none_waits { list_any (awaits name) self.new.pages ≡ false }
    {
        self.pages.fill_rests(name, block);
    }

    /// Whether a pending page waits for its rest.
    pub fn has_rests(&self) -> bool
        ensures { result ≡ list_any waits self.now.pages }
    {
        self.pages.first_waiting(0).is_some()
    }
}
