//! What readers keep: what each of their addresses has when they ask for it.
ghost use Rattle.std.specs.Prelude.{◌≡◌, ◌+◌, ◌++◌, ◌∷◌, ◌<◌, ◌≤◌, ℕ, [], false, fold, if◌then◌else◌, length, nat_le, true};
ghost use Rattle.std.specs.List.{list_any};
ghost use Rattle.ufs_spec.specs.Keys.{IsKey};
ghost use Rattle.ufs_spec.specs.Moves.{moved};
ghost use Rattle.ufs_spec.specs.Plain.{shape_of_numbers};
ghost use Rattle.ufs_spec.specs.Translation.{Translation};
ghost use Rattle.readers.specs.Pins.{most_pins};
ghost use Rattle.ftl_core.specs.Describes.{Describes};
ghost use Rattle.ftl_core.specs.Moves.{kept_all, pin_now};
ghost use Rattle.ftl_core.specs.Public.{AreClaimed, Claims};
ghost use Rattle.ftl_core.specs.Stops.{StopsRight};
ghost use Rattle.ftl_core.specs.Tells.{PinsDiffer, keeps_area_of, keeps_for, keeps_of, key_behind};

use super::Ftl;
use readers::{MOST_PINS, Pin, pin_block};
use ufs_spec::Key;
use write_cache::key_at;

impl Ftl {
    /// Keeps for this reader what each of so many addresses has now, from this one on. The reader is owed
    /// the read of one at a time, the first of them first: where it is a page or becomes one. False, and
    /// nothing is kept, where more than 4096 blocks would be kept.
    pub fn keep(&mut self, reader: u8, key: Key, blocks: u16) -> bool
        ensures found { result ≡ nat_le (length self.old.pins + blocks) most_pins }
        ensures after { self.new ≡ (if result then kept_all self.old reader key false blocks else self.old) }
        ensures described_found { (t : Translation) → Describes self.old t →
            result ≡ nat_le (length t.pins + blocks) most_pins }
        // No block of a reader is kept twice, so that no more is kept than readers have blocks.
        ensures described_differ { (t : Translation) → Describes self.old t → PinsDiffer t.pins }
        // It is what the addresses look at, of a reader who keeps nothing yet.
        ensures described { (t : Translation) → Describes self.old t → key.kind ≡ 1 →
            ((i : ℕ) → i < blocks → IsKey (shape_of_numbers t.numbers) (key_behind key i)) →
            list_any (keeps_for reader) t.pins ≡ false →
            Describes self.new (if result then fold moved t (keeps_of t reader key blocks) else t) }
        // Whatever a stop leaves then is right.
        ensures stop { (t : Translation) → Describes self.old t → key.kind ≡ 1 →
            ((i : ℕ) → i < blocks → IsKey (shape_of_numbers t.numbers) (key_behind key i)) →
            list_any (keeps_for reader) t.pins ≡ false →
            StopsRight self.new (if result then fold moved t (keeps_of t reader key blocks) else t) }
        ensures claims { (claims : Claims) → AreClaimed self.old claims → AreClaimed self.new claims }
    {
        self.has_numbers_in_range();
        self.keep_all(reader, key, blocks, false)
    }

    /// Keeps for this reader what each of so many pages of an area has now, from this key on: the pages in
    /// which the blocks of a request lie, one or two of them. The reader is owed the read of each of them at
    /// once, where it is a page or becomes one. False, and nothing is kept, where more than 4096 pages would
    /// be kept.
    pub fn keep_area(&mut self, reader: u8, key: Key, pages: u16) -> bool
        ensures found { result ≡ nat_le (length self.old.pins + pages) most_pins }
        ensures after { self.new ≡ (if result then kept_all self.old reader key true pages else self.old) }
        ensures described_found { (t : Translation) → Describes self.old t →
            result ≡ nat_le (length t.pins + pages) most_pins }
        // No page of a reader is kept twice, so that no more is kept than readers have pages.
        ensures described_differ { (t : Translation) → Describes self.old t → PinsDiffer t.pins }
        // It is what the keys look at, of a reader who keeps nothing yet.
        ensures described { (t : Translation) → Describes self.old t →
            ((i : ℕ) → i < pages → IsKey (shape_of_numbers t.numbers) (key_behind key i)) →
            list_any (keeps_for reader) t.pins ≡ false →
            Describes self.new (if result then fold moved t (keeps_area_of t reader key pages) else t) }
        // Whatever a stop leaves then is right.
        ensures stop { (t : Translation) → Describes self.old t →
            ((i : ℕ) → i < pages → IsKey (shape_of_numbers t.numbers) (key_behind key i)) →
            list_any (keeps_for reader) t.pins ≡ false →
            StopsRight self.new (if result then fold moved t (keeps_area_of t reader key pages) else t) }
        ensures claims { (claims : Claims) → AreClaimed self.old claims → AreClaimed self.new claims }
    {
        self.has_numbers_in_range();
        self.keep_all(reader, key, pages, true)
    }

    /// Keeps each of the pages, if there is room for all of them.
    fn keep_all(&mut self, reader: u8, key: Key, pages: u16, all: bool) -> bool
        ensures found { result ≡ nat_le (length self.old.pins + pages) most_pins }
        ensures after { self.new ≡ (if result then kept_all self.old reader key all pages else self.old) }
    {
        if self.pins.len() + pages as usize > MOST_PINS {
            return false;
        }
        self.pin_all(reader, key, pages, all);
        true
    }

    /// Keeps each of the pages. All are wanted, or the first alone.
    fn pin_all(&mut self, reader: u8, key: Key, pages: u16, all: bool)
        requires { length self.old.pins + pages ≤ most_pins }
        ensures { self.new ≡ kept_all self.old reader key all pages }
    {
        for index in 0..pages {
            self.pin(reader, key, index, all);
        }
    }

    /// Keeps one of the pages.
    fn pin(&mut self, reader: u8, key: Key, index: u16, all: bool)
        requires { length self.old.pins < most_pins }
        ensures { self.new ≡ record self.old { pins = self.old.pins ++ pin_now self.old reader key all index ∷ [] } }
    {
        let key = key_at(key, index);
        let looked = self.look(key);
        self.has_few_slots();
        pin_block(&mut self.live, &looked);
        self.pins.push(Pin {
            reader,
            index,
            key,
            looked,
            wanted: all || index == 0,
        });
    }
}
