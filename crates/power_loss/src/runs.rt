//! The laws of a run: what a stop and a failed job leave, and what holds over any number of stops.
ghost use Rattle.std.specs.Global.{Vec};
ghost use Rattle.std.specs.Prelude.{◌≡◌, ◌++◌, ◌∷◌, ℕ, Bool, List, [], Contains, length, Option, Some, None};
ghost use Rattle.ufs_laws.specs.Runs.{place_of, the_data, the_write};
ghost use Rattle.ufs_spec.specs.Cells.{Array};
ghost use Rattle.ufs_spec.specs.Configs.{IsConfig};
ghost use Rattle.ufs_spec.specs.Dies.{DieState, blank_page, new_die};
ghost use Rattle.ufs_spec.specs.Disk.{Flight, Reading, Spot, at_place};
ghost use Rattle.ufs_spec.specs.Lives.{AreLeftovers, Fit, GoesOn, Headline, IsFailure, IsLawfulLeftover, IsLeft, IsLeftoverOf, IsOpened, Leads, Lived, Lives, Runs, Stops, array_of, bad_of, page_left};
ghost use Rattle.ufs_spec.specs.Machine.{IsHeard};
ghost use Rattle.ufs_spec.specs.Moves.{Ending};
ghost use Rattle.ufs_spec.specs.Pages.{IsCheckRight, MayBeLeft};
ghost use Rattle.ufs_spec.specs.Plain.{zero_block};
ghost use Rattle.ufs_spec.specs.Sound.{Sound, Suits};
ghost use Rattle.ufs_spec.specs.Refusals.{State, numbers_of};
ghost use Rattle.ufs_spec.specs.declared.Event.TheVariants as event;
ghost use Rattle.ufs_spec.specs.declared.Event.{Event};
ghost use Rattle.ufs_spec.specs.declared.Leftover.TheVariants as leftover;
ghost use Rattle.ufs_spec.specs.declared.Leftover.{Leftover};
ghost use Rattle.ufs_spec.specs.declared.Numbers.{Numbers};
ghost use Rattle.ufs_spec.specs.declared.Output.TheVariants as output;
ghost use Rattle.ufs_spec.specs.declared.Output.{Output};
ghost use Rattle.ufs_spec.specs.declared.Page.{Page};
ghost use Rattle.ufs_spec.specs.declared.Place.{Place};
ghost use Rattle.ufs_spec.specs.declared.layer.Reader.{Reader};
ghost use Rattle.power_loss.specs.Exchange.{IsArrayOf, ValidState};
ghost use Rattle.power_loss.specs.FailedWrites.{Failures, IsFailedWrite, IsMovedWrite, MayBeLeftSo};
ghost use Rattle.power_loss.specs.Runs.{AreNewDies, IsNewDie, LivesRight, MayBeOpened, last_state};
ghost use Rattle.power_loss.specs.StoppedWrites.{AreTorn, IsStoppedWrite, IsTornTwice, written_page};

/// A stop with these leftovers leaves one array at most, and so does a failed job with its leftover: each page that a
/// leftover names is as it says, and every other page is as it was.
pub fn one_array_is_left()
    ensures named { (s : State) (lefts : List Leftover) (left : Array) (l : Leftover) (p : Place) (page : Page) →
        Stops s lefts left → Contains lefts l → page_left l p page → left p ≡ page }
    ensures unnamed { (s : State) (lefts : List Leftover) (left : Array) (p : Place) → Stops s lefts left →
        ((l : Leftover) (page : Page) → Contains lefts l → page_left l p page → ⊥) → left p ≡ s.array p }
    ensures one { (s : State) (lefts : List Leftover) (left other : Array) →
        AreLeftovers s lefts → IsLeft s.array lefts left → IsLeft s.array lefts other → left ≡ other }
    ensures failed { (s : State) (die : ℕ) (flight : Option Flight) (l : Option Leftover) (ending next : Ending)
        (left other : Array) →
        IsFailure s die flight l ending left → IsFailure s die flight l next other → (ending ≡ next) × (left ≡ other) }
{}

/// Over every array that is sound and suits the numbers a device can be opened, whichever blocks are bad.
pub fn any_sound_array_opens()
    ensures { (n : Numbers) (array : Array) (bad : Spot → Bool) → IsArrayOf n array → Sound array → Suits n array →
        (s : State) × IsOpened n array bad s }
{}

/// A device may be opened over new dies, bad blocks or not, and outside dies that fit the configuration nothing
/// stands.
pub fn new_dies_fit()
    ensures new_die { (n : Numbers) → IsNewDie n (new_die n.blocks n.pages) }
    ensures fit { (n : Numbers) (dies : List DieState) → AreNewDies n dies → Fit n dies }
    ensures blank { (n : Numbers) (dies : List DieState) → AreNewDies n dies → (p : Place) →
        array_of dies p ≡ blank_page }
    ensures opens { (n : Numbers) (dies : List DieState) → AreNewDies n dies → MayBeOpened n (array_of dies) }
    ensures inside { (n : Numbers) (dies : List DieState) → Fit n dies → IsArrayOf n (array_of dies) }
{}

/// A stop may come at any moment of a run. It leaves each lawful leftover of the jobs in flight and no other; the
/// device opens over what it leaves, and the run goes on. Right after an opening a stop changes nothing.
pub fn a_stop_may_come_at_any_moment()
    ensures leaves { (n : Numbers) (array : Array) (bad : Spot → Bool) (s t : State) (es : List Event)
        (os : List Output) → IsConfig n → MayBeOpened n array → IsOpened n array bad s → Runs n s es os t →
        (lefts : List Leftover) (left : Array) → Stops t lefts left → MayBeOpened n left }
    ensures ends { (n : Numbers) (array : Array) (bad : Spot → Bool) (s t : State) (es : List Event)
        (os : List Output) → IsConfig n → MayBeOpened n array → IsOpened n array bad s → Runs n s es os t →
        MayBeOpened n t.array }
    ensures goes { (n : Numbers) (array : Array) (bad : Spot → Bool) (s t : State) (es : List Event)
        (os : List Output) → IsConfig n → MayBeOpened n array → IsOpened n array bad s → Runs n s es os t →
        (lefts : Vec Leftover) (left : Array) → Stops t lefts.items left →
        (u : State) × GoesOn n t (event.Stop lefts) output.Stopped u }
    ensures each { (s : State) (lefts : List Leftover) → AreLeftovers s lefts →
        ((l : Leftover) → Contains lefts l → IsLawfulLeftover s l) → (left : Array) × Stops s lefts left }
    ensures no_other { (s : State) (lefts : List Leftover) (left : Array) → Stops s lefts left →
        (l : Leftover) → Contains lefts l → IsLawfulLeftover s l }
    ensures again { (n : Numbers) (array : Array) (bad : Spot → Bool) (s : State) (lefts : List Leftover)
        (left : Array) → IsOpened n array bad s → Stops s lefts left → left ≡ array }
{}

/// A program or an erase may fail at any moment. It leaves each lawful leftover of it and no other; a read may fail
/// too.
pub fn a_job_may_fail_at_any_moment()
    ensures each { (s : State) (die : ℕ) (flight : Flight) (l : Leftover) → ValidState s →
        s.translation.disk.flights die ≡ Some flight → IsLeftoverOf (numbers_of s) (Some flight) l →
        IsLawfulLeftover s l → (t : State) × Leads s (event.Fail die (Some l)) output.Ended t }
    ensures no_other { (s : State) (die : ℕ) (flight : Flight) (l : Leftover) (ending : Ending) (left : Array) →
        ValidState s → s.translation.disk.flights die ≡ Some flight →
        IsFailure s die (Some flight) (Some l) ending left → IsLawfulLeftover s l }
    ensures read { (s : State) (die : ℕ) (reader : Reader) (p : Place) →
        s.translation.disk.flights die ≡ Some (Reading reader p) →
        (t : State) × Leads s (event.Fail die None) output.Ended t }
{}

/// A run goes on event by event, over any number of stops. It is lives one after another, and each of them is right:
/// it begins over an array that a device may be opened over, its end is valid, a device may be opened over whatever a
/// stop leaves of it, and it is mended soon. So a run over dies that fit keeps the promise.
pub fn a_run_keeps_the_promise()
    ensures more { (n : Numbers) (s t u : State) (es : List Event) (os : List Output) (e : Event) (o : Output) →
        Runs n s es os t → GoesOn n t e o u → Runs n s (es ++ e ∷ []) (os ++ o ∷ []) u }
    ensures lives { (n : Numbers) (array : Array) (bad : Spot → Bool) (s t : State) (es : List Event)
        (os : List Output) → IsOpened n array bad s → Runs n s es os t →
        (first : Lived) × (later : List Lived) × Lives n array bad first later es os × (last_state first later ≡ t) }
    ensures right { (n : Numbers) (array : Array) (bad : Spot → Bool) (first : Lived) (later : List Lived)
        (es : List Event) (os : List Output) →
        IsConfig n → MayBeOpened n array → Lives n array bad first later es os → LivesRight n array bad first later }
    ensures fit { (n : Numbers) (dies : List DieState) (s t : State) (es : List Event) (os : List Output) →
        IsConfig n → Fit n dies → Sound (array_of dies) → IsOpened n (array_of dies) (bad_of dies) s →
        Runs n s es os t → Headline n dies es os }
{}

/// A write of one block with FUA is stopped inside its program. If the page is as it was, or torn, the one accepted
/// command is not kept, and the next life finds zeros. If the page is the new one, the command is kept, though it was
/// not acknowledged.
pub fn a_stopped_write_opens()
    ensures old { (body : List ℕ) (write block : Vec ℕ) (lefts : Vec Leftover) → length body ≡ 4096 →
        IsHeard write.items the_write → IsHeard block.items (the_data body) → lefts.items ≡ [] →
        IsStoppedWrite body write block lefts (λ array. array) 0 zero_block }
    ensures new { (body : List ℕ) (write block : Vec ℕ) (lefts : Vec Leftover) → length body ≡ 4096 →
        IsHeard write.items the_write → IsHeard block.items (the_data body) →
        lefts.items ≡ leftover.Page (place_of 1) (written_page body) ∷ [] →
        IsStoppedWrite body write block lefts (λ array. at_place array (place_of 1) (written_page body)) 1 body }
    ensures torn { (body : List ℕ) (write block : Vec ℕ) (lefts : Vec Leftover) (torn : Page) → length body ≡ 4096 →
        IsHeard write.items the_write → IsHeard block.items (the_data body) → (IsCheckRight torn → ⊥) →
        lefts.items ≡ leftover.Page (place_of 1) torn ∷ [] →
        IsStoppedWrite body write block lefts (λ array. at_place array (place_of 1) torn) 0 zero_block }
    ensures torn_page { (torn : Page) × (IsCheckRight torn → ⊥) }
{}

/// As many jobs fail as the device has spare blocks: the program of the same write, and on each
/// other die the erase of a block for its page. Whatever they leave, the device is not locked. The
/// page is programmed into another block, and then the write is answered GOOD and is held.
pub fn a_failed_page_goes_elsewhere()
    ensures { (body : List ℕ) (write block : Vec ℕ) (f : Failures) → length body ≡ 4096 →
        IsHeard write.items the_write → IsHeard block.items (the_data body) → MayBeLeftSo body f →
        IsMovedWrite body write block f }
{}

/// The program into that other block fails too; it leaves the page as it was, the new one, or a
/// torn one. Now more blocks are bad than there are spare ones: the device is locked, the write is
/// answered with a write error, and nothing is acknowledged.
pub fn a_failed_write_is_answered()
    ensures { (body : List ℕ) (write block : Vec ℕ) (f : Failures) (last : Page) → length body ≡ 4096 →
        IsHeard write.items the_write → IsHeard block.items (the_data body) → MayBeLeftSo body f →
        MayBeLeft blank_page (written_page body) last → IsFailedWrite body write block f last }
{}

/// A stop comes while one die programs the block's page and another erases a block, and both are torn: the one accepted
/// command is not kept, and the next life finds zeros.
pub fn two_dies_torn_at_once_open()
    ensures { (body : List ℕ) (write block : Vec ℕ) (lefts : Vec Leftover) (torn : Page) (pages : Vec Page) →
        length body ≡ 4096 → IsHeard write.items the_write → IsHeard block.items (the_data body) →
        (IsCheckRight torn → ⊥) → length pages.items ≡ 64 → AreTorn pages.items →
        lefts.items ≡ leftover.Page (place_of 1) torn ∷ leftover.Block 1 0 pages ∷ [] →
        IsTornTwice body write block lefts }
{}
