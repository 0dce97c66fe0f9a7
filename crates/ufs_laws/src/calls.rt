//! The five calls of a device with its dies: which answers are right, and what follows from them.
ghost use Rattle.std.specs.Prelude.{◌≡◌, ◌≢◌, ◌⊎◌, ◌<◌, ◌++◌, if◌then◌else◌, ℕ, Bool, true, false, List, [], Contains, length, Option, Some, None, Result, option_map};
ghost use Rattle.ufs_laws.specs.Flights.{JobsLieOnTheirDies, die_of_flight};
ghost use Rattle.ufs_laws.specs.Requests.{HaveNoneToFill};
ghost use Rattle.ufs_spec.specs.declared.Cdb.{Cdb};
ghost use Rattle.ufs_spec.specs.declared.Event.{Event};
ghost use Rattle.ufs_spec.specs.declared.HostFault.{HostFault};
ghost use Rattle.ufs_spec.specs.declared.Message.{Message};
ghost use Rattle.ufs_spec.specs.declared.Message.TheVariants as message;
ghost use Rattle.ufs_spec.specs.declared.Numbers.{Numbers};
ghost use Rattle.ufs_spec.specs.declared.Output.{Output};
ghost use Rattle.ufs_spec.specs.declared.Page.{Page};
ghost use Rattle.ufs_spec.specs.declared.Place.{Place};
ghost use Rattle.ufs_spec.specs.Cells.{Array, Cell, Cells, IsCell, Nothing, Shows};
ghost use Rattle.ufs_spec.specs.Dies.{blank_page};
ghost use Rattle.ufs_spec.specs.Disk.{CellCrash, Crash, Erasing, Flight, Programming, Reading, Spot, Touches, at_place, job_of, page_of, same_spot, spot_of, at_die};
ghost use Rattle.ufs_spec.specs.Lives.{IsCall, IsOpened, Leads, Life};
ghost use Rattle.ufs_spec.specs.Machine.{Allowed, Answer, Reply, Call, Due, Faulty, Done, NoEvent, OfDone, Take, OfTake, Heard, OfHost, Host, IsHeard, OfReply, Spelled, Turn, OfTurn, aborts, carried_out, fills, heard, in_block, observe, service, with_short};
ghost use Rattle.ufs_spec.specs.Exchanges.{number_of, short_reply};
ghost use Rattle.ufs_spec.specs.Messages.{IsAmong, code_of, host_codes, known_codes, read_fault_of};
ghost use Rattle.ufs_spec.specs.Moves.{Ending};
ghost use Rattle.ufs_spec.specs.Pages.{IsCheckRight};
ghost use Rattle.ufs_spec.specs.Plain.{zero};
ghost use Rattle.ufs_spec.specs.Refusals.{Lun, State, lun_of, mended, numbers_of};
ghost use Rattle.ufs_spec.specs.Translation.{MayTake, Translation, Want, is_idle, is_step_due, want_at, wants_on};
ghost use Rattle.ufs_spec.specs.declared.layer.Reader.{Reader};

/// In every state each of the five calls has a right answer: to a die a job or none, and to a host a reply that is due or
/// none. So an event that is a call leads somewhere.
pub fn every_call_has_an_answer()
    ensures each { (s : State) (call : Call) → (answer : Answer) × Allowed s call answer }
    ensures host { (s : State) (heard : Heard) → (result : Result Unit HostFault) × Allowed s (Host heard) (OfHost result) }
    ensures give { (s : State) (die : ℕ) →
        ((flight : Flight) × MayTake s.translation die (Some flight)) ⊎ MayTake s.translation die None }
    ensures finish { (s : State) (die : ℕ) (ending : Ending) (left : Array) →
        (known : Bool) × Allowed s (Done die ending left) (OfDone known) }
    ensures step { (s : State) → (due : Bool) × Allowed s Turn (OfTurn due) }
    ensures ask { (s : State) → ((m : Message) × Due s m) ⊎ ((m : Message) → Due s m → ⊥) }
    ensures event { (s : State) (e : Event) (call : Call) → IsCall s e call → (o : Output) × (t : State) × Leads s e o t }
{}

/// Where nothing is left to choose the right answer is one, and what is owed excludes the answer that nothing is.
pub fn one_answer()
    ensures host { (s : State) (heard : Heard) (a b : Answer) → Allowed s (Host heard) a → Allowed s (Host heard) b → a ≡ b }
    ensures finish { (s : State) (die : ℕ) (ending : Ending) (left : Array) (a b : Answer) →
        Allowed s (Done die ending left) a → Allowed s (Done die ending left) b → a ≡ b }
    ensures step { (s : State) (a b : Answer) → Allowed s Turn a → Allowed s Turn b → a ≡ b }
    ensures job { (s : State) (die : ℕ) (f g : Flight) → wants_on s.translation die ≡ [] →
        Allowed s (Take die) (OfTake (Some f)) → Allowed s (Take die) (OfTake (Some g)) → f ≡ g }
    ensures job_or_none { (s : State) (die : ℕ) (flight : Flight) →
        Allowed s (Take die) (OfTake None) → Allowed s (Take die) (OfTake (Some flight)) → ⊥ }
    ensures reply_or_none { (s : State) (m : Message) → Allowed s Reply (OfReply None) → Allowed s Reply (OfReply (Some m)) → ⊥ }
{}

/// A die is given a job only where it is one of the device's and has none; the job lies on it and is its own until it
/// ends. No other call and no other die's job changes what it does.
pub fn one_job_a_die()
    ensures free { (t : Translation) (die : ℕ) (flight : Flight) → MayTake t die (Some flight) → t.disk.flights die ≡ None }
    ensures there { (t : Translation) (die : ℕ) (flight : Flight) → MayTake t die (Some flight) → die < t.numbers.dies }
    ensures here { (t : Translation) (die : ℕ) (flight : Flight) → MayTake t die (Some flight) → die_of_flight flight ≡ die }
    ensures own { (s : State) (die : ℕ) (flight : Flight) →
        option_map job_of ((observe s (Take die) (OfTake (Some flight))).translation.disk.flights die) ≡ Some (job_of flight) }
    ensures others { (s : State) (die : ℕ) (flight : Flight) (other : ℕ) → other ≢ die →
        option_map job_of ((observe s (Take die) (OfTake (Some flight))).translation.disk.flights other)
        ≡ option_map job_of (s.translation.disk.flights other) }
    ensures none { (s : State) (die other : ℕ) →
        option_map job_of ((observe s (Take die) (OfTake None)).translation.disk.flights other)
        ≡ option_map job_of (s.translation.disk.flights other) }
    ensures ends { (s : State) (die : ℕ) (flight : Flight) (ending : Ending) (left : Array) →
        s.translation.disk.flights die ≡ Some flight → die_of_flight flight ≡ die →
        Allowed s (Done die ending left) (OfDone true) →
        (observe s (Done die ending left) (OfDone true)).translation.disk.flights die ≡ None }
    ensures ends_alone { (s : State) (die : ℕ) (flight : Flight) (ending : Ending) (left : Array) →
        s.translation.disk.flights die ≡ Some flight → die_of_flight flight ≡ die →
        Allowed s (Done die ending left) (OfDone true) → (other : ℕ) → other ≢ die →
        option_map job_of ((observe s (Done die ending left) (OfDone true)).translation.disk.flights other)
        ≡ option_map job_of (s.translation.disk.flights other) }
    ensures host { (s : State) (heard : Heard) (result : Result Unit HostFault) (die : ℕ) →
        option_map job_of ((observe s (Host heard) (OfHost result)).translation.disk.flights die)
        ≡ option_map job_of (s.translation.disk.flights die) }
    ensures step { (s : State) (due : Bool) (die : ℕ) →
        option_map job_of ((observe s Turn (OfTurn due)).translation.disk.flights die)
        ≡ option_map job_of (s.translation.disk.flights die) }
    ensures ask { (s : State) (reply : Option Message) (die : ℕ) →
        option_map job_of ((observe s Reply (OfReply reply)).translation.disk.flights die)
        ≡ option_map job_of (s.translation.disk.flights die) }
{}

/// An idle die may be given each of the reads that are owed to it, whatever page and reader it is for, and no other read.
pub fn any_owed_read_may_go()
    ensures each { (t : Translation) (die : ℕ) (want : Want) → is_idle t die ≡ true → Contains (wants_on t die) want →
        MayTake t die (Some (Reading want.reader want.place)) }
    ensures no_other { (t : Translation) (die : ℕ) (reader : Reader) (place : Place) →
        MayTake t die (Some (Reading reader place)) → Contains (wants_on t die) (want_at reader place) }
{}

/// If no task has a request that is yet to fill its register, no register is filled; and then a read also stays for
/// whom it is. So a request fills its register once.
pub fn no_request_fills_nothing()
    ensures nothing { (s : State) → HaveNoneToFill s.tasks → fills s ≡ s }
    ensures given { (s : State) (die : ℕ) (flight : Flight) → HaveNoneToFill s.tasks →
        (observe s (Take die) (OfTake (Some flight))).translation.disk.flights
        ≡ at_die s.translation.disk.flights die (Some flight) }
    ensures not_given { (s : State) (die : ℕ) → HaveNoneToFill s.tasks →
        (observe s (Take die) (OfTake None)).translation.disk.flights ≡ s.translation.disk.flights }
    ensures ended { (s : State) (die : ℕ) (flight : Flight) (ending : Ending) (left : Array) → HaveNoneToFill s.tasks →
        s.translation.disk.flights die ≡ Some flight → die_of_flight flight ≡ die →
        Allowed s (Done die ending left) (OfDone true) →
        (observe s (Done die ending left) (OfDone true)).translation.disk.flights
        ≡ at_die s.translation.disk.flights die None }
{}

/// Every job in flight lies on its die, from the beginning of a life to its end.
pub fn jobs_lie_on_their_dies()
    ensures open { (n : Numbers) (array : Array) (bad : Spot → Bool) (s : State) → IsOpened n array bad s →
        JobsLieOnTheirDies s }
    ensures call { (s : State) (call : Call) (answer : Answer) → Allowed s call answer →
        JobsLieOnTheirDies s → JobsLieOnTheirDies (observe s call answer) }
    ensures life { (s : State) (es : List Event) (os : List Output) (t : State) → JobsLieOnTheirDies s → Life s es os t →
        JobsLieOnTheirDies t }
{}

/// An interruption may leave the dies as they were, a page that is programmed as the new one or torn, and a block that is
/// erased as blank; it changes no page that no job in flight touches.
pub fn a_crash_leaves_old_or_new()
    ensures old { (array : Array) (flights : ℕ → Option Flight) → Crash array flights array }
    ensures new_page { (array : Array) (flights : ℕ → Option Flight) (die : ℕ) (p : Place) (cell : Cell) →
        flights die ≡ Some (Programming p cell) → p.die ≡ die → Crash array flights (at_place array p (page_of cell)) }
    ensures torn_page { (array : Array) (flights : ℕ → Option Flight) (die : ℕ) (p : Place) (cell : Cell) (torn : Page) →
        flights die ≡ Some (Programming p cell) → p.die ≡ die → (IsCheckRight torn → ⊥) →
        Crash array flights (at_place array p torn) }
    ensures blank_block { (array : Array) (flights : ℕ → Option Flight) (die : ℕ) (spot : Spot) →
        flights die ≡ Some (Erasing spot) → spot.die ≡ die →
        Crash array flights (λ p. if same_spot (spot_of p) spot then blank_page else array p) }
    ensures erased_block { (n : Numbers) (array : Array) (flights : ℕ → Option Flight) (die : ℕ) (spot : Spot) →
        flights die ≡ Some (Erasing spot) → spot.die ≡ die →
        Crash array flights (λ p. if in_block n spot p then blank_page else array p) }
    ensures untouched { (array left : Array) (flights : ℕ → Option Flight) → Crash array flights left → (p : Place) →
        ((intended : Cell) → Touches (flights p.die) p intended → ⊥) → left p ≡ array p }
{}

/// What an interruption leaves of pages it leaves of what they are, where each cell that a job programs is what its page
/// shows: a page whose check fails is nothing.
pub fn a_crash_of_pages_is_one_of_cells()
    ensures cells { (array left : Array) (cells after : Cells) (flights : ℕ → Option Flight) →
        Shows array cells → Shows left after → Crash array flights left →
        ((die : ℕ) (place : Place) (cell : Cell) → flights die ≡ Some (Programming place cell) → IsCell (page_of cell) cell) →
        CellCrash cells flights after }
    ensures torn { (page : Page) (cell : Cell) → (IsCheckRight page → ⊥) → IsCell page cell → cell ≡ Nothing }
{}

/// A life is cut at any of its events into a life up to it and a life from there on, and two such lives joined are one.
pub fn a_life_begins_with_its_beginning()
    ensures cut { (s : State) (es fs : List Event) (os : List Output) (t : State) → Life s (es ++ fs) os t →
        (front : List Output) × (back : List Output) × (middle : State)
        × (os ≡ front ++ back) × (length front ≡ length es) × Life s es front middle × Life middle fs back t }
    ensures join { (s : State) (es fs : List Event) (front back : List Output) (middle t : State) →
        Life s es front middle → Life middle fs back t → Life s (es ++ fs) (front ++ back) t }
    ensures one_output_each { (s : State) (es : List Event) (os : List Output) (t : State) →
        Life s es os t → length os ≡ length es }
{}

/// A life begins over new dies, whatever blocks are bad: over a new device that is not mended, whose first step is due, and
/// that owes no die a job and no host a reply. Behind this step each die with a block that is not bad may be given an erase.
pub fn new_dies_open()
    ensures open { (n : Numbers) (array : Array) (bad : Spot → Bool) → ((p : Place) → array p ≡ blank_page) →
        (s : State) × IsOpened n array bad s }
    ensures zero { (n : Numbers) (array : Array) (bad : Spot → Bool) (s : State) → ((p : Place) → array p ≡ blank_page) →
        IsOpened n array bad s → s.base ≡ zero n }
    ensures unmended { (n : Numbers) (array : Array) (bad : Spot → Bool) (s : State) → ((p : Place) → array p ≡ blank_page) →
        IsOpened n array bad s → mended s ≡ false }
    ensures step_due { (n : Numbers) (array : Array) (bad : Spot → Bool) (s : State) → ((p : Place) → array p ≡ blank_page) →
        IsOpened n array bad s → is_step_due s.translation ≡ true }
    ensures no_job { (n : Numbers) (array : Array) (bad : Spot → Bool) (s : State) → ((p : Place) → array p ≡ blank_page) →
        IsOpened n array bad s → (die : ℕ) → MayTake s.translation die None }
    ensures no_reply { (n : Numbers) (array : Array) (bad : Spot → Bool) (s : State) → IsOpened n array bad s → (m : Message) →
        Due s m → ⊥ }
    ensures first_job { (n : Numbers) (array : Array) (bad : Spot → Bool) (s : State) → ((p : Place) → array p ≡ blank_page) →
        IsOpened n array bad s → (good : Spot) → good.die < n.dies → good.block < n.blocks → bad good ≡ false →
        (spot : Spot) × MayTake (observe s Turn (OfTurn true)).translation good.die (Some (Erasing spot)) }
{}

/// A task management request that is answered other than 00h changes no task, nor anything else but its own answer: one
/// for a unit that is not there, one with an unknown function, and one that asks for tasks. One that aborts is answered
/// 00h where the unit is there.
pub fn refused_management_aborts_nothing()
    ensures nothing { (s : State) (lun function meant code : ℕ) → code ≢ 0x00 → carried_out s lun function meant code ≡ s }
    ensures heard { (s : State) (lun tag function meant : ℕ) (c : Option Cdb) → service s lun function meant ≢ 0x00 →
        heard s (message.TaskRequest lun tag function meant) c
        ≡ with_short s (short_reply (number_of true tag) (message.TaskResponse lun tag (service s lun function meant))) }
    ensures no_unit { (s : State) (lun function meant : ℕ) → lun_of (numbers_of s) lun ≡ None →
        service s lun function meant ≡ 0x09 }
    ensures aborts { (s : State) (lun function meant : ℕ) (unit : Lun) → lun_of (numbers_of s) lun ≡ Some unit →
        aborts function ≡ true → service s lun function meant ≡ 0x00 }
{}

/// What is heard is of a kind that a host sends, and what is read without a fault of a kind that there is.
pub fn heard_kinds_are_a_hosts()
    ensures heard { (bytes : List ℕ) (m : Message) (c : Option Cdb) → IsHeard bytes (Spelled m c) →
        IsAmong host_codes (code_of bytes) }
    ensures read { (bytes : List ℕ) → read_fault_of bytes ≡ None → IsAmong known_codes (code_of bytes) }
{}

/// Bytes are heard as one fault at most, or as one message with one command at most, and never as both.
pub fn messages_are_heard_once()
    ensures one_fault { (bytes : List ℕ) (f g : HostFault) → IsHeard bytes (Faulty f) → IsHeard bytes (Faulty g) → f ≡ g }
    ensures not_both { (bytes : List ℕ) (m : Message) (c : Option Cdb) (f : HostFault) →
        IsHeard bytes (Spelled m c) → IsHeard bytes (Faulty f) → ⊥ }
    ensures one_message { (bytes : List ℕ) (m n : Message) (c d : Option Cdb) →
        IsHeard bytes (Spelled m c) → IsHeard bytes (Spelled n d) → (m ≡ n) × (c ≡ d) }
{}
