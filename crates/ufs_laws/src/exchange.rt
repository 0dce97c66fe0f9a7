//! The exchange between a host and a device: what is heard, what is asked for, what is sent.
ghost use Rattle.std.specs.Prelude.{◌≡◌, ◌≢◌, ◌⊎◌, ◌<◌, ◌≤◌, ◌+◌, ◌-◌, ◌*◌, ◌++◌, ◌∷◌, [], ℕ, min, nat_lt, Bool, true, false, if◌then◌else◌, List, filter, length, map, not, sum_by, take, slice_get, Option, Some, None};
ghost use Rattle.std.specs.List.{concat, flat_map, list_any};
ghost use Rattle.ufs_laws.specs.Exchange.{AllKnown, AreAsked, Asks, IsAnsweredAt, IsRequest, IsSpoken, NoTask, Pinned, TagSends, WasAsked, WasAskedToCompare};
ghost use Rattle.ufs_spec.specs.declared.Cdb.{Cdb};
ghost use Rattle.ufs_spec.specs.declared.Event.{Event};
ghost use Rattle.ufs_spec.specs.declared.Message.{Message};
ghost use Rattle.ufs_spec.specs.declared.Message.TheVariants as message;
ghost use Rattle.ufs_spec.specs.declared.Numbers.{Numbers};
ghost use Rattle.ufs_spec.specs.declared.Output.{Output};
ghost use Rattle.ufs_spec.specs.CdbFields.{kind_of, row_of};
ghost use Rattle.ufs_spec.specs.declared.Row.{Row};
ghost use Rattle.ufs_spec.specs.Cells.{Array};
ghost use Rattle.ufs_spec.specs.Commands.{Write};
ghost use Rattle.ufs_spec.specs.Disk.{Spot};
ghost use Rattle.ufs_spec.specs.Exchanges.{Answering, Gathering, ReadBlock, Sending, Task, block_message, invalid_operation, read_error, response, task_of, to_gather};
ghost use Rattle.ufs_spec.specs.declared.exchanges.ReadState.TheVariants.{NotRead, Unread};
ghost use Rattle.ufs_spec.specs.declared.exchanges.Status.TheVariants.{Good};
ghost use Rattle.ufs_spec.specs.declared.exchanges.Purpose.{Purpose};
ghost use Rattle.ufs_spec.specs.declared.exchanges.Purpose.TheVariants.{ForWrite};
ghost use Rattle.ufs_spec.specs.Keys.{below};
ghost use Rattle.ufs_spec.specs.Lives.{IsOpened, Life};
ghost use Rattle.ufs_spec.specs.Machine.{Allowed, Answer, Call, Heard, IsHeard, begun, blocks_expected, blocks_in, claimed_by, data_for, deed_after, deed_reply, in_use, message_fault, observe, pin_of, read_begun, read_blocks, set_deed, tag_in, without_tasks};
ghost use Rattle.ufs_spec.specs.Plain.{block_at};
ghost use Rattle.ufs_spec.specs.Refusals.{Request, State, brought, locked, lun_of, numbers_of, plain_now, refusal};
ghost use Rattle.ufs_spec.specs.Translation.{Pin, is_rest_of};
ghost use Rattle.ufs_spec.specs.declared.layer.Looked.TheVariants.{InSlot};
ghost use Rattle.ufs_spec.specs.declared.layer.Name.{Name};

/// Every list of bytes is heard, as a message with its command or none, or as a fault; and as one thing alone.
pub fn every_byte_string_is_heard()
    ensures heard { (bytes : List ℕ) → (h : Heard) × IsHeard bytes h }
    ensures once { (bytes : List ℕ) (h k : Heard) → IsHeard bytes h → IsHeard bytes k → h ≡ k }
{}

/// A command that the table does not refuse has a row of its kind that its unit takes; or there is no such unit, and the
/// command tells so on a device of profile 1. It begins as a task of its own, and never ends with an invalid operation
/// code, from the opening of a device to the end of its life.
pub fn a_command_is_never_unknown_once_taken()
    ensures passes { (s : State) (r : Request) → IsRequest r → refusal s r ≡ None →
        (row : Row) × (c : Cdb) × (row_of r.bytes ≡ Some row)
        × IsAnsweredAt (numbers_of s) (lun_of (numbers_of s) r.lun) row × (r.cdb ≡ Some c) × (row.kind ≡ kind_of c) }
    ensures begins { (s : State) (r : Request) (unit : ℕ) (c : Cdb) →
        (task : Task) × ((begun s r unit c).tasks ≡ s.tasks ++ task ∷ []) × (task.command ≡ Some (brought r.expected c))
        × ((carried : ℕ) → task.deed ≢ Answering invalid_operation carried) }
    ensures open { (n : Numbers) (array : Array) (bad : Spot → Bool) (s : State) → IsOpened n array bad s → AllKnown s }
    ensures call { (s : State) (call : Call) (answer : Answer) → IsSpoken call → Allowed s call answer →
        AllKnown s → AllKnown (observe s call answer) }
    ensures life { (s : State) (es : List Event) (os : List Output) (t : State) → AllKnown s → Life s es os t →
        AllKnown t }
{}

/// The data of a command are asked for one part after another, each once: at the offset of what came so far, as many
/// bytes as are left but 4096 at most. No other data are taken but those that a VERIFY compares, and what a WRITE
/// accepts is all of them joined.
pub fn data_are_asked_for_in_order()
    ensures asks { (s : State) (task : Task) (purpose : Purpose) (gathered : List ℕ) →
        deed_reply s task (Gathering purpose gathered false)
        ≡ Some (message.ReadyToTransfer task.lun task.tag (length gathered) (min 4096 (to_gather purpose task.length - length gathered))) }
    ensures asks_once { (s : State) (task : Task) (purpose : Purpose) (gathered : List ℕ) →
        deed_reply s task (Gathering purpose gathered true) ≡ None }
    ensures was_asked { (task : Task) (purpose : Purpose) (gathered : List ℕ) →
        deed_after task (Gathering purpose gathered false) ≡ Some (Gathering purpose gathered true) }
    ensures taken { (s : State) (lun tag offset : ℕ) (bytes : List ℕ) →
        message_fault s (message.DataOut lun tag offset (record { items = bytes })) ≡ None →
        (task : Task) × (task_of tag s.tasks ≡ Some task)
        × (WasAsked task lun offset (length bytes) ⊎ WasAskedToCompare task lun offset (length bytes)) }
    ensures gathered { (s : State) (task : Task) (purpose : Purpose) (before bytes : List ℕ) →
        nat_lt (length (before ++ bytes)) (to_gather purpose task.length) ≡ true →
        data_for s task (Gathering purpose before true) bytes
        ≡ set_deed s task.tag (Gathering purpose (before ++ bytes) false) }
    ensures accepted { (s : State) (task : Task) (unit address blocks : ℕ) (forced : Bool) (before bytes : List ℕ) →
        locked s ≡ false → length (before ++ bytes) ≡ 4096 * blocks →
        (data_for s task (Gathering (ForWrite unit address blocks forced) before true) bytes).accepted
        ≡ s.accepted ++ Write unit address (blocks_in blocks (before ++ bytes)) ∷ [] }
    ensures all_bytes { (blocks : ℕ) (bytes : List ℕ) → length bytes ≡ 4096 * blocks →
        concat (blocks_in blocks bytes) ≡ bytes }
    ensures within { (total offset : ℕ) (segments : List (List ℕ)) → offset ≤ total → AreAsked total offset segments →
        offset + length (concat segments) ≤ total }
    ensures offsets { (total : ℕ) (front : List (List ℕ)) (segment : List ℕ) (back : List (List ℕ)) →
        AreAsked total 0 (front ++ segment ∷ back) → 1 ≤ length segment →
        (length (concat front) ≡ 4096 * length front) × (length segment ≡ min 4096 (total - 4096 * length front)) }
{}

/// A READ fixes its blocks at its COMMAND and sends them one after another, at the offsets 0, 4096 and so on; joined,
/// they are the first bytes of what these blocks held then, as many as the host expects, whatever is accepted later.
pub fn a_read_sends_its_blocks()
    ensures begins { (s : State) (r : Request) (c : Cdb) (unit address n : ℕ) → 1 ≤ blocks_expected r n →
        (read_begun s r c unit address n).tasks
        ≡ s.tasks ++ record {
          lun = r.lun;
          tag = r.tag;
          expected = r.expected;
          command = Some c;
          length = n;
          deed = Sending (read_blocks s unit address (blocks_expected r n)) 0;
          request = None;
        } ∷ [] }
    ensures contents { (s : State) (unit address n : ℕ) → map (λ block. block.body) (read_blocks s unit address n)
        ≡ map (λ i. block_at unit (address + i) (plain_now s)) (below n) }
    ensures sends { (s : State) (task : Task) (blocks : List ReadBlock) (sent : ℕ) (m : Message) →
        deed_reply s task (Sending blocks sent) ≡ Some m → (block : ReadBlock) × (slice_get blocks sent ≡ Some block)
        × ((m ≡ block_message task sent block.body)
        ⊎ ((block.state ≡ NotRead) × (m ≡ response task.lun task.tag task.expected (4096 * sent) read_error))) }
    // A block in a slot whose content is still owed is not due.
    ensures owed { (s : State) (task : Task) (blocks : List ReadBlock) (sent : ℕ) (block : ReadBlock) (pin : Pin) (name : Name) →
        slice_get blocks sent ≡ Some block → block.state ≡ Unread → pin_of s task sent ≡ Some pin → pin.looked ≡ InSlot name →
        list_any (is_rest_of name) s.translation.work.rests ≡ true → deed_reply s task (Sending blocks sent) ≡ None }
    ensures message { (task : Task) (sent : ℕ) (body : List ℕ) → block_message task sent body
        ≡ message.DataIn task.lun task.tag (4096 * sent)
        (record { items = take (min 4096 (min task.expected task.length - 4096 * sent)) body }) }
    ensures goes_on { (task : Task) (blocks : List ReadBlock) (sent : ℕ) (block : ReadBlock) →
        slice_get blocks sent ≡ Some block →
        block.state ≢ NotRead → deed_after task (Sending blocks sent)
        ≡ Some (if nat_lt (sent + 1) (length blocks) then Sending blocks (sent + 1) else Answering Good task.length) }
    ensures stays { (s : State) (call : Call) (answer : Answer) (tag : ℕ) (bodies : List (List ℕ)) → IsSpoken call →
        Allowed s call answer → in_use s false tag ≡ true → TagSends tag bodies s →
        TagSends tag bodies (observe s call answer) }
    ensures joined { (total n : ℕ) (body : ℕ → List ℕ) → ((i : ℕ) → i < n → length (body i) ≡ 4096) →
        flat_map (λ i. take (min 4096 (total - 4096 * i)) (body i)) (below n) ≡ take total (flat_map body (below n)) }
{}

/// What task management aborts is gone at once, with its claims and all that it keeps; what it had accepted stays
/// accepted, and all else stays as it was. No task has its tag until a COMMAND opens one again, so that no reply of
/// it follows.
pub fn nothing_of_an_aborted_tag_follows()
    ensures gone { (s : State) (is : Task → Bool) (k : ℕ) (task : Task) →
        slice_get (without_tasks s is).tasks k ≡ Some task → is task ≡ false }
    ensures others { (s : State) (is : Task → Bool) →
        (without_tasks s is).tasks ≡ filter (λ task. not (is task)) s.tasks }
    ensures shorts { (s : State) (is : Task → Bool) → (without_tasks s is).shorts ≡ s.shorts }
    ensures accepted { (s : State) (is : Task → Bool) → (without_tasks s is).accepted ≡ s.accepted }
    ensures claims { (s : State) (is : Task → Bool) → (without_tasks s is).translation.claims
        ≡ s.translation.claims - sum_by (λ task. claimed_by (numbers_of s) task.deed task.command) (filter is s.tasks) }
    ensures pins { (s : State) (is : Task → Bool) (k : ℕ) (task : Task) → slice_get (filter is s.tasks) k ≡ Some task →
        Pinned task.tag (without_tasks s is).translation.pins ≡ false }
    ensures tag { (s : State) (is : Task → Bool) (tag : ℕ) → ((task : Task) → task.tag ≡ tag → is task ≡ true) →
        NoTask tag (without_tasks s is) }
    ensures call { (s : State) (call : Call) (answer : Answer) (tag : ℕ) → IsSpoken call →
        Asks (λ r. r.tag ≢ tag) call →
        Allowed s call answer → NoTask tag s → NoTask tag (observe s call answer) }
    ensures no_reply { (s : State) (tag k : ℕ) (task : Task) → NoTask tag s → slice_get s.tasks k ≡ Some task →
        task.tag ≢ tag }
    ensures reply_has_its_tag { (s : State) (task : Task) (m : Message) → deed_reply s task task.deed ≡ Some m →
        tag_in m ≡ task.tag }
{}
