//! LINK EVENT, which tells a device of profile 1 that its link was reset; and the tags of task management, which are a
//! set of their own there.
ghost use Rattle.std.specs.Prelude.{◌≡◌, ◌≢◌, ◌<◌, ◌≤◌, ◌++◌, ◌∷◌, [], ℕ, List, false, length, replicate, slice_get, sum_by, true, Err, None, Ok, Option, Result, Some};
ghost use Rattle.ufs_laws.specs.Exchange.{NoTask, Pinned};
ghost use Rattle.ufs_laws.specs.LinkEvents.{after_event, heard_event};
ghost use Rattle.ufs_spec.specs.declared.Cdb.{Cdb};
ghost use Rattle.ufs_spec.specs.declared.HostFault.{HostFault};
ghost use Rattle.ufs_spec.specs.declared.Message.{Message};
ghost use Rattle.ufs_spec.specs.declared.Message.TheVariants as message;
ghost use Rattle.ufs_spec.specs.declared.faults.HostFault.TheVariants.{Code, Reserved, TagInUse};
ghost use Rattle.ufs_spec.specs.Exchanges.{Task, empty_registers, most_short_exchanges, number_of, short_reply};
ghost use Rattle.ufs_spec.specs.Machine.{Allowed, Due, Heard, IsHeard, MayHear, NoEvent, OfHost, claimed_by, heard, in_use, is_open, link_reset, message_fault, replied, service, tag_in};
ghost use Rattle.ufs_spec.specs.Messages.{IsByte, IsMessage, fault_among, request_codes, spelling};
ghost use Rattle.ufs_spec.specs.Refusals.{Lun, State, has_attention, lun_of, numbers_of, plain_now};

/// After a LINK EVENT no task and no short exchange is open and no reply is due. What the tasks claimed is free, nothing
/// is kept for them, no register of the RPMB has anything, and each tag is free.
pub fn a_link_event_ends_all_that_is_open()
    ensures after { (s : State) (kind : ℕ) → after_event s kind ≡ link_reset s kind }
    ensures tasks { (s : State) (kind : ℕ) → (link_reset s kind).tasks ≡ [] }
    ensures shorts { (s : State) (kind : ℕ) → (link_reset s kind).shorts ≡ [] }
    ensures no_reply { (s : State) (kind : ℕ) (m : Message) → Due (link_reset s kind) m → ⊥ }
    ensures claims { (s : State) (kind : ℕ) →
        s.translation.claims ≡ sum_by (λ task. claimed_by (numbers_of s) task.deed task.command) s.tasks →
        (link_reset s kind).translation.claims ≡ 0 }
    ensures pins { (s : State) (kind k : ℕ) (task : Task) → slice_get s.tasks k ≡ Some task →
        Pinned task.tag (link_reset s kind).translation.pins ≡ false }
    ensures registers { (s : State) (kind region : ℕ) → (link_reset s kind).registers region ≡ empty_registers }
    ensures free { (s : State) (kind number : ℕ) → is_open (link_reset s kind) number ≡ false }
{}

/// A LINK EVENT takes nothing back and is no stop: what was accepted stays so, durable or not, what the dies hold and
/// what they do stays, and so does the mending.
pub fn a_link_event_takes_back_nothing()
    ensures commands { (s : State) (kind : ℕ) → (link_reset s kind).accepted ≡ s.accepted }
    ensures contents { (s : State) (kind : ℕ) → plain_now (link_reset s kind) ≡ plain_now s }
    ensures groups { (s : State) (kind : ℕ) → (link_reset s kind).translation.ledger ≡ s.translation.ledger }
    ensures rests { (s : State) (kind : ℕ) → (link_reset s kind).translation.work ≡ s.translation.work }
    ensures pages { (s : State) (kind : ℕ) → (link_reset s kind).array ≡ s.array }
{}

/// After a LINK EVENT each LUN of a device of profile 1 has an attention (SAM), and fDeviceInit is not set. The units that
/// are protected until the next power cycle stay so after a reset of the link, and not after a hardware reset.
pub fn a_link_event_is_a_reset()
    ensures attention { (s : State) (kind byte : ℕ) (lun : Lun) → 0 < (numbers_of s).profile →
        length (numbers_of s).units.items ≤ 8 → lun_of (numbers_of s) byte ≡ Some lun →
        has_attention (link_reset s kind) lun ≡ true }
    ensures initializing { (s : State) (kind : ℕ) → (link_reset s kind).volatile.initializing ≡ false }
    ensures hardware { (s : State) → (link_reset s 0x01).volatile.power_on ≡ false }
    ensures link { (s : State) → (link_reset s 0x02).volatile.power_on ≡ s.volatile.power_on }
{}

/// A LINK EVENT has one spelling, and there are two kinds of it. A device of profile 1 takes each, whatever is open, and
/// tells of other bytes with its transaction code that a reserved one is set. In profile 0 no bytes with that code are
/// taken: what is wrong is told as if there were no such message.
pub fn only_profile_1_takes_a_link_event()
    ensures spelled { (kind : ℕ) → spelling (message.LinkEvent kind) ≡ (0x1F ∷ 0 ∷ 0 ∷ 0 ∷ 0 ∷ kind ∷ []) ++ replicate 26 0 }
    ensures hardware { IsMessage (message.LinkEvent 0x01) }
    ensures link { IsMessage (message.LinkEvent 0x02) }
    ensures none { IsMessage (message.LinkEvent 0x00) → ⊥ }
    ensures third { IsMessage (message.LinkEvent 0x03) → ⊥ }
    ensures taken { (s : State) (kind : ℕ) → 0 < (numbers_of s).profile → message_fault s (message.LinkEvent kind) ≡ None }
    ensures reserved { (s : State) (result : Result Unit HostFault) → 0 < (numbers_of s).profile →
        MayHear s NoEvent result → result ≡ Err Reserved }
    ensures profile_0 { (s : State) (kind : ℕ) → (numbers_of s).profile ≡ 0 →
        message_fault s (message.LinkEvent kind) ≡ Some Code }
    ensures never { (s : State) (kind : ℕ) (c : Option Cdb) → (numbers_of s).profile ≡ 0 →
        Allowed s (heard_event kind c) (OfHost (Ok tt)) → ⊥ }
    ensures as_before { (s : State) (bytes : List ℕ) (h : Heard) (fault : HostFault) (result : Result Unit HostFault) →
        (numbers_of s).profile ≡ 0 → IsHeard bytes h → fault_among request_codes bytes ≡ Some fault →
        MayHear s h result → result ≡ Err fault }
{}

/// In profile 1 a task management request meets only the tags of such requests, and every other message only those of
/// others, so that a COMMAND and such a request may have one tag (SAM); two of one kind never have. In profile 0 there is
/// one set of tags.
pub fn task_management_has_tags_of_its_own()
    ensures apart { (s : State) (lun tag function meant : ℕ) → 0 < (numbers_of s).profile →
        length s.shorts < most_short_exchanges → is_open s (number_of true tag) ≡ false →
        message_fault s (message.TaskRequest lun tag function meant) ≡ None }
    ensures others_apart { (s : State) (tag : ℕ) → 0 < (numbers_of s).profile →
        length s.shorts < most_short_exchanges → is_open s (number_of false tag) ≡ false →
        message_fault s (message.NopOut tag) ≡ None }
    ensures twice { (s : State) (lun tag function meant : ℕ) → is_open s (number_of true tag) ≡ true →
        message_fault s (message.TaskRequest lun tag function meant) ≡ Some TagInUse }
    ensures others_twice { (s : State) (tag : ℕ) → is_open s (number_of false tag) ≡ true →
        message_fault s (message.NopOut tag) ≡ Some TagInUse }
    ensures profile_0 { (s : State) (tag : ℕ) → (numbers_of s).profile ≡ 0 → in_use s true tag ≡ in_use s false tag }
    ensures profile_0_meets { (s : State) (tag : ℕ) → (numbers_of s).profile ≡ 0 → is_open s (number_of false tag) ≡ true →
        in_use s true tag ≡ true }
    // The numbers by which exchanges are found.
    ensures numbers { (tag other : ℕ) → IsByte other → number_of true tag ≢ number_of false other }
    ensures same_number { (tag other : ℕ) → number_of true tag ≡ number_of true other → tag ≡ other }
    ensures opened { (s : State) (lun tag function meant : ℕ) (c : Option Cdb) →
        (heard s (message.TaskRequest lun tag function meant) c).shorts
        ≡ s.shorts
        ++ short_reply (number_of true tag) (message.TaskResponse lun tag (service s lun function meant)) ∷ [] }
    ensures answer { (lun tag code : ℕ) → tag_in (message.TaskResponse lun tag code) ≡ number_of true tag }
    ensures other_answer { (tag : ℕ) → tag_in (message.NopIn tag) ≡ number_of false tag }
    // A task keeps its tag when the request of the same tag is answered.
    ensures answered { (s : State) (lun tag code : ℕ) → NoTask (number_of true tag) s →
        (replied s (message.TaskResponse lun tag code)).tasks ≡ s.tasks }
{}
