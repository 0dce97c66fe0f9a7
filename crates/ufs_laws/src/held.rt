//! What is acknowledged as durable.
ghost use Rattle.std.specs.Prelude.{◌≡◌, ◌+◌, ◌≤◌, ◌++◌, ℕ, true, false, List, Some, None, find, length, max};
ghost use Rattle.ufs_spec.specs.Commands.{Command};
ghost use Rattle.ufs_spec.specs.Commands as command;
ghost use Rattle.ufs_spec.specs.Exchanges.{Answering, Awaiting, Short, Task, is_short_of, task_of};
ghost use Rattle.ufs_spec.specs.declared.exchanges.Status.TheVariants.{Good};
ghost use Rattle.ufs_spec.specs.Lives.{Life, held};
ghost use Rattle.ufs_spec.specs.Machine.{Reply, OfReply, accepts, blocks_in, flush_begun, observe, set_deed, tag_in, task_replied, with_task, write_complete};
ghost use Rattle.ufs_spec.specs.Moves.{Acknowledge, moved};
ghost use Rattle.ufs_spec.specs.Refusals.{Request, State, locked, mended};
ghost use Rattle.ufs_spec.specs.Translation.{Translation};
ghost use Rattle.ufs_spec.specs.declared.Cdb.{Cdb};
ghost use Rattle.ufs_spec.specs.declared.Event.{Event};
ghost use Rattle.ufs_spec.specs.declared.Message.{Message};
ghost use Rattle.ufs_spec.specs.declared.Output.{Output};

/// A FUA write waits for its own command, and a flush without IMMED for all that was accepted before it; once such an
/// answer is handed out, these commands are held. Before the device is mended nothing is accepted, and a flush, which a
/// locked device alone takes then, waits for nothing.
pub fn acknowledged_commands_are_held()
    ensures forced_write { (s : State) (task : Task) (unit address blocks : ℕ) (bytes : List ℕ) → locked s ≡ false →
        write_complete s task unit address blocks true bytes
        ≡ set_deed (accepts s (command.Write unit address (blocks_in blocks bytes)) blocks) task.tag
        (Awaiting (length s.accepted + 1)) }
    ensures flush { (s : State) (r : Request) (c : Cdb) → mended s ≡ true →
        flush_begun s r c false ≡ with_task s r (Some c) 0 (Awaiting (length s.accepted)) }
    ensures flush_before { (s : State) (r : Request) (c : Cdb) → mended s ≡ false →
        flush_begun s r c false ≡ with_task s r (Some c) 0 (Answering Good 0) }
    ensures handed_out { (s : State) (task : Task) (n : ℕ) → task.deed ≡ Awaiting n →
        held (task_replied s task) ≡ max (held s) n }
    ensures told { (t : Translation) (n : ℕ) → (moved t (Acknowledge n)).ledger.held ≡ max t.ledger.held n }
{}

/// Along a life no acknowledged command is taken back, and each accepted command keeps its place. Once the answer of a
/// task or a short exchange that waits for n commands is handed out, these n are held from then on.
pub fn held_commands_stay_held()
    ensures held { (s t : State) (es : List Event) (os : List Output) → Life s es os t → held s ≤ held t }
    ensures accepted { (s t : State) (es : List Event) (os : List Output) → Life s es os t →
        (more : List Command) × (t.accepted ≡ s.accepted ++ more) }
    ensures task { (s t : State) (m : Message) (task : Task) (n : ℕ) (es : List Event) (os : List Output) →
        task_of (tag_in m) s.tasks ≡ Some task → task.deed ≡ Awaiting n →
        Life (observe s Reply (OfReply (Some m))) es os t → n ≤ held t }
    ensures short { (s t : State) (m : Message) (short : Short) (n : ℕ) (es : List Event) (os : List Output) →
        task_of (tag_in m) s.tasks ≡ None → find (is_short_of (tag_in m)) s.shorts ≡ Some short →
        short.awaits ≡ Some n →
        Life (observe s Reply (OfReply (Some m))) es os t → n ≤ held t }
{}
