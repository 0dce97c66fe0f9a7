//! Task management: which tasks a function aborts, what an abort leaves, and what is answered.
ghost use Rattle.std.specs.Prelude.{◌≡◌, ◌==◌, ◌&&◌, ℕ, true, false, not, filter};
ghost use Rattle.ufs_laws.specs.TaskRequests.{HasTask, HasTaskOf, HasUnit, functions};
ghost use Rattle.ufs_spec.specs.Management.{aborts, is_aborted, managed, service, volatile_managed, without_tasks};
ghost use Rattle.ufs_spec.specs.Messages.{IsAmong};
ghost use Rattle.ufs_spec.specs.Refusals.{State, plain_now};

/// Abort task ends the one task that has its LUN and its tag, and the other three functions that
/// abort end each task of their LUN, whatever its tag (JESD220, 10.7.6). No task of another LUN ends.
/// A function that only asks for tasks, or that there is not, changes nothing, also if 00h is its
/// answer.
pub fn each_function_aborts_its_tasks()
    ensures abort_task { (s : State) (lun meant : ℕ) → HasUnit s lun →
        (managed s lun 0x01 meant).tasks
        ≡ filter (λ task. not ((task.lun == lun) && (task.tag == meant))) s.tasks }
    ensures abort_task_set { (s : State) (lun meant : ℕ) → HasUnit s lun →
        (managed s lun 0x02 meant).tasks ≡ filter (λ task. not (task.lun == lun)) s.tasks }
    ensures clear_task_set { (s : State) (lun meant : ℕ) → HasUnit s lun →
        (managed s lun 0x04 meant).tasks ≡ filter (λ task. not (task.lun == lun)) s.tasks }
    ensures unit_reset { (s : State) (lun meant : ℕ) → HasUnit s lun →
        (managed s lun 0x08 meant).tasks ≡ filter (λ task. not (task.lun == lun)) s.tasks }
    ensures no_other { (s : State) (lun function meant : ℕ) → aborts function ≡ false →
        managed s lun function meant ≡ s }
    // What becomes of a task that is aborted: `nothing_of_an_aborted_tag_follows`.
    ensures carried_out { (s : State) (lun function meant : ℕ) → HasUnit s lun →
        aborts function ≡ true →
        managed s lun function meant
        ≡ without_tasks (record s { volatile = volatile_managed s lun function }) (is_aborted lun function meant) }
{}

/// No function takes back what was accepted, and what the device has stays as it was. The groups
/// that are not durable yet stay as they are, with the rests of pages that they wait for.
pub fn an_abort_takes_back_nothing()
    ensures commands { (s : State) (lun function meant : ℕ) →
        (managed s lun function meant).accepted ≡ s.accepted }
    ensures contents { (s : State) (lun function meant : ℕ) →
        plain_now (managed s lun function meant) ≡ plain_now s }
    ensures groups { (s : State) (lun function meant : ℕ) →
        (managed s lun function meant).translation.ledger ≡ s.translation.ledger }
    ensures rests { (s : State) (lun function meant : ℕ) →
        (managed s lun function meant).translation.work ≡ s.translation.work }
{}

/// Query task is answered 08h if the task that it names is open, and query task set if any task of
/// its LUN is; else both are answered 00h. A function that there is not is answered 04h (JESD220,
/// 10.7.7).
pub fn a_query_of_tasks_tells_which_are_open()
    ensures task { (s : State) (lun meant : ℕ) → HasUnit s lun → HasTaskOf s lun meant →
        service s lun 0x80 meant ≡ 0x08 }
    ensures no_task { (s : State) (lun meant : ℕ) → HasUnit s lun → (HasTaskOf s lun meant → ⊥) →
        service s lun 0x80 meant ≡ 0x00 }
    ensures task_set { (s : State) (lun meant : ℕ) → HasUnit s lun → HasTask s lun →
        service s lun 0x81 meant ≡ 0x08 }
    ensures no_task_set { (s : State) (lun meant : ℕ) → HasUnit s lun → (HasTask s lun → ⊥) →
        service s lun 0x81 meant ≡ 0x00 }
    ensures no_function { (s : State) (lun function meant : ℕ) → HasUnit s lun →
        (IsAmong functions function → ⊥) → service s lun function meant ≡ 0x04 }
{}
