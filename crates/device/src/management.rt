//! Task management: tasks are aborted, or asked for (JESD220, 10.7.6 and 10.7.7).
ghost use Rattle.std.specs.Prelude.{◌≡◌, ◌<◌, None, OnErr, OnOk, length, true};
ghost use Rattle.std.specs.List.{list_any};
ghost use Rattle.ufs_spec.specs.Machine.{heard};
ghost use Rattle.ufs_spec.specs.Management.{service_found, without_tasks};
ghost use Rattle.ufs_spec.specs.Refusals.{State};
ghost use Rattle.ufs_spec.specs.Translation.{Translation};
ghost use Rattle.ufs_spec.specs.declared.Message.{Message};
ghost use Rattle.ftl_core.specs.Public.{Claims, Describes as IsLayer};
ghost use Rattle.task_set.specs.Tasks.{is_task_meant};
ghost use Rattle.device.specs.Describes.{Describes, IsBehind};
ghost use Rattle.device.specs.Hears.{short_answer};
ghost use Rattle.device.specs.Kept.{IsLayerWith};
ghost use Rattle.device.specs.Manages.{HasLetGo, aborted_at, by_function, carried, forgotten};
ghost use Rattle.device.specs.Manages.{function_on, means, reset_left, service_by};

use crate::device::Device;
use crate::queries::at_once;
use lun_route::named_lun;
use task_set::{Frames, Meant, ShortReply, Task};
use ufs_spec::HostFault;
use ufs_spec::codes::{
    ABORT_TASK, ABORT_TASK_SET, CLEAR_TASK_SET, FUNCTION_COMPLETE, FUNCTION_NOT_SUPPORTED,
    FUNCTION_SUCCEEDED, INCORRECT_LUN, LOGICAL_UNIT_RESET, QUERY_TASK, QUERY_TASK_SET,
};

/// What a task management request comes to (JESD220, 10.7.6).
#[derive(Clone, Copy)]
pub enum Managing {
    /// These tasks are aborted.
    Aborts { aborted: Meant },
    /// It is told whether one of these tasks is open.
    Asks { asked: Meant },
    /// There is no such function here.
    NotSupported,
    /// There is no such unit.
    NoUnit,
}

/// What this function comes to on a unit that is there.
fn by_function(lun: u8, function: u8, meant: u8) -> Managing
    ensures { result ≡ by_function lun function meant }
{
    let one = Meant {
        lun: Some(lun),
        tag: Some(meant),
    };
    let all = Meant {
        lun: Some(lun),
        tag: None,
    };
    match function {
        ABORT_TASK => Managing::Aborts { aborted: one },
        ABORT_TASK_SET => Managing::Aborts { aborted: all },
        CLEAR_TASK_SET => Managing::Aborts { aborted: all },
        LOGICAL_UNIT_RESET => Managing::Aborts { aborted: all },
        QUERY_TASK => Managing::Asks { asked: one },
        QUERY_TASK_SET => Managing::Asks { asked: all },
        _ => Managing::NotSupported,
    }
}

impl Device {
    /// Takes a TASK MANAGEMENT REQUEST, which is carried out at once. Its answer waits for nothing.
    ///
    /// # Errors
    ///
    /// Why no short exchange of this tag may be open. Nothing changes then.
    pub(crate) fn manage(
        &mut self,
        lun: u8,
        tag: u8,
        function: u8,
        meant: u8,
    ) -> Result<(), HostFault>
        ensures refused { OnErr result (self.new ≡ self.old) }
        ensures answer { (t : Translation) → IsLayer self.old.ftl t →
            result ≡ short_answer self.old t.numbers true tag }
        ensures taken { (s : State) → Describes self.old s → OnOk result
            (IsBehind self.new (heard s (Message.TaskRequest lun tag function meant) None)) }
    {
        self.may_open_short(true, tag)?;
        let managing = self.function_on(lun, function, meant);
        let service = self.service(managing);
        self.note_reset(lun, function);
        self.carry_out(managing);
        self.push_short(at_once(tag, ShortReply::Managed { lun, service }));
        Ok(())
    }

    /// What this function comes to. Where there is no such unit no function is looked at.
    fn function_on(&self, lun: u8, function: u8, meant: u8) -> Managing
        ensures { (t : Translation) → IsLayer self.now.ftl t →
            result ≡ function_on t.numbers lun function meant }
    {
        if named_lun(self.ftl.numbers(), lun).is_none() {
            return Managing::NoUnit;
        }
        by_function(lun, function, meant)
    }

    /// The service response (JESD220, 10.7.7).
    fn service(&self, managing: Managing) -> u8
        ensures { result ≡ service_by self.now managing }
    {
        match managing {
            Managing::Aborts { aborted: _ } => FUNCTION_COMPLETE,
            Managing::Asks { asked } => self.service_found(asked),
            Managing::NotSupported => FUNCTION_NOT_SUPPORTED,
            Managing::NoUnit => INCORRECT_LUN,
        }
    }

    /// A reset of the logical unit with this LUN byte leaves it an attention (SAM). No other function does.
    fn note_reset(&mut self, lun: u8, function: u8)
        ensures left { self.new ≡ record self.old { volatile = self.new.volatile } }
        ensures noted { (t : Translation) → IsLayer self.old.ftl t →
            self.new.volatile ≡ reset_left t.numbers lun function self.old.volatile }
    {
        if function == LOGICAL_UNIT_RESET {
            self.set_attention(lun, true);
        }
    }

    /// The service response to a question for these tasks.
    fn service_found(&self, asked: Meant) -> u8
        ensures { result ≡ service_found (list_any (is_task_meant asked) self.now.tasks) }
    {
        match self.set.find(asked) {
            Some(_) => FUNCTION_SUCCEEDED,
            None => FUNCTION_COMPLETE,
        }
    }

    /// The tasks that are to be aborted are. A question aborts none, nor does an unknown function.
    fn carry_out(&mut self, managing: Managing)
        ensures left { self.new ≡ record self.old {
          ftl = self.new.ftl;
          rpmb = self.new.rpmb;
          tasks = self.new.tasks;
        } }
        ensures carried { (s : State) → Describes self.old s →
            IsBehind self.new (carried s managing) }
    {
        if let Managing::Aborts { aborted } = managing {
            self.abort_all(aborted);
        }
    }

    /// All tasks that are meant are aborted.
    pub(crate) fn abort_all(&mut self, meant: Meant)
        ensures left { self.new ≡ record self.old {
          ftl = self.new.ftl;
          rpmb = self.new.rpmb;
          tasks = self.new.tasks;
        } }
        ensures aborted { (s : State) → Describes self.old s →
            IsBehind self.new (without_tasks s (means meant)) }
    {
        while let Some(index) = self.set.find(meant) {
            let task = self.set.task(index);
            self.abort(index, task);
        }
    }

    /// The task at this position ends without a reply: what it claimed is given back, it keeps
    /// nothing, and if it brought frames, no register of their RPMB region holds anything. What it
    /// had accepted stays accepted.
    fn abort(&mut self, index: usize, task: Task)
        requires { index < length self.old.tasks }
        ensures left { self.new
            ≡ record (aborted_at self.old index task.frames task.region) { ftl = self.new.ftl } }
        ensures layer { (t : Translation) (claims : Claims) → IsLayerWith self.old.ftl t claims →
            HasLetGo self.new.ftl t claims task.tag }
    {
        self.set.end(index);
        self.let_go(task.tag);
        self.forget_request(task.frames, task.region);
    }

    /// What is claimed for this tag is given back, and what is kept for it is let go.
    fn let_go(&mut self, tag: u8)
        ensures left { self.new ≡ record self.old { ftl = self.new.ftl } }
        ensures layer { (t : Translation) (claims : Claims) → IsLayerWith self.old.ftl t claims →
            HasLetGo self.new.ftl t claims tag }
    {
        self.ftl.release(tag);
        self.ftl.unpin(tag);
    }

    /// A task that had this to do with frames of the region was aborted: if it brought some, the
    /// registers of the region are emptied.
    fn forget_request(&mut self, frames: Frames, region: u8)
        ensures { self.new ≡ forgotten self.old frames region }
    {
        if frames != Frames::NotBrought {
            self.rpmb.forget(region);
        }
    }
}
