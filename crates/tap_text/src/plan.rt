//! What LISTENERS and SCRIPT ask for.

ghost use Rattle.std.specs.Prelude.{IfOk, IfErr};
ghost use Rattle.line_text.specs.Files.{IsFileOf};
ghost use Rattle.tap_text.specs.Listeners.{AreFirstOf};
ghost use Rattle.tap_text.specs.Script.{IsStepLine};
ghost use Rattle.tap_text.specs.Plans.{IsRefusedFiles};

use crate::listeners::read_listeners;
use crate::script::read_script;
use line_text::LineFault;
use std::alloc::Global;
use tap::{Spec, Step};

/// What the files LISTENERS and SCRIPT ask for.
#[derive(Drop)]
pub struct StepsPlan {
    pub specs: Vec<Spec>,
    pub steps: Vec<Step>,
}

/// Reads LISTENERS and SCRIPT. A bad line of LISTENERS is reported before one of SCRIPT. At most 65
/// listeners are kept, one more than a replay takes, so that [`play_plan`] finds that there are too
/// many.
///
/// [`play_plan`]: crate::steps::play_plan
pub fn read_plan(alloc: Global, listeners: &[u8], script: &[u8]) -> Result<StepsPlan, LineFault>
    ensures listeners { IfOk result (λ plan. AreFirstOf listeners.now plan.specs.items) }
    ensures script { IfOk result (λ plan. IsFileOf IsStepLine script.now plan.steps.items) }
    ensures fault { IfErr result (λ fault. IsRefusedFiles listeners.now script.now fault) }
{
    let specs = read_listeners(alloc, listeners)?;
    let steps = read_script(alloc, script)?;
    Ok(StepsPlan { specs, steps })
}
