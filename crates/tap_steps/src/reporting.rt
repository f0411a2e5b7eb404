//! Reports of listeners.

ghost use Rattle.std.specs.Prelude.{map, IfOk};
ghost use Rattle.std.specs.List.{AllZip};
ghost use Rattle.tap_steps.specs.Watching.{Tells, IsFollowed};

use crate::answer::Answered;
use crate::report::Report;
use crate::watched::Watched;
use std::alloc::{AllocError, Global};

/// The reports.
pub fn report_all(alloc: Global, watched: Vec<Watched>) -> Result<Vec<Report>, AllocError>
    ensures { IfOk result (λ rs. AllZip Tells watched.items rs.items) }
{
    let mut reports = Vec::with_capacity(alloc, watched.len())?;
    for one in watched {
        let (report, _answers) = one.report(alloc)?;
        reports.push(report)?;
    }
    Ok(reports)
}

/// The reports, and the answers that were followed.
pub fn trace_all(
    alloc: Global,
    watched: Vec<Watched>,
) -> Result<(Vec<Report>, Vec<Vec<Answered>>), AllocError>
    ensures reports { IfOk result (λ r. AllZip Tells watched.items r.0.items) }
    ensures answers { IfOk result (λ r. AllZip IsFollowed watched.items (map (λ a. a.items) r.1.items)) }
{
    let mut reports = Vec::with_capacity(alloc, watched.len())?;
    let mut answers = Vec::with_capacity(alloc, watched.len())?;
    for one in watched {
        let (report, own) = one.report(alloc)?;
        reports.push(report)?;
        answers.push(own.unwrap_or(Vec::new(alloc)))?;
    }
    Ok((reports, answers))
}
