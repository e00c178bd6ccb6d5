//! The lines of data sets and of jobs, one behind another.
ghost use Rattle.std.specs.Prelude.{◌≡◌, ◌++◌, OnOk};
ghost use Rattle.std.specs.List.{flat_map};
ghost use Rattle.ckr_desk.specs.Model.Listing.{listed};
ghost use Rattle.ckr_desk.specs.Soundness.{IsTrusted, state_of};
ghost use Rattle.ckr_desk.specs.State.{layout_of};
ghost use Rattle.ckr_report.specs.Listings.{empty_library_text, job_line, no_jobs_text, set_text};
ghost use Rattle.ckr_session.specs.Calls.{JobsListed, SetsListed};
ghost use Rattle.ckr_session.specs.Texts.{answer_text};

use crate::text::Text;
use ckr_base::NoMemory;
use ckr_console::Operator;
use ckr_desk::{Desk, Layout, Listed, Run};
use ckr_outside::Disk;
use ckr_report::{TextLine, empty_library_line, library_line, no_jobs_line};

// ---- data sets

fn no_sets(out: &mut Text) -> Result<(), NoMemory>
    ensures { OnOk result (out.new ≡ out.old ++ empty_library_text) }
{
    let mut line = TextLine::new();
    empty_library_line(&mut line);
    out.push(line.as_slice())
}

fn set_line(layout: &Layout, data_set: &Listed, out: &mut Text) -> Result<(), NoMemory>
    ensures { OnOk result (out.new ≡ out.old ++ set_text layout.now (data_set.now.name, data_set.now.set)) }
{
    let mut line = TextLine::new();
    library_line(&data_set.name, &data_set.set, layout, &mut line);
    out.push(line.as_slice())
}

/// The lines of the data sets, of which there is one.
fn set_lines<D: Disk, O: Operator>(desk: &Desk<D, O>, out: &mut Text) -> Result<(), NoMemory>
    ensures { IsTrusted D.told D.content D.may_leave desk.now → OnOk result (out.new ≡ out.old ++ flat_map (set_text (layout_of desk.now)) (listed (state_of D.content desk.now).desk)) }
{
    let mut place = 0u32;
    loop {
        let Some(line) = desk.set_at(place) else {
            return Ok(());
        };
        set_line(desk.layout(), &line, out)?;
        let Some(next) = place.checked_add(1) else {
            return Err(NoMemory);
        };
        place = next;
    }
}

/// The data sets, in the order of their names.
pub fn sets<D: Disk, O: Operator>(desk: &Desk<D, O>, out: &mut Text) -> Result<(), NoMemory>
    ensures { IsTrusted D.told D.content D.may_leave desk.now → OnOk result (out.new ≡ out.old ++ answer_text (SetsListed (layout_of desk.now) (listed (state_of D.content desk.now).desk))) }
{
    if desk.set_at(0).is_none() {
        return no_sets(out);
    }
    set_lines(desk, out)
}

// ---- jobs

fn no_jobs(out: &mut Text) -> Result<(), NoMemory>
    ensures { OnOk result (out.new ≡ out.old ++ no_jobs_text) }
{
    let mut line = TextLine::new();
    no_jobs_line(&mut line);
    out.push(line.as_slice())
}

fn job_line(run: &Run, out: &mut Text) -> Result<(), NoMemory>
    ensures { OnOk result (out.new ≡ out.old ++ job_line run.now) }
{
    let mut line = TextLine::new();
    ckr_report::job_line(run, &mut line);
    out.push(line.as_slice())
}

fn job_lines(runs: &[Run], out: &mut Text) -> Result<(), NoMemory>
    ensures { OnOk result (out.new ≡ out.old ++ flat_map job_line runs.now) }
{
    for run in runs {
        job_line(run, out)?;
    }
    Ok(())
}

/// The jobs, in the order of their numbers.
pub fn jobs(runs: &[Run], out: &mut Text) -> Result<(), NoMemory>
    ensures { OnOk result (out.new ≡ out.old ++ answer_text (JobsListed runs.now)) }
{
    if runs.is_empty() {
        return no_jobs(out);
    }
    job_lines(runs, out)
}
