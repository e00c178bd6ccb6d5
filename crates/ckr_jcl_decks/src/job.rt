//! The job of a deck that is accepted.
ghost use Rattle.std.specs.Prelude.{◌≡◌, ◌+◌, ◌≤◌, ◌||◌, IfOk, IfSome, List, [], ◌∷◌, ◌++◌, length, map, filter_map, codes};
ghost use Rattle.std.specs.Option.{option_map, option_and_then};
ghost use Rattle.ckr_jcl_operands.specs.DdValues.{disp_of};
ghost use Rattle.ckr_jcl_faults.specs.DdFaults.{is_chkdd};
ghost use Rattle.ckr_jcl_decks.specs.DeckFaults.{parm_of, step_place};
ghost use Rattle.ckr_jcl_decks.specs.Deck.{bytes_of, named_origin, origin_of, disposition_of, volumes_of, space_of, default_length, record_length, dd_of, syschk_of, step_with, step_of, restart_at, restart_of, job_of};

use crate::deck_faults::{parm_of, step_place};
use arrayvec::ArrayVec;
use ckr_base::{CheckId, NoMemory, Volser};
use ckr_cards::Card;
use ckr_jcl::{
    After, CardImage, Cards, Conds, Dd, Dds, Disp, Job, Kind, Origin, Restart, Status, Step, Steps,
    is_spelled,
};
use ckr_jcl_faults::{DdText, JobText, StepText, is_chkdd};
use ckr_jcl_operands::{DsnText, RestartText, VolText, disp_of};
use std::alloc::Global;

/// The records of a DD in the deck.
fn records_of(alloc: Global, cards: &[Card]) -> Result<Cards, NoMemory>
    ensures { IfOk result (λ records. records ≡ map bytes_of cards.now) }
{
    let mut records = Cards::new(alloc);
    for card in cards {
        records.push(CardImage::of(&card.bytes))?;
    }
    Ok(records)
}

/// Where the records of a DD with this name are.
#[tactic(auto, unfolding(crate::specs::Deck::named_origin))]
fn named_origin(dsn: &Option<DsnText>) -> Origin
    ensures { result ≡ named_origin dsn.now }
{
    match dsn {
        Some(DsnText::Permanent(name)) => Origin::Named(name.copied()),
        Some(DsnText::Passing(name)) => Origin::Temporary(name.copied()),
        _ => Origin::Unnamed,
    }
}

/// Where the records of a DD are.
#[tactic(auto, unfolding(crate::specs::Deck::origin_of))]
fn origin_of(alloc: Global, dd: &DdText) -> Result<Origin, NoMemory>
    ensures { IfOk result (λ origin. origin ≡ origin_of dd.now) }
{
    if dd.in_stream {
        let records = records_of(alloc, dd.records.as_slice())?;
        return Ok(Origin::InStream(records));
    }
    if dd.dummy {
        return Ok(Origin::Dummy);
    }
    if dd.sysout {
        return Ok(Origin::Sysout);
    }
    Ok(named_origin(&dd.dsn))
}

/// The disposition of a DD; what is for the printer is kept.
#[tactic(auto, unfolding(crate::specs::Deck::disposition_of))]
fn disposition_of(dd: &DdText) -> Disp
    ensures { result ≡ disposition_of dd.now }
{
    if dd.sysout {
        return disp_of(Some(Status::New), Some(After::Keep), Some(After::Keep));
    }
    dd.disp
}

/// The volumes that VOL names.
fn volumes_of(volume: &Option<VolText>) -> ArrayVec<Volser, 5>
    ensures { result.items ≡ volumes_of volume.now }
{
    let mut volumes = ArrayVec::new();
    if let Some(VolText::Serial(serial)) = volume {
        volumes.push(serial.copied());
    }
    volumes
}

/// The space of a DD in records.
#[tactic(auto, unfolding(crate::specs::Deck::space_of))]
fn space_of(dd: &DdText) -> Option<u32>
    ensures { result ≡ space_of dd.now }
{
    if dd.sysout {
        return Some(dd.space.unwrap_or(500));
    }
    dd.space
}

/// The record length of a DD where none is given.
fn default_length(dd: &DdText) -> u16
    ensures { result ≡ default_length dd.now }
{
    if dd.sysout || is_spelled(b"SYSPRINT", dd.name.text()) {
        return 133;
    }
    80
}

/// The record length of a DD.
#[tactic(auto, unfolding(crate::specs::Deck::record_length))]
fn record_length(dd: &DdText) -> u16
    ensures { result ≡ record_length dd.now }
{
    if dd.in_stream {
        return 80;
    }
    if is_chkdd(dd) {
        return 256;
    }
    match dd.dcb.length {
        Some(length) => length,
        None => default_length(dd),
    }
}

/// A DD of a step.
#[tactic(auto, unfolding(crate::specs::Deck::dd_of))]
fn dd_of(alloc: Global, dd: &DdText) -> Result<Dd, NoMemory>
    ensures { IfOk result (λ made. made ≡ dd_of dd.now) }
{
    Ok(Dd {
        name: dd.name.copied(),
        role: dd.role,
        origin: origin_of(alloc, dd)?,
        disp: disposition_of(dd),
        volumes: volumes_of(&dd.volume),
        space: space_of(dd),
        lrecl: record_length(dd),
    })
}

/// The DDs of a step.
fn dds_of(alloc: Global, dds: &[DdText]) -> Result<Dds, NoMemory>
    ensures { IfOk result (λ made. made ≡ map dd_of dds.now) }
{
    let mut made = Dds::new(alloc);
    for dd in dds {
        made.push(dd_of(alloc, dd)?)?;
    }
    Ok(made)
}

/// The DD of the checkpoint data set that a job is restarted from.
#[tactic(auto, unfolding(crate::specs::Deck::syschk_of))]
fn syschk_of(dd: &DdText) -> Dd
    ensures { result ≡ syschk_of dd.now }
{
    Dd {
        name: dd.name.copied(),
        role: dd.role,
        origin: named_origin(&dd.dsn),
        disp: dd.disp,
        volumes: volumes_of(&dd.volume),
        space: None,
        lrecl: 256,
    }
}

/// A step of a program.
#[tactic(auto, unfolding(crate::specs::Deck::step_with))]
fn step_with(alloc: Global, step: &StepText, kind: Kind) -> Result<Step, NoMemory>
    ensures { IfOk result (λ made. made ≡ step_with step.now kind) }
{
    Ok(Step {
        name: step.name.copied(),
        program: kind,
        parm: parm_of(kind, step.parm.as_slice()),
        rd: step.rd,
        cond: Conds::new(alloc),
        dds: dds_of(alloc, step.dds.as_slice())?,
    })
}

/// The steps of a job and one more, where it has a program.
fn with_step(alloc: Global, mut made: Steps, step: &StepText) -> Result<Steps, NoMemory>
    ensures { IfOk result (λ all. all ≡ made ++ filter_map step_of (step.now ∷ [])) }
{
    match step.program {
        Some(kind) => {
            made.push(step_with(alloc, step, kind)?)?;
            Ok(made)
        }
        None => Ok(made),
    }
}

/// The steps of a job.
fn steps_of(alloc: Global, steps: &[StepText]) -> Result<Steps, NoMemory>
    ensures { IfOk result (λ made. made ≡ filter_map step_of steps.now) }
{
    let mut made = Steps::new(alloc);
    for step in steps {
        made = with_step(alloc, made, step)?;
    }
    Ok(made)
}

/// Another identifier of the same text.
fn copied_id(id: &Option<CheckId>) -> Option<CheckId>
    ensures { result ≡ id.now }
{
    match id {
        Some(id) => Some(id.copied()),
        None => None,
    }
}

/// Where a job of at most 64 steps begins again.
#[tactic(auto, unfolding(crate::specs::Deck::restart_of))]
fn restart_of(steps: &[StepText], restart: &RestartText) -> Option<Restart>
    requires { length steps.now ≤ 64 }
    ensures { result ≡ restart_of steps.now restart.now }
{
    match step_place(&restart.step, steps) {
        Some(place) => Some(Restart {
            step: place as u8 + 1,
            id: copied_id(&restart.id),
        }),
        None => None,
    }
}

/// Where a job of at most 64 steps begins again, if it does.
fn restart_in(job: &JobText) -> Option<Restart>
    requires { length job.now.steps ≤ 64 }
    ensures { result ≡ option_and_then (restart_of job.now.steps) job.now.restart }
{
    match &job.restart {
        Some(restart) => restart_of(job.steps.as_slice(), restart),
        None => None,
    }
}

/// The DD of the checkpoint data set, where there is one.
fn syschk_in(job: &JobText) -> Option<Dd>
    ensures { result ≡ option_map syschk_of job.now.syschk }
{
    match &job.syschk {
        Some(dd) => Some(syschk_of(dd)),
        None => None,
    }
}

/// The job of a deck of at most 64 steps.
#[tactic(auto, unfolding(crate::specs::Deck::job_of))]
pub(crate) fn job_of(alloc: Global, job: &JobText) -> Result<Job, NoMemory>
    requires { length job.now.steps ≤ 64 }
    ensures { IfOk result (λ made. made ≡ job_of job.now) }
{
    Ok(Job {
        name: job.name.copied(),
        rd: job.rd,
        cond: Conds::new(alloc),
        restart: restart_in(job),
        syschk: syschk_in(job),
        steps: steps_of(alloc, job.steps.as_slice())?,
    })
}
