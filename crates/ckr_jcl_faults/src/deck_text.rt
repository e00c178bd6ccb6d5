//! What the statements of a deck say, as it is written: the job, its steps and their DDs.
ghost use Rattle.std.specs.Prelude.{◌≡◌, IsTrue, IfOk, Option, List, [], ◌||◌, ◌++◌, codes, unwrap_or};
ghost use Rattle.std.specs.List.{list_any};
ghost use Rattle.std.specs.Option.{option_map, is_some};
ghost use Rattle.ckr_base.specs.Grammar.{is_name8};
ghost use Rattle.ckr_cards.specs.Statement.{name_in, is_dd, is_exec, is_named};
ghost use Rattle.ckr_jcl_operands.specs.JobValues.{rd_value, restart_value, parm_value};
ghost use Rattle.ckr_jcl_operands.specs.DdValues.{dsn_value, disp_of, disp_value, vol_value, space_value};
ghost use Rattle.ckr_jcl_operands.specs.DcbValues.{no_dcb, dcb_value};
ghost use Rattle.ckr_jcl_operands.specs.Keywords.{value_of, meaning_of};
ghost use Rattle.ckr_jcl.specs.Programs.{program_named, role_of};
ghost use Rattle.ckr_jcl_faults.specs.DeckText.{is_positional_word, has_word, dd_text, role_in, step_text, with_dd, job_text, current_step, closed, with_step, dd_in, with_statement, deck_text};

use arrayvec::ArrayVec;
use ckr_base::{ItemList, Name8, NoMemory};
use ckr_cards::{CardList, Operand, Statement, StatementKind};
use ckr_jcl::{Disp, Kind, Rd, Role, is_spelled, program_named, role_of};
use ckr_jcl_operands::{
    DcbText, DsnText, ParmText, RestartText, VolText, dcb_value, disp_of, disp_value, dsn_value,
    no_dcb, parm_value, rd_value, restart_value, space_value, value_of, vol_value,
};
use std::alloc::Global;

/// A DD statement.
#[derive(Drop)]
pub struct DdText {
    /// The number of its first card.
    pub card: u32,
    pub name: Name8,
    pub role: Role,
    /// Whether `*` or `DATA` stands in it.
    pub in_stream: bool,
    pub dummy: bool,
    pub sysout: bool,
    pub dsn: Option<DsnText>,
    pub disp: Disp,
    pub volume: Option<VolText>,
    /// The space in records, where 1,000,001 stands for each one that is too large.
    pub space: Option<u32>,
    pub dcb: DcbText,
    /// The cards of its records.
    pub records: CardList,
}

/// An EXEC statement with its DDs.
#[derive(Drop)]
pub struct StepText {
    /// The number of its first card.
    pub card: u32,
    pub name: Name8,
    pub rd: Option<Rd>,
    /// None where PGM is missing or names no program.
    pub program: Option<Kind>,
    pub parm: ParmText,
    pub dds: ItemList<DdText>,
}

/// A JOB statement with its steps.
#[derive(Drop)]
pub struct JobText {
    /// The number of its first card.
    pub card: u32,
    pub name: Name8,
    pub rd: Option<Rd>,
    pub restart: Option<RestartText>,
    pub syschk: Option<DdText>,
    pub steps: ItemList<StepText>,
    /// The step whose DDs are being read.
    pub current: Option<StepText>,
}

/// Whether an operand is a word alone.
fn is_positional_word(word: &[u8], operand: &Operand) -> bool
    ensures { result ≡ is_positional_word word.now operand.now }
{
    !operand.is_keyword && is_spelled(word, operand.value.as_slice())
}

/// Whether a word stands alone in a statement.
fn has_word(word: &[u8], statement: &Statement) -> bool
    ensures { result ≡ has_word word.now statement.now }
{
    statement
        .operands
        .as_slice()
        .iter()
        .any(|operand| is_positional_word(word, operand))
}

/// The well formed name of a statement.
fn name_of(statement: &Statement) -> Name8
    requires { IsTrue (is_name8 (name_in statement.now)) }
    ensures { result ≡ name_in statement.now }
{
    match Name8::read(statement.name()) {
        Some(name) => name,
        None => unreachable!(),
    }
}

/// The disposition of a DD, which is NEW where none is given.
fn disp_in(statement: &Statement) -> Disp
    ensures { result ≡ unwrap_or (meaning_of (codes "DISP") disp_value statement.now) (disp_of Option.None Option.None Option.None) }
{
    match value_of(b"DISP", statement) {
        Some(text) => match disp_value(text) {
            Some(disp) => disp,
            None => disp_of(None, None, None),
        },
        None => disp_of(None, None, None),
    }
}

/// The data set name of a DD.
fn dsn_in(statement: &Statement) -> Option<DsnText>
    ensures { result ≡ option_map dsn_value (value_of (codes "DSN") statement.now) }
{
    match value_of(b"DSN", statement) {
        Some(text) => Some(dsn_value(text)),
        None => None,
    }
}

/// The volume of a DD.
fn volume_in(statement: &Statement) -> Option<VolText>
    ensures { result ≡ meaning_of (codes "VOL") vol_value statement.now }
{
    match value_of(b"VOL", statement) {
        Some(text) => vol_value(text),
        None => None,
    }
}

/// The space of a DD.
fn space_in(statement: &Statement) -> Option<u32>
    ensures { result ≡ meaning_of (codes "SPACE") space_value statement.now }
{
    match value_of(b"SPACE", statement) {
        Some(text) => space_value(text),
        None => None,
    }
}

/// The DCB of a DD.
fn dcb_in(statement: &Statement) -> DcbText
    ensures { result ≡ unwrap_or (meaning_of (codes "DCB") dcb_value statement.now) no_dcb }
{
    match value_of(b"DCB", statement) {
        Some(text) => match dcb_value(text) {
            Some(dcb) => dcb,
            None => no_dcb(),
        },
        None => no_dcb(),
    }
}

/// Whether a DD is a printer's.
fn has_sysout(statement: &Statement) -> bool
    ensures { result ≡ is_some (value_of (codes "SYSOUT") statement.now) }
{
    value_of(b"SYSOUT", statement).is_some()
}

/// Whether the records of a DD are in the deck.
fn is_in_stream(statement: &Statement) -> bool
    ensures { result ≡ (has_word (codes "*") statement.now || has_word (codes "DATA") statement.now) }
{
    has_word(b"*", statement) || has_word(b"DATA", statement)
}

/// A DD of a role.
#[tactic(auto, unfolding(crate::specs::DeckText::dd_text))]
fn dd_text(role: Role, statement: Statement) -> DdText
    requires { IsTrue (is_name8 (name_in statement)) }
    ensures { result ≡ dd_text role statement }
{
    let card = statement.first.number;
    let name = name_of(&statement);
    let in_stream = is_in_stream(&statement);
    let dummy = has_word(b"DUMMY", &statement);
    let sysout = has_sysout(&statement);
    let dsn = dsn_in(&statement);
    let disp = disp_in(&statement);
    let volume = volume_in(&statement);
    let space = space_in(&statement);
    let dcb = dcb_in(&statement);
    DdText {
        card,
        name,
        role,
        in_stream,
        dummy,
        sysout,
        dsn,
        disp,
        volume,
        space,
        dcb,
        records: statement.records,
    }
}

/// The role that the program of a step has for a name.
fn role_in(program: Option<Kind>, name: &[u8]) -> Role
    ensures { result ≡ role_in program name.now }
{
    match program {
        Some(kind) => role_of(kind, name),
        None => Role::Unused,
    }
}

/// The request for restarts of a JOB or EXEC.
fn rd_in(statement: &Statement) -> Option<Rd>
    ensures { result ≡ meaning_of (codes "RD") rd_value statement.now }
{
    match value_of(b"RD", statement) {
        Some(text) => rd_value(text),
        None => None,
    }
}

/// The program of an EXEC.
fn program_in(statement: &Statement) -> Option<Kind>
    ensures { result ≡ meaning_of (codes "PGM") program_named statement.now }
{
    match value_of(b"PGM", statement) {
        Some(text) => program_named(text),
        None => None,
    }
}

/// The text of PARM of an EXEC, which is empty where none is given.
fn parm_in(statement: &Statement) -> ParmText
    ensures { result.items ≡ unwrap_or (meaning_of (codes "PARM") parm_value statement.now) [] }
{
    match value_of(b"PARM", statement) {
        Some(text) => match parm_value(text) {
            Some(parm) => parm,
            None => ArrayVec::new(),
        },
        None => ArrayVec::new(),
    }
}

/// A step whose DDs weren't read yet.
#[tactic(auto, unfolding(crate::specs::DeckText::step_text))]
fn step_text(alloc: Global, statement: &Statement) -> StepText
    requires { IsTrue (is_name8 (name_in statement.now)) }
    ensures { result ≡ step_text statement.now }
{
    StepText {
        card: statement.first.number,
        name: name_of(statement),
        rd: rd_in(statement),
        program: program_in(statement),
        parm: parm_in(statement),
        dds: ItemList::new(alloc),
    }
}

/// A step with one more DD.
#[tactic(auto, unfolding(crate::specs::DeckText::with_dd))]
fn with_dd(mut step: StepText, statement: Statement) -> Result<StepText, NoMemory>
    requires { IsTrue (is_name8 (name_in statement)) }
    ensures { IfOk result (λ made. made ≡ with_dd step statement) }
{
    let role = role_in(step.program, statement.name());
    step.dds.push(dd_text(role, statement))?;
    Ok(step)
}

/// The steps that have ended and the one whose DDs were being read.
fn with_current(
    mut steps: ItemList<StepText>,
    current: Option<StepText>,
) -> Result<ItemList<StepText>, NoMemory>
    ensures { IfOk result (λ all. all ≡ steps ++ current_step current) }
{
    match current {
        Some(step) => {
            steps.push(step)?;
            Ok(steps)
        }
        None => Ok(steps),
    }
}

/// What RESTART of a JOB says.
fn restart_in(statement: &Statement) -> Option<RestartText>
    ensures { result ≡ meaning_of (codes "RESTART") restart_value statement.now }
{
    match value_of(b"RESTART", statement) {
        Some(text) => restart_value(text),
        None => None,
    }
}

impl JobText {
    /// A job whose steps weren't read yet.
    #[tactic(auto, unfolding(crate::specs::DeckText::job_text))]
    pub fn new(alloc: Global, statement: &Statement) -> JobText
        requires { IsTrue (is_name8 (name_in statement.now)) }
        ensures { result ≡ job_text statement.now }
    {
        JobText {
            card: statement.first.number,
            name: name_of(statement),
            rd: rd_in(statement),
            restart: restart_in(statement),
            syschk: None,
            steps: ItemList::new(alloc),
            current: None,
        }
    }

    /// The step whose DDs are read has ended.
    #[tactic(auto, unfolding(crate::specs::DeckText::closed))]
    pub fn closed(self) -> Result<JobText, NoMemory>
        ensures { IfOk result (λ job. job ≡ closed self) }
    {
        let JobText {
            card,
            name,
            rd,
            restart,
            syschk,
            steps,
            current,
        } = self;
        let steps = with_current(steps, current)?;
        Ok(JobText {
            card,
            name,
            rd,
            restart,
            syschk,
            steps,
            current: None,
        })
    }

    /// With one more step.
    #[tactic(auto, unfolding(crate::specs::DeckText::with_step))]
    fn with_step(self, alloc: Global, statement: &Statement) -> Result<JobText, NoMemory>
        requires { IsTrue (is_name8 (name_in statement.now)) }
        ensures { IfOk result (λ job. job ≡ with_step self statement.now) }
    {
        let mut job = self.closed()?;
        job.current = Some(step_text(alloc, statement));
        Ok(job)
    }

    /// With one more DD.
    fn with_dd(self, statement: Statement) -> Result<JobText, NoMemory>
        requires { IsTrue (is_name8 (name_in statement)) }
        ensures { IfOk result (λ job. job ≡ dd_in self self.current statement) }
    {
        let JobText {
            card,
            name,
            rd,
            restart,
            syschk,
            steps,
            current,
        } = self;
        match current {
            Some(step) => {
                let step = with_dd(step, statement)?;
                Ok(JobText {
                    card,
                    name,
                    rd,
                    restart,
                    syschk,
                    steps,
                    current: Some(step),
                })
            }
            None => Ok(JobText {
                card,
                name,
                rd,
                restart,
                syschk: Some(dd_text(Role::Unused, statement)),
                steps,
                current: None,
            }),
        }
    }

    /// With one more statement, whose name is well formed where it has one.
    #[tactic(auto, unfolding(crate::specs::DeckText::with_statement))]
    pub fn with_statement(self, alloc: Global, statement: Statement) -> Result<JobText, NoMemory>
        requires { IsTrue (is_named statement.kind) → IsTrue (is_name8 (name_in statement)) }
        ensures { IfOk result (λ job. job ≡ with_statement self statement) }
    {
        match statement.kind {
            StatementKind::Exec => self.with_step(alloc, &statement),
            StatementKind::Dd => self.with_dd(statement),
            _ => Ok(self),
        }
    }
}
