//! Where a step's program finds its records, and where its records go.
ghost use Rattle.std.specs.Prelude.{◌≡◌, ◌≤◌, IfOk, find, slice_get, option_and_then};
ghost use Rattle.std.specs.Option.{option_copied};
ghost use Rattle.ckr_library.specs.NameMaps.{same_name};
ghost use Rattle.ckr_steps.specs.Files.{dd_in, input_dd, main_dd, dd_of_rejects, source_in, set_in, files_of};

use ckr_base::{DsName, Duplicate, NoMemory};
use ckr_jcl::{Cards, Dd, Kind, Origin, Step};
use ckr_uses::library_name;
use std::alloc::Global;

/// Where the records of an input are.
#[derive(Drop)]
pub enum RecordSource {
    /// The program has no such input, or the DD has no records.
    Nowhere,
    /// In the deck.
    InDeck(Cards),
    /// In the data set of this name.
    InSet(DsName),
}

/// The inputs and the outputs of a step's program. What is updated in place is the first input.
#[derive(Drop)]
pub struct Files {
    pub first: RecordSource,
    pub second: RecordSource,
    /// The data set of the output. None where the program has none.
    pub main: Option<DsName>,
    /// The data set of the rejects. None where the program has none.
    pub rejects: Option<DsName>,
}

/// Whether a DD has this name.
fn is_named(name: &[u8], dd: &Dd) -> bool
    ensures { result ≡ same_name name.now dd.now.name }
{
    name.cmp(dd.name.text()).is_eq()
}

/// The DD of that name in a step.
fn dd_in<'a>(step: &'a Step, name: &[u8]) -> Option<&'a Dd>
    ensures { option_copied result ≡ dd_in step.now name.now }
{
    step.dds.as_slice().iter().find(|dd| is_named(name, dd))
}

/// The DD of the first input.
fn first_dd(step: &Step) -> Option<&Dd>
    ensures { option_copied result ≡ input_dd step.now 0 }
{
    match step.program {
        Kind::Copy | Kind::Select | Kind::Print => dd_in(step, b"SYSUT1"),
        Kind::Merge => dd_in(step, b"IN1"),
        Kind::Master => dd_in(step, b"OLDMAST"),
        Kind::Update => dd_in(step, b"MASTER"),
        Kind::Br14 => None,
    }
}

/// The DD of the second input.
fn second_dd(step: &Step) -> Option<&Dd>
    ensures { option_copied result ≡ input_dd step.now 1 }
{
    match step.program {
        Kind::Merge => dd_in(step, b"IN2"),
        Kind::Master | Kind::Update => dd_in(step, b"TRANS"),
        Kind::Copy | Kind::Select | Kind::Print | Kind::Br14 => None,
    }
}

/// The DD of the output.
fn main_dd(step: &Step) -> Option<&Dd>
    ensures { option_copied result ≡ main_dd step.now }
{
    match step.program {
        Kind::Copy | Kind::Select => dd_in(step, b"SYSUT2"),
        Kind::Merge => dd_in(step, b"OUT"),
        Kind::Master => dd_in(step, b"NEWMAST"),
        Kind::Print => dd_in(step, b"SYSPRINT"),
        Kind::Update | Kind::Br14 => None,
    }
}

/// The DD of the rejects.
fn rejects_dd(step: &Step) -> Option<&Dd>
    ensures { option_copied result ≡ dd_of_rejects step.now }
{
    match step.program {
        Kind::Master | Kind::Update => dd_in(step, b"REJECTS"),
        Kind::Copy | Kind::Select | Kind::Merge | Kind::Print | Kind::Br14 => None,
    }
}

/// Where the records in a DD are.
fn source_in(
    alloc: Global,
    step: &Step,
    root: u32,
    owner: u32,
    dd: Option<&Dd>,
) -> Result<RecordSource, NoMemory>
    requires root { root ≤ 9999999 }
    requires owner { owner ≤ 9999999 }
    ensures { IfOk result (λ source. source ≡ source_in root owner step.now (option_copied dd.entry)) }
{
    let Some(dd) = dd else {
        return Ok(RecordSource::Nowhere);
    };
    if let Origin::InStream(cards) = &dd.origin {
        return Ok(RecordSource::InDeck(cards.duplicate(alloc)?));
    }
    match library_name(dd, root, owner, &step.name) {
        Some(name) => Ok(RecordSource::InSet(name)),
        None => Ok(RecordSource::Nowhere),
    }
}

/// The data set of a DD.
fn set_in(step: &Step, root: u32, owner: u32, dd: Option<&Dd>) -> Option<DsName>
    requires root { root ≤ 9999999 }
    requires owner { owner ≤ 9999999 }
    ensures { result ≡ set_in root owner step.now (option_copied dd.entry) }
{
    match dd {
        Some(dd) => library_name(dd, root, owner, &step.name),
        None => None,
    }
}

/// The inputs and the outputs of a step's program, by the numbers of the run's root and of the step's owner.
#[tactic(auto, unfolding(crate::specs::Files::files_of))]
pub(crate) fn files_of(alloc: Global, step: &Step, root: u32, owner: u32) -> Result<Files, NoMemory>
    requires root { root ≤ 9999999 }
    requires owner { owner ≤ 9999999 }
    ensures { IfOk result (λ files. files ≡ files_of root owner step.now) }
{
    let first = source_in(alloc, step, root, owner, first_dd(step))?;
    let second = source_in(alloc, step, root, owner, second_dd(step))?;
    Ok(Files {
        first,
        second,
        main: set_in(step, root, owner, main_dd(step)),
        rejects: set_in(step, root, owner, rejects_dd(step)),
    })
}
