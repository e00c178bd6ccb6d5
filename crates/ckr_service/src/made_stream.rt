//! The stream that `make` serves.
ghost use Rattle.std.specs.Prelude.{◌≡◌, ◌<◌, ◌%◌, ◌==◌, ◌++◌, [], OnOk, IfOk, codes, if◌then◌else◌};
ghost use Rattle.ckr_service.specs.MadeStream.{line, made_cards, made_commands, made_deck, made_head, made_records, made_stream, made_tail, numbered};

use ckr_base::{NoMemory, last_digits};
use ckr_session::Text;
use std::alloc::Global;

/// The cards of the installation.
pub fn cards(alloc: Global) -> Result<Vec<u8>, NoMemory>
    ensures { IfOk result (λ cards. cards.items ≡ made_cards) }
{
    let mut text = Text::new(alloc);
    text.push(b"INITIATORS 2\nUNITS 1\nBOOK 33554432\nVOLUME GEN001 16777216\n")?;
    Ok(text.into_bytes())
}

fn push_line(text: &[u8], out: &mut Text) -> Result<(), NoMemory>
    ensures { OnOk result (out.new ≡ out.old ++ line text.now) }
{
    out.push(text)?;
    out.push(b"\n")
}

/// A line that has the five digits of a job's number in it.
fn push_numbered(before: &[u8], job: u32, after: &[u8], out: &mut Text) -> Result<(), NoMemory>
    ensures { OnOk result (out.new ≡ out.old ++ numbered before.now job after.now) }
{
    out.push(before)?;
    out.push(&last_digits::<5>(u128::from(job), 5))?;
    out.push(after)?;
    out.push(b"\n")
}

/// So many records of a job.
fn push_records(job: u32, count: u8, out: &mut Text) -> Result<(), NoMemory>
    requires { count < 10 }
    ensures { OnOk result (out.new ≡ out.old ++ made_records job count) }
{
    for number in 0..count {
        push_numbered(b"", job, &[b'-', b'1' + number], out)?;
    }
    Ok(())
}

/// The cards before the records.
fn push_head(job: u32, out: &mut Text) -> Result<(), NoMemory>
    ensures { OnOk result (out.new ≡ out.old ++ made_head job) }
{
    push_numbered(b"//G", job, b" JOB RD=R", out)?;
    push_line(b"//S1 EXEC PGM=COPY,PARM='CHK=3'", out)?;
    push_line(b"//SYSUT1 DD *", out)
}

/// The cards behind the records.
fn push_tail(job: u32, out: &mut Text) -> Result<(), NoMemory>
    ensures { OnOk result (out.new ≡ out.old ++ made_tail job) }
{
    push_line(b"/*", out)?;
    push_numbered(
        b"//SYSUT2 DD DSN=GEN.D",
        job,
        b",DISP=(NEW,CATLG),SPACE=(80,8)",
        out,
    )?;
    push_line(b"//CHKDD DD DSN=&&CHK,SPACE=(256,4)", out)?;
    push_line(b"//", out)
}

fn push_deck(job: u32, out: &mut Text) -> Result<(), NoMemory>
    ensures { OnOk result (out.new ≡ out.old ++ made_deck job) }
{
    push_head(job, out)?;
    push_records(job, 1 + (job % 7) as u8, out)?;
    push_tail(job, out)
}

/// The code with which every fifth job fails.
fn push_failure(job: u32, out: &mut Text) -> Result<(), NoMemory>
    ensures { OnOk result (out.new ≡ out.old ++ (if job % 5 == 0 then line (codes "$F 1 S001") else [])) }
{
    if job % 5 == 0 {
        return push_line(b"$F 1 S001", out);
    }
    Ok(())
}

fn push_commands(job: u32, out: &mut Text) -> Result<(), NoMemory>
    ensures { OnOk result (out.new ≡ out.old ++ made_commands job) }
{
    push_line(b"$T 1 4", out)?;
    push_failure(job, out)?;
    push_line(b"$T 1 99", out)
}

/// The stream of so many jobs.
pub fn stream_of(alloc: Global, jobs: u32) -> Result<Vec<u8>, NoMemory>
    ensures { IfOk result (λ bytes. bytes.items ≡ made_stream jobs) }
{
    let mut text = Text::new(alloc);
    for made in 0..jobs {
        push_deck(made + 1, &mut text)?;
        push_commands(made + 1, &mut text)?;
    }
    Ok(text.into_bytes())
}
