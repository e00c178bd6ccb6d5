//! The lines for answers, each behind the lines before it.
ghost use Rattle.std.specs.Prelude.{◌≡◌, [], ◌++◌, OnOk, unwrap_or};
ghost use Rattle.std.specs.Option.{option_copied};
ghost use Rattle.ckr_desk.specs.Model.Plans.{IsToldReply};
ghost use Rattle.ckr_report.specs.Listings.{record_text};
ghost use Rattle.ckr_report.specs.Replies.{reply_text};
ghost use Rattle.ckr_session.specs.Calls.{Accepted, Changed, DeckRefused, LineRefused, Listed, Shifted};
ghost use Rattle.ckr_session.specs.Texts.{answer_text};

use crate::orders::JobChange;
use crate::text::Text;
use ckr_base::{Name8, NoMemory, Rec};
use ckr_desk::{Layout, Reply};
use ckr_report::{
    TextLine, acceptance_line, deck_refusal_line, operator_line, purge_line, refusal_line,
    release_line,
};

/// The line for a deck that is accepted.
pub fn accepted(number: u32, name: Option<&Name8>, out: &mut Text) -> Result<(), NoMemory>
    ensures { OnOk result (out.new ≡ out.old ++ answer_text (Accepted number (unwrap_or (option_copied name.entry) []))) }
{
    let mut line = TextLine::new();
    acceptance_line(number, name, &mut line);
    out.push(line.as_slice())
}

/// The line for a deck that is refused by the rule of a number, at a card.
pub fn deck_refused(number: u8, card: u32, out: &mut Text) -> Result<(), NoMemory>
    ensures { OnOk result (out.new ≡ out.old ++ answer_text (DeckRefused number card)) }
{
    let mut line = TextLine::new();
    deck_refusal_line(number, card, &mut line);
    out.push(line.as_slice())
}

/// The line for a line that is refused.
pub fn line_refused(number: u32, out: &mut Text) -> Result<(), NoMemory>
    ensures { OnOk result (out.new ≡ out.old ++ answer_text (LineRefused number)) }
{
    let mut line = TextLine::new();
    refusal_line(number, &mut line);
    out.push(line.as_slice())
}

/// The line for a job that was changed.
pub fn changed(change: JobChange, job: u32, out: &mut Text) -> Result<(), NoMemory>
    ensures { OnOk result (out.new ≡ out.old ++ answer_text (Changed change job)) }
{
    let mut line = TextLine::new();
    match change {
        JobChange::Purge => purge_line(job, &mut line),
        JobChange::Release => release_line(job, &mut line),
    }
    out.push(line.as_slice())
}

/// The line for an operator who has taken office, by his place among all.
pub fn shifted(place: u64, out: &mut Text) -> Result<(), NoMemory>
    ensures { OnOk result (out.new ≡ out.old ++ answer_text (Shifted place)) }
{
    let mut line = TextLine::new();
    operator_line(place, &mut line);
    out.push(line.as_slice())
}

/// The line for so many replies of an initiator in a row, of which this is the last.
pub fn reply_line(
    layout: &Layout,
    initiator: u8,
    reply: &Reply,
    times: u32,
    out: &mut Text,
) -> Result<(), NoMemory>
    requires { IsToldReply reply.now }
    ensures { OnOk result (out.new ≡ out.old ++ reply_text layout.now initiator reply.now times) }
{
    let mut line = TextLine::new();
    ckr_report::reply_line(initiator, reply, times, layout, &mut line);
    out.push(line.as_slice())
}

fn record_line(rec: &Rec, out: &mut Text) -> Result<(), NoMemory>
    ensures { OnOk result (out.new ≡ out.old ++ record_text rec.now) }
{
    let mut line = TextLine::new();
    ckr_report::record_line(rec, &mut line);
    out.push(line.as_slice())
}

/// The lines of the records of a data set.
pub fn listed(records: &[Rec], out: &mut Text) -> Result<(), NoMemory>
    ensures { OnOk result (out.new ≡ out.old ++ answer_text (Listed records.now)) }
{
    for rec in records {
        record_line(rec, out)?;
    }
    Ok(())
}
