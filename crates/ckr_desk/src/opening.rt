//! The disk as it is opened: its layout, and the jobs that its events have brought about.
ghost use Rattle.std.specs.Prelude.{◌≡◌, ◌≤◌, ◌+◌, ◌<◌, [], IfOk, IfErr, OnOk, IsTrue, Ok, Err, None, take, drop};
ghost use Rattle.ckr_desk_refines.specs.Memory.EventChanges.{failed_in};
ghost use Rattle.ckr_desk_refines.specs.Memory.Holders.{AreHolders};
ghost use Rattle.ckr_desk_refines.specs.Memory.Invariant.{AreJobs};
ghost use Rattle.ckr_desk_turn.specs.Queue.{AreNumbered};
ghost use Rattle.ckr_journal.specs.Events.{ReadAt, GoesOn};
ghost use Rattle.std.specs.Option.{is_some, option_map};
ghost use Rattle.ckr_book.specs.Records.{records_from};
ghost use Rattle.ckr_outside.specs.Disk.{EachSince, Only, OnlyReads, part};
ghost use Rattle.ckr_outside.specs.Faults.{Rose};
ghost use Rattle.ckr_points.specs.Rows.{run_of};
ghost use Rattle.ckr_desk_refines.specs.RewriteRecord.{last_event};
ghost use Rattle.ckr_desk_store.specs.OpenImages.{event_records};
ghost use Rattle.ckr_volumes.specs.Header.{header_of, IsHeader};
ghost use Rattle.ckr_volumes.specs.Layouts.{is_laid_out};
ghost use Rattle.ckr_desk_store.specs.State.{IsSound};
ghost use Rattle.ckr_desk.specs.Points.{ArePointsRead};
ghost use Rattle.ckr_desk.specs.Opening.{by_book, by_entries, opening_of};
ghost use Rattle.ckr_desk.specs.Calls.{HasSameJobs};
ghost use Rattle.ckr_desk.specs.FirstSync.{FromSync, IsLeft};
ghost use Rattle.ckr_desk.specs.Replay.{IsReplayed, IsReplayedTo, GoneOn, LastGone, ReplayCause, EventCause, IsReadTo, OpenCause, IsFound};
ghost use Rattle.ckr_desk.specs.Replay.{HasFailedAgain, IsLackingAgain, IsWrittenAgain, fits_in, has_record};
ghost use Rattle.ckr_desk.specs.Soundness.{AllSound, HasKept, IsTrusted, desk_opening, events_in, last_on, state_of};
ghost use Rattle.ckr_desk.specs.State.{AreKept, layout_of, machine_room_of, opened_of};
ghost use Rattle.ckr_desk_turn.specs.MachineRoom.{room_at_first};

use crate::entries::check_entries;
use crate::event_bytes::EventBytes;
use crate::{Desk, OpenError, Opening};
use ckr_base::Rec;
use ckr_console::Operator;
use ckr_desk_refines::Jobs;
use ckr_desk_store::Store;
use ckr_desk_turn::MachineRoom;
use ckr_events::Event;
use ckr_journal::{LayoutError, Next, NextEventError, next_event, read_layout};
use ckr_library::{Content, DataSet};
use ckr_outside::Disk;
use ckr_queue::Mounts;
use ckr_volumes::Layout;
use std::alloc::Global;

/// The jobs so far, the place of the next gate, and the last event before it.
#[derive(Drop)]
struct Replayed {
    jobs: Jobs,
    place: u32,
    last: Option<Event>,
}

/// The event whose gate is at this place of the book, or its end.
fn event_at<D: Disk>(alloc: Global, disk: &mut D, book: u32, place: u32) -> Result<Next, OpenError>
    requires inside { 512 + book ≤ D.size disk.old }
    requires place { place ≤ book }
    ensures read { D.told → IfOk result (ReadAt (drop place (part 512 book (D.content disk.old)))) }
    ensures next { IfOk result (GoesOn place book) }
    ensures only_reads { OnlyReads D.content D.may_leave D.moment D.left_since disk.old disk.new }
    ensures size { D.size disk.new ≡ D.size disk.old }
    ensures faults { D.faults disk.old ≤ D.faults disk.new }
    ensures cause { IfErr result (EventCause (Rose (D.faults disk.old) (D.faults disk.new)) D.told (drop place (part 512 book (D.content disk.old))) place) }
{
    match next_event(alloc, disk, book, place) {
        Ok(next) => Ok(next),
        Err(NextEventError::NoMemory) => Err(OpenError::NoMemory),
        Err(NextEventError::Fault) => Err(OpenError::Fault),
        Err(NextEventError::Bad) => Err(OpenError::BadBook { offset: place }),
    }
}

/// Goes on by the next event of the book. Answers whether there was one.
#[tactic(auto, using(crate::proofs::Openings::Replay::book_inside))]
fn replay_one<D: Disk>(
    alloc: Global,
    disk: &mut D,
    layout: &Layout,
    found: &mut Replayed,
) -> Result<bool, OpenError>
    requires header { IsHeader layout.now (D.size disk.old) }
    requires place { found.old.place ≤ layout.now.book }
    requires jobs { AreJobs layout.now found.old.jobs }
    ensures goes { IfOk result (GoneOn D.told layout.now (part 512 layout.now.book (D.content disk.old)) found.old.jobs.tables.desk found.old.place found.new.jobs.tables.desk found.new.place) }
    ensures last { D.told → IfOk result (LastGone (part 512 layout.now.book (D.content disk.old)) found.old.place found.old.last found.new.place found.new.last) }
    ensures jobs { OnOk result (AreJobs layout.now found.new.jobs) }
    ensures holders { OnOk result (AreHolders found.old.jobs.tables.desk → AreHolders found.new.jobs.tables.desk) }
    ensures numbered { OnOk result (AreNumbered 1 found.old.jobs.tables.desk.runs → AreNumbered 1 found.new.jobs.tables.desk.runs) }
    ensures running { OnOk result (found.new.jobs.running ≡ found.old.jobs.running) }
    ensures only_reads { OnlyReads D.content D.may_leave D.moment D.left_since disk.old disk.new }
    ensures size { D.size disk.new ≡ D.size disk.old }
    ensures faults { D.faults disk.old ≤ D.faults disk.new }
    ensures cause { IfErr result (ReplayCause (Rose (D.faults disk.old) (D.faults disk.new))
        (D.told × IsReplayed layout.now (part 512 layout.now.book (D.content disk.old)) found.old.jobs.tables.desk found.old.place) layout.now (part 512 layout.now.book (D.content disk.old))) }
{
    match event_at(alloc, disk, layout.book, found.place)? {
        Next::End => Ok(false),
        Next::Event { event, next } => {
            if !found.jobs.replay(layout, &event)? {
                return Err(OpenError::BadBook {
                    offset: found.place,
                });
            }
            found.place = next;
            found.last = Some(event);
            Ok(true)
        }
    }
}

/// Reads the events of the book one after another.
fn replay<D: Disk>(alloc: Global, disk: &mut D, layout: &Layout) -> Result<Replayed, OpenError>
    requires header { IsHeader layout.now (D.size disk.old) }
    ensures replayed { D.told → IfOk result (λ found. IsReplayedTo layout.now (part 512 layout.now.book (D.content disk.old)) found.jobs.tables.desk found.place) }
    ensures last { D.told → IfOk result (λ found. last_event (events_in (records_from 0 (part 512 layout.now.book (D.content disk.old)))) ≡ found.last) }
    ensures place { IfOk result (λ found. found.place ≤ layout.now.book) }
    ensures jobs { IfOk result (λ found. AreJobs layout.now found.jobs) }
    ensures holders { IfOk result (λ found. AreHolders found.jobs.tables.desk) }
    ensures numbered { IfOk result (λ found. AreNumbered 1 found.jobs.tables.desk.runs) }
    ensures running { IfOk result (λ found. found.jobs.running ≡ []) }
    ensures only_reads { OnlyReads D.content D.may_leave D.moment D.left_since disk.old disk.new }
    ensures size { D.size disk.new ≡ D.size disk.old }
    ensures faults { D.faults disk.old ≤ D.faults disk.new }
    ensures cause { IfErr result (ReplayCause (Rose (D.faults disk.old) (D.faults disk.new)) D.told layout.now (part 512 layout.now.book (D.content disk.old))) }
{
    let mut found = Replayed {
        jobs: Jobs::new(alloc),
        place: 0,
        last: None,
    };
    while replay_one(alloc, disk, layout, &mut found)? {}
    Ok(found)
}

/// Reads the events of the book, and behind them the entries of the checkpoints in effect: the jobs that they have brought about, with no
/// step running.
fn read_jobs<D: Disk>(alloc: Global, disk: &mut D, layout: &Layout) -> Result<Replayed, OpenError>
    requires header { IsHeader layout.now (D.size disk.old) }
    requires laid { IsTrue (is_laid_out layout.now) }
    ensures read { D.told → IfOk result (λ found. IsReadTo layout.now (D.content disk.old) found.jobs.tables.desk found.place) }
    ensures last { D.told → IfOk result (λ found. last_event (events_in (records_from 0 (part 512 layout.now.book (D.content disk.old)))) ≡ found.last) }
    ensures place { IfOk result (λ found. found.place ≤ layout.now.book) }
    ensures kept { IfOk result (λ found. AreKept layout.now found.jobs) }
    ensures failed { IfOk result (λ found. found.jobs.failed ≡ failed_in found.jobs.tables.desk) }
    ensures points { IfOk result (λ found. ArePointsRead D.told layout.now found.jobs.tables.desk (D.content disk.old) found.jobs.points) }
    ensures running { IfOk result (λ found. found.jobs.running ≡ []) }
    ensures only_reads { OnlyReads D.content D.may_leave D.moment D.left_since disk.old disk.new }
    ensures size { D.size disk.new ≡ D.size disk.old }
    ensures faults { D.faults disk.old ≤ D.faults disk.new }
    ensures cause { IfErr result (OpenCause (Rose (D.faults disk.old) (D.faults disk.new)) D.told
        (by_entries (D.content disk.old) (by_book layout.now (part 512 layout.now.book (D.content disk.old))))) }
{
    let mut found = replay(alloc, disk, layout)?;
    let points = check_entries(alloc, disk, layout, &found.jobs)?;
    found.jobs.open(points)?;
    Ok(found)
}

/// The layout of a disk.
fn layout_of<D: Disk>(disk: &mut D) -> Result<Layout, OpenError>
    ensures exact { D.told → IfOk result (λ layout. header_of (take 512 (D.content disk.old)) (D.size disk.old) ≡ Ok layout) }
    ensures header { IfOk result (λ layout. IsHeader layout (D.size disk.old)) }
    ensures laid { IfOk result (λ layout. IsTrue (is_laid_out layout)) }
    ensures only_reads { OnlyReads D.content D.may_leave D.moment D.left_since disk.old disk.new }
    ensures size { D.size disk.new ≡ D.size disk.old }
    ensures faults { D.faults disk.old ≤ D.faults disk.new }
    ensures cause { IfErr result (OpenCause (Rose (D.faults disk.old) (D.faults disk.new)) D.told (opening_of (D.content disk.old) (D.size disk.old))) }
{
    match read_layout(disk) {
        Ok(layout) => Ok(layout),
        Err(LayoutError::Fault) => Err(OpenError::Fault),
        Err(LayoutError::NotFormatted) => Err(OpenError::NotFormatted),
        Err(LayoutError::Version(version)) => Err(OpenError::Version(version)),
        Err(LayoutError::BadHeader { offset }) => Err(OpenError::BadHeader { offset }),
    }
}

/// A disk as it is opened.
#[derive(Drop)]
struct Found {
    layout: Layout,
    jobs: Jobs,
    /// The place in the book of its first closed gate.
    end: u32,
    /// The last event of the book.
    last: Option<Event>,
    event_bytes: EventBytes,
}

/// Reads the disk. It begins with a sync.
fn read_disk<D: Disk>(alloc: Global, disk: &mut D) -> Result<Found, OpenError>
    ensures found { D.told → IfOk result (λ found. IsFound (D.content disk.new) (D.size disk.new) found.layout found.jobs.tables.desk found.end) }
    ensures last { D.told → IfOk result (λ found. last_on found.layout (D.content disk.new) ≡ found.last) }
    ensures header { IfOk result (λ found. IsHeader found.layout (D.size disk.new)) }
    ensures laid { IfOk result (λ found. IsTrue (is_laid_out found.layout)) }
    ensures end { IfOk result (λ found. found.end ≤ found.layout.book) }
    ensures kept { IfOk result (λ found. AreKept found.layout found.jobs) }
    ensures failed { IfOk result (λ found. found.jobs.failed ≡ failed_in found.jobs.tables.desk) }
    ensures points { IfOk result (λ found. ArePointsRead D.told found.layout found.jobs.tables.desk (D.content disk.new) found.jobs.points) }
    ensures running { IfOk result (λ found. found.jobs.running ≡ []) }
    ensures settled { OnOk result (Only (D.content disk.new) (D.may_leave disk.new)) }
    ensures synced { OnOk result (FromSync D.content D.may_leave D.moment D.left_since disk.old disk.new (λ image. image ≡ D.content disk.old)) }
    ensures only_reads { OnlyReads D.content D.may_leave D.moment D.left_since disk.old disk.new }
    ensures size { D.size disk.new ≡ D.size disk.old }
    ensures faults { D.faults disk.old ≤ D.faults disk.new }
    ensures cause { IfErr result (OpenCause (Rose (D.faults disk.old) (D.faults disk.new)) D.told (opening_of (D.content disk.old) (D.size disk.old))) }
{
    disk.sync()?;
    let layout = layout_of(disk)?;
    let Replayed { jobs, place, last } = read_jobs(alloc, disk, &layout)?;
    let event_bytes = EventBytes::new(alloc)?;
    Ok(Found {
        layout,
        jobs,
        end: place,
        last,
        event_bytes,
    })
}

/// Whether a record fits in a data set at a place. One for checkpoints holds no records.
fn fits_in(set: &DataSet, place: u32, image: &Rec) -> bool
    ensures { result ≡ fits_in place image.now set.now }
{
    matches!(set.content, Content::Plain)
        && place < set.space
        && image.bytes().len() == usize::from(set.lrecl)
}

/// A desk as its disk was read, and the last event of the disk.
#[derive(Drop)]
struct Read<D: Disk, O: Operator> {
    desk: Desk<D, O>,
    last: Option<Event>,
}

impl<D: Disk, O: Operator> Desk<D, O> {
    /// The desk that a disk reads, with this operator in office. It begins with a sync, and writes nothing.
    fn read_on(alloc: Global, mut disk: D, operator: Option<O>) -> Result<Read<D, O>, Opening<D>>
        ensures opened { D.told → IfOk result (λ found. opening_of (D.content disk) (D.size disk) ≡ Ok (opened_of found.desk)) }
        ensures last { D.told → IfOk result (λ found. last_on found.desk.store.layout (D.content disk) ≡ found.last) }
        ensures failed { IfOk result (λ found. found.desk.jobs.failed ≡ failed_in found.desk.jobs.tables.desk) }
        ensures points { IfOk result (λ found. ArePointsRead D.told found.desk.store.layout found.desk.jobs.tables.desk (D.content disk) found.desk.jobs.points) }
        ensures running { IfOk result (λ found. found.desk.jobs.running ≡ []) }
        ensures machine_room { IfOk result (λ found. found.desk.machine_room ≡ room_at_first found.desk.store.layout (option_map O.answering operator)) }
        ensures is_open { IfOk result (λ found. found.desk.store.fault ≡ None) }
        ensures sound { IfOk result (λ found. IsSound D.content D.may_leave D.size found.desk.store) }
        ensures settled { IfOk result (λ found. Only (D.content found.desk.store.disk) (D.may_leave found.desk.store.disk)) }
        ensures synced { IfOk result (λ found. FromSync D.content D.may_leave D.moment D.left_since disk found.desk.store.disk (λ image. image ≡ D.content disk)) }
        ensures only_reads { IfOk result (λ found. OnlyReads D.content D.may_leave D.moment D.left_since disk found.desk.store.disk) }
        ensures left { IfErr result (λ opening. OnlyReads D.content D.may_leave D.moment D.left_since disk opening.disk) }
        ensures size { IfOk result (λ found. D.size found.desk.store.disk ≡ D.size disk) }
        ensures size_left { IfErr result (λ opening. D.size opening.disk ≡ D.size disk) }
        ensures never_falls { IfOk result (λ found. D.faults disk ≤ D.faults found.desk.store.disk) }
        ensures never_falls_left { IfErr result (λ opening. D.faults disk ≤ D.faults opening.disk) }
        ensures cause { IfErr result (λ opening. OpenCause (Rose (D.faults disk) (D.faults opening.disk)) D.told
            (opening_of (D.content disk) (D.size disk)) opening.error) }
    {
        match read_disk(alloc, &mut disk) {
            Ok(
                Found {
                    layout,
                    jobs,
                    end,
                    last,
                    event_bytes,
                },
            ) => {
                let mounts = Mounts::new(layout.units);
                let machine_room = MachineRoom::new(operator, mounts);
                let store = Store::open(disk, layout, end);
                Ok(Read {
                    desk: Desk {
                        alloc,
                        store,
                        jobs,
                        machine_room,
                        event_bytes,
                    },
                    last,
                })
            }
            Err(error) => Err(Opening { error, disk }),
        }
    }

    /// Whether there is a run of this number.
    fn has_run(&self, run: u32) -> bool
        ensures { result ≡ is_some (run_of self.now.jobs.tables.desk run) }
    {
        run != 0 && run as usize <= self.jobs.runs().len()
    }

    /// Whether the tables have the record that an event tells of.
    fn has_record(&self, event: &Event) -> bool
        ensures { result ≡ has_record self.now.jobs.tables.desk event.now }
    {
        let Event::Rewritten {
            job,
            place,
            image,
            ..
        } = event
        else {
            return false;
        };
        if !self.has_run(*job) {
            return false;
        }
        let Some(name) = self.jobs.updated(*job) else {
            return false;
        };
        let Some(set) = self.jobs.library().get(&name) else {
            return false;
        };
        fits_in(set, *place, image)
    }

    /// The record that the last event tells of is written again, for good, if the tables have it.
    fn write_again(&mut self, last: &Option<Event>) -> Result<(), OpenError>
        requires is_open { self.old.store.fault ≡ None }
        requires sound { IsSound D.content D.may_leave D.size self.old.store }
        requires settled { Only (D.content self.old.store.disk) (D.may_leave self.old.store.disk) }
        ensures written { D.told → OnOk result (IsWrittenAgain self.old.store.layout self.old.jobs.tables.desk last.now (D.content self.old.store.disk) (D.content self.new.store.disk)) }
        ensures settled { OnOk result (Only (D.content self.new.store.disk) (D.may_leave self.new.store.disk)) }
        ensures left { EachSince D.moment D.left_since self.old.store.disk self.new.store.disk (IsLackingAgain D.content D.size last.now self.old) }
        ensures events { D.told → event_records self.old.store.layout (D.content self.new.store.disk) ≡ event_records self.old.store.layout (D.content self.old.store.disk) }
        ensures jobs { HasSameJobs self.old self.new }
        ensures machine_room { self.new.machine_room ≡ self.old.machine_room }
        ensures kept { OnOk result (self.new.store ≡ record self.old.store { disk = self.new.store.disk }) }
        ensures sound { OnOk result (IsSound D.content D.may_leave D.size self.new.store) }
        ensures size { D.size self.new.store.disk ≡ D.size self.old.store.disk }
        ensures faults { D.faults self.old.store.disk ≤ D.faults self.new.store.disk }
        ensures cause { IfErr result (HasFailedAgain (D.faults self.old.store.disk) (D.faults self.new.store.disk)) }
    {
        let Some(event) = last else {
            return Ok(());
        };
        if !self.has_record(event) {
            return Ok(());
        }
        match self.rewrite_for_good(event) {
            Ok(()) => Ok(()),
            Err(_) => Err(OpenError::Fault),
        }
    }

    /// Opens a disk with this operator in office, or nobody. It begins with a sync; and where the last event tells of a record that was
    /// rewritten in place, that record is written again. No step is running; the runs that are on an initiator and within a step by the
    /// events were running when the disk was left, and have failed.
    ///
    /// `OpenError`: `NoMemory`, and `Fault` only where the disk's faults rose in this call; the causes behind them exactly by the bytes
    /// that the disk reads, the first one in their order (this project's profile). So the entry of each checkpoint in effect is read, and
    /// where its step stands there is kept, so that the run can be restarted there. Until the first sync has succeeded a stop leaves an
    /// image that the disk might have left before, and from then on a sound one with exactly the events that the disk reads. A disk that
    /// isn't opened was only read, unless it failed while that record was written again; the operator is dropped then.
    pub fn open_on(alloc: Global, disk: D, operator: Option<O>) -> Result<Desk<D, O>, Opening<D>>
        ensures opened { AllSound D.told D.may_leave D.size disk → IfOk result (λ desk. desk_opening (D.content disk) (D.size disk) ≡ Ok (state_of D.content desk)) }
        ensures trusted { AllSound D.told D.may_leave D.size disk → IfOk result (λ desk. IsTrusted D.told D.content D.may_leave desk) }
        ensures read { D.told → IfOk result (λ desk. opening_of (D.content disk) (D.size disk) ≡ Ok (opened_of desk)) }
        ensures failed { IfOk result (λ desk. desk.jobs.failed ≡ failed_in desk.jobs.tables.desk) }
        ensures machine_room { IfOk result (λ desk. machine_room_of desk ≡ room_at_first (layout_of desk) (option_map O.answering operator)) }
        ensures running { IfOk result (λ desk. desk.jobs.running ≡ []) }
        ensures is_open { IfOk result (λ desk. desk.store.fault ≡ None) }
        ensures settled { IfOk result (λ desk. Only (D.content desk.store.disk) (D.may_leave desk.store.disk)) }
        ensures size { IfOk result (λ desk. D.size desk.store.disk ≡ D.size disk) }
        ensures size_left { IfErr result (λ opening. D.size opening.disk ≡ D.size disk) }
        ensures never_falls { IfOk result (λ desk. D.faults disk ≤ D.faults desk.store.disk) }
        ensures never_falls_left { IfErr result (λ opening. D.faults disk ≤ D.faults opening.disk) }
        ensures cause { IfErr result (λ opening. OpenCause (Rose (D.faults disk) (D.faults opening.disk)) D.told
            (desk_opening (D.content disk) (D.size disk)) opening.error) }
        ensures kept { AllSound D.told D.may_leave D.size disk → IfOk result (λ desk. FromSync D.content D.may_leave D.moment D.left_since disk desk.store.disk
            (HasKept desk.store.layout (D.size disk) (event_records desk.store.layout (D.content disk)) [])) }
        ensures left { IfErr result (λ opening. IsLeft D.content D.may_leave D.moment D.left_since D.size D.told (AllSound D.told D.may_leave D.size disk)
            opening.error disk opening.disk) }
        ensures events { AllSound D.told D.may_leave D.size disk → IfOk result (λ desk.
            desk_opening (D.content desk.store.disk) (D.size disk) ≡ desk_opening (D.content disk) (D.size disk)) }
        ensures records { D.told → IfOk result (λ desk.
            event_records desk.store.layout (D.content desk.store.disk) ≡ event_records desk.store.layout (D.content disk)) }
    {
        let Read { mut desk, last } = Desk::read_on(alloc, disk, operator)?;
        match desk.write_again(&last) {
            Ok(()) => Ok(desk),
            Err(error) => Err(Opening {
                error,
                disk: desk.close(),
            }),
        }
    }
}
