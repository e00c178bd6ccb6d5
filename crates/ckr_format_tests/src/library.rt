//! A library in use.
ghost use Rattle.std.specs.Prelude.{◌≡◌};

use arrayvec::ArrayVec;
use ckr_base::{DsName, NoMemory};
use ckr_library::{Content, DataSet, Extent, Library, Part, Span, Stamp};
use std::test::Fail;

/// A data set of one extent of ten records of 80 bytes.
fn set_at(volume: u8, start: u32) -> DataSet
    ensures { result.length ≡ 0 }
{
    let mut extents = ArrayVec::new();
    extents.push(Extent { start, records: 10 });
    let mut parts = ArrayVec::new();
    parts.push(Part {
        volume,
        extents,
        records: 10,
    });
    DataSet {
        parts,
        cataloged: false,
        lrecl: 80,
        space: 10,
        length: 0,
        stamp: Stamp {
            run: 1,
            step: 1,
            rewrites: 0,
        },
        content: Content::Plain,
    }
}

/// Adds a data set of that name, if it is a name that isn't there.
fn add(library: &mut Library, text: &[u8], set: DataSet) -> Result<bool, NoMemory>
    requires { set.length ≡ 0 }
{
    let Some(name) = DsName::read(text) else {
        return Ok(false);
    };
    if library.get(&name).is_some() {
        return Ok(false);
    }
    library.insert(name, set)?;
    Ok(true)
}

fn mark(library: &mut Library, name: &DsName) {
    if library.get(name).is_some() {
        library.set_catalog(name, true);
    }
}

fn stamp(library: &mut Library, name: &DsName, stamp: Stamp) {
    if library.get(name).is_some() {
        library.set_stamp(name, stamp);
    }
}

fn take_out(library: &mut Library, name: &DsName) {
    if library.get(name).is_some() {
        library.remove(name);
    }
}

/// Enters three data sets by their names, and one of them once more, which is refused.
fn are_entered(library: &mut Library) -> Result<bool, NoMemory> {
    library.reserve(3)?;
    Ok(
        add(library, b"IN.B", set_at(0, 800))?
            && add(library, b"IN", set_at(1, 0))?
            && add(library, b"IN.A", set_at(0, 0))?
            && !add(library, b"IN.A", set_at(0, 0))?,
    )
}

/// The places of the two data sets of volume 0.
fn are_spread(spans: &[Span]) -> bool {
    match spans {
        [first, second] => first.start == 0 && second.start == 800,
        _ => false,
    }
}

/// Volume 0 has no hole before byte 1600, and none of its bytes is taken from there on.
fn are_packed(library: &Library) -> bool {
    let packed = library.packed_on(0);
    packed.from == 1600
        && packed.rest.is_empty()
        && library.is_free(0, 1600, 80)
        && !library.is_free(0, 1599, 80)
}

/// Three data sets stand under their names, two of them one behind the other on volume 0.
fn are_kept(library: &mut Library) -> Result<bool, NoMemory> {
    Ok(are_entered(library)? && are_spread(library.spans_on(0)) && are_packed(library))
}

#[test]
fn keeps_data_sets_by_name(rt: HostRuntime) -> Result<(), Fail> {
    let mut library = Library::new(rt.alloc());
    assert!(rt; are_kept(&mut library)?);
    Ok(())
}

/// Enters a data set in the catalog, and stamps it.
fn change(library: &mut Library, name: &DsName) {
    mark(library, name);
    let changed = Stamp {
        run: 2,
        step: 3,
        rewrites: 4,
    };
    stamp(library, name, changed);
}

fn is_changed(library: &Library, name: &DsName) -> bool {
    match library.get(name) {
        Some(set) => set.cataloged && set.stamp.rewrites == 4,
        None => false,
    }
}

fn is_gone(library: &Library, name: &DsName) -> bool {
    library.get(name).is_none() && library.spans_on(0).is_empty()
}

/// A data set that is there is changed, and then taken out.
fn comes_and_goes(library: &mut Library, name: &DsName) -> bool {
    change(library, name);
    let changed = is_changed(library, name);
    take_out(library, name);
    changed && is_gone(library, name)
}

/// One is entered, changed and taken out.
fn is_changed_and_gone(library: &mut Library) -> Result<bool, NoMemory> {
    let Some(name) = DsName::read(b"OUT.K") else {
        return Ok(false);
    };
    Ok(add(library, b"OUT.K", set_at(0, 0))? && comes_and_goes(library, &name))
}

#[test]
fn changes_a_data_set(rt: HostRuntime) -> Result<(), Fail> {
    let mut library = Library::new(rt.alloc());
    assert!(rt; is_changed_and_gone(&mut library)?);
    Ok(())
}
