//! What holds of the records of entries. A law is the contract of a function that does nothing.
ghost use Rattle.std.specs.Prelude.{◌≡◌, ◌≤◌, ◌+◌, ℕ, List, length, Ok, Some};
ghost use Rattle.ckr_entry.specs.Entry.{IsEntry, entry_in, spelling};
ghost use Rattle.ckr_entry.specs.Parts.{Entry};
ghost use Rattle.ckr_library.specs.declared.sets.DataSet.{DataSet};
ghost use Rattle.ckr_library.specs.Catalog.{Catalog, records_of, set_of};
ghost use Rattle.ckr_library.specs.NameMaps.{Name};
ghost use Rattle.ckr_volumes.specs.declared.layout.Layout.{Layout};
ghost use Rattle.ckr_steps.specs.EntryRecords.{HasEntry, bytes_on};
ghost use Rattle.ckr_steps.specs.Writes.{Keeps};

/// An image that has the records of an entry gives its bytes back, where their number is known. So the entry of a point is read there.
pub fn entries_read_back()
    ensures bytes { (image : List ℕ) (layout : Layout) (set : DataSet) (place : ℕ) (entry : List ℕ) → HasEntry image layout set place entry → bytes_on image layout set place (length entry) ≡ entry }
    ensures entry { (image : List ℕ) (layout : Layout) (set : DataSet) (place : ℕ) (e : Entry) → IsEntry e → HasEntry image layout set place (spelling e) → entry_in (bytes_on image layout set place (length (spelling e))) ≡ Ok e }
{}

/// An entry that ends within the length of its data set stays, where the records of the library's data sets do.
pub fn entries_stay()
    ensures { (layout : Layout) (library : Catalog) (name : Name) (set : DataSet) (old new : List ℕ) (place : ℕ) (entry : List ℕ) → set_of library name ≡ Some set → place + records_of (length entry) ≤ set.length
        → Keeps layout library old new → HasEntry old layout set place entry → HasEntry new layout set place entry }
{}
