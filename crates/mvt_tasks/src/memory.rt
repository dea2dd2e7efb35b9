//! Files in memory, for tests.
ghost use Rattle.std.specs.Prelude.{◌≡◌, ◌≢◌, ◌++◌, ◌∷◌, ◌==◌, [], false, None, Some, IfOk, IfSome, IfErr, OnOk, OnErr};
ghost use Rattle.mvt_tasks.specs.Folders.{bytes_of, fails_in, held_in, kind_missing, missing_in};
ghost use Rattle.mvt_tasks.specs.Visits.{Adds, IsUnopened, one_less, one_more, visit};

use crate::folder::{Folder, OpenFiles, Visit};
use mvt_base::Text;
use mvt_io::MemorySource;
use std::alloc::{AllocError, Global};
use std::io::ErrorKind;
use std::marker::Model;

/// A file: its name, its bytes, and the first of its reads that fails, from 0. Without bytes it
/// can't be opened.
#[derive(Debug, Drop)]
pub struct MemoryFile {
    pub name: Text,
    pub bytes: Option<Vec<u8>>,
    pub fails_from: u64,
}

/// Files by their names, and what they were asked for. There is room for the visits of the files
/// that are open.
#[derive(Drop)]
pub struct MemoryFolder {
    alloc: Global,
    files: Vec<MemoryFile>,
    visits: Vec<Visit>,
    opens: OpenFiles,
}

impl Model for MemoryFolder {
    ghost use Rattle.std.specs.Prelude.{◌+◌, ◌≤◌, vec_len, vec_capacity};
    ghost use Rattle.mvt_tasks.specs.Folders.{FolderState};

    ghost Value = { FolderState };

    ghost view = { λ f. record {
      files = f.files.items;
      visits = f.visits.items;
      open_files = f.opens;
    } };

    ghost invariant = { λ f. vec_len f.visits + f.opens.now ≤ vec_capacity f.visits };
}

impl MemoryFolder {
    /// These files, none of which was asked for yet.
    pub fn new(alloc: Global, files: Vec<MemoryFile>) -> Self
        ensures { result ≡ record {
          files = files.items;
          visits = [];
          open_files = record { now = 0; most = 0 };
        } }
    {
        MemoryFolder {
            alloc,
            files,
            visits: Vec::new(alloc),
            opens: OpenFiles::none(),
        }
    }

    /// How many files are open, and the most that were at a time.
    pub fn open_files(&self) -> OpenFiles
        ensures { result ≡ self.now.open_files }
    {
        self.opens
    }
}

// The bytes that a read gives at most.
const STEP: usize = 3;

fn no_memory(_: AllocError) -> ErrorKind
    ensures { result ≡ ErrorKind.OutOfMemory }
{
    ErrorKind::OutOfMemory
}

/// A reader of the first file of a name.
fn opened(alloc: Global, files: &[MemoryFile], name: &str) -> Result<MemorySource, ErrorKind>
    ensures held { IfOk result (λ reader. held_in files.now name.now ≡ Some reader.left) }
    ensures missing { IfErr result (λ kind. kind ≢ ErrorKind.OutOfMemory
        → held_in files.now name.now ≡ None) }
    ensures kind { IfErr result (λ kind. kind ≢ ErrorKind.OutOfMemory
        → missing_in files.now name.now ≡ Some kind) }
    ensures fresh { IfOk result (λ reader. reader.faults.count ≡ 0) }
    ensures fails { IfOk result (λ reader. fails_in files.now name.now ≡ Some reader.fails_from) }
{
    for file in files {
        if file.name.as_str() == name {
            return reader_of(alloc, file);
        }
    }
    Err(ErrorKind::NotFound)
}

fn reader_of(alloc: Global, file: &MemoryFile) -> Result<MemorySource, ErrorKind>
    ensures held { IfOk result (λ reader. bytes_of (Some file.now) ≡ Some reader.left) }
    ensures missing { IfErr result (λ kind. kind ≢ ErrorKind.OutOfMemory
        → bytes_of (Some file.now) ≡ None) }
    ensures kind { IfErr result (λ kind. kind ≢ ErrorKind.OutOfMemory
        → kind_missing (Some file.now) ≡ Some kind) }
    ensures fresh { IfOk result (λ reader. reader.faults.count ≡ 0) }
    ensures fails { IfOk result (λ reader. file.now.fails_from ≡ reader.fails_from) }
{
    let Some(bytes) = &file.bytes else {
        return Err(ErrorKind::PermissionDenied);
    };
    let copy = Vec::from_slice(alloc, bytes.as_slice()).map_err(no_memory)?;
    Ok(MemorySource::new(copy, STEP, file.fails_from))
}

impl Folder for MemoryFolder {
    type Reader = MemorySource;

    ghost holds = { λ f name. held_in f.files name };

    ghost visits = { λ f. Some f.visits };

    ghost open_files = { λ f. f.open_files };

    ghost missing = { λ f name. missing_in f.files name };

    /// Makes room for the visit before anything else.
    fn open(&mut self, name: &str) -> Result<Self::Reader, ErrorKind>
        ensures held { IfOk result (λ reader. held_in self.old.files name.now ≡ Some reader.left) }
        ensures missing { IfErr result (λ kind. kind ≢ ErrorKind.OutOfMemory
            → (held_in self.old.files name.now ≡ None)
            × (missing_in self.old.files name.now ≡ Some kind)) }
        ensures fails { IfOk result (λ reader. fails_in self.old.files name.now
            ≡ Some reader.fails_from) }

        // What every folder promises.
        ensures bytes { IfOk result (λ reader. IfSome (held_in self.old.files name.now)
            (λ bytes. Some reader.left ≡ Some bytes)) }
        ensures fresh { IfOk result (λ reader. reader.faults.count ≡ 0) }
        ensures opened { OnOk result ((Some self.new.visits ≡ Some self.old.visits)
            × (self.new.open_files ≡ one_more self.old.open_files)) }
        ensures unopened { IfErr result (λ kind. IsUnopened kind name.now (Some self.old.visits)
            (Some self.new.visits)) }
        ensures unchanged { OnErr result (self.new.open_files ≡ self.old.open_files) }
        ensures kind { IfErr result (λ kind. kind ≢ ErrorKind.OutOfMemory
            → IfSome (missing_in self.old.files name.now) (λ why. kind ≡ why)) }
        ensures same { held_in self.new.files ≡ held_in self.old.files }
    {
        let name = Text::from_str(self.alloc, name).map_err(no_memory)?;
        let open = self.opens.now.checked_add(1).ok_or(ErrorKind::OutOfMemory)?;
        self.visits.reserve(open as usize).map_err(no_memory)?;
        match opened(self.alloc, self.files.as_slice(), name.as_str()) {
            Ok(reader) => {
                self.opens.add();
                Ok(reader)
            }
            Err(ErrorKind::OutOfMemory) => Err(ErrorKind::OutOfMemory),
            Err(kind) => {
                self.visits.push_reserved(Visit {
                    name,
                    is_read: false,
                });
                Err(kind)
            }
        }
    }

    fn close(&mut self, name: Text, reader: Self::Reader) {
        self.opens.take();
        self.visits.push_reserved(Visit {
            name,
            is_read: reader.failed() == 0,
        });
    }
}
