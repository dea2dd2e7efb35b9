//! Files by their names.
ghost use Rattle.std.specs.Prelude.{◌≡◌, ◌≢◌, ◌<◌, ◌==◌, ℕ, List, Option, Some, IfOk, IfErr, IfSome, OnOk, OnErr};
ghost use Rattle.std.specs.declared.io.ErrorKind.{ErrorKind as AnErrorKind};
ghost use Rattle.mvt_tasks.specs.declared.folder.OpenFiles.{OpenFiles as AnOpenFiles};
ghost use Rattle.mvt_tasks.specs.declared.folder.Visit.{Visit as AVisit};
ghost use Rattle.mvt_tasks.specs.Visits.{Adds, IsUnopened, one_less, one_more, visit};

use mvt_base::Text;
use mvt_io::{Host, Source};
use std::fs;
use std::io::ErrorKind;
use std::rt::Files;

/// A file that was asked for, and whether all its bytes could be read.
#[derive(Debug, Drop)]
pub struct Visit {
    pub name: Text,
    pub is_read: bool,
}

/// How many files are open, and the most that were at a time.
#[derive(Clone, Copy, Debug)]
pub struct OpenFiles {
    pub now: u64,
    pub most: u64,
}

impl OpenFiles {
    /// None so far.
    pub fn none() -> Self
        ensures { result ≡ record { now = 0; most = 0 } }
    {
        OpenFiles { now: 0, most: 0 }
    }

    pub(crate) fn add(&mut self)
        ensures { self.new ≡ one_more self.old }
    {
        self.now = self.now.saturating_add(1);
        self.most = self.most.max(self.now);
    }

    pub(crate) fn take(&mut self)
        ensures { self.new ≡ one_less self.old }
    {
        self.now = self.now.saturating_sub(1);
    }
}

/// Readers of files, by the files' names.
pub trait Folder {
    type Reader: Source;

    // What the file of a name holds, where it is known.
    ghost holds: { Self → List ℕ → Option (List ℕ) };

    // The files that were asked for so far, where they are known.
    ghost visits: { Self → Option (List AVisit) };

    ghost open_files: { Self → AnOpenFiles };

    // Why the file of a name can't be opened, where that is known.
    ghost missing: { Self → List ℕ → Option AnErrorKind };

    /// Opens a file. A file that can't be opened has been visited, unless memory was wanting;
    /// another one is when it is closed.
    fn open(&mut self, name: &str) -> Result<Self::Reader, ErrorKind>
        ensures bytes { IfOk result (λ reader. IfSome (holds self.old name.now)
            (λ bytes. (Self.Reader.state reader).left ≡ Some bytes)) }
        ensures fresh { IfOk result (λ reader. (Self.Reader.state reader).faults.count ≡ 0) }
        ensures opened { OnOk result ((visits self.new ≡ visits self.old)
            × (open_files self.new ≡ one_more (open_files self.old))) }
        ensures unopened { IfErr result (λ kind. IsUnopened kind name.now (visits self.old)
            (visits self.new)) }
        ensures unchanged { OnErr result (open_files self.new ≡ open_files self.old) }
        ensures kind { IfErr result (λ kind. kind ≢ ErrorKind.OutOfMemory
            → IfSome (missing self.old name.now) (λ why. kind ≡ why)) }
        ensures same { holds self.new ≡ holds self.old };

    /// Closes a file of this name. It was read if none of its reads failed.
    fn close(&mut self, name: Text, reader: Self::Reader)
        requires { 0 < (open_files self.old).now }
        ensures visited { Adds (visits self.old) (visits self.new)
            (visit name ((Self.Reader.state reader).faults.count == 0)) }
        ensures closed { open_files self.new ≡ one_less (open_files self.old) }
        ensures same { holds self.new ≡ holds self.old };
}

/// The files of the system. Their bytes aren't known.
#[derive(Drop)]
pub struct Disk<'a, R: Files> {
    files: &'a R,
    opens: OpenFiles,
}

impl<'a, R: Files> Disk<'a, R> {
    /// The files that the system shows the program, of which none is open.
    pub fn new(files: &'a R) -> Self
        ensures { result.opens ≡ record { now = 0; most = 0 } }
    {
        Disk {
            files,
            opens: OpenFiles::none(),
        }
    }
}

impl<R: Files> Folder for Disk<'_, R> {
    ghost use Rattle.std.specs.Prelude.{None};

    type Reader = Host<R::File>;

    ghost holds = { λ _ _. None };

    ghost visits = { λ _. None };

    ghost open_files = { λ disk. disk.opens };

    ghost missing = { λ _ _. None };

    fn open(&mut self, name: &str) -> Result<Self::Reader, ErrorKind> {
        match fs::open(self.files, name) {
            Ok(file) => {
                self.opens.add();
                Ok(Host::new(file))
            }
            Err(error) => Err(error.kind()),
        }
    }

    fn close(&mut self, _name: Text, reader: Self::Reader) {
        drop(reader);
        self.opens.take();
    }
}
