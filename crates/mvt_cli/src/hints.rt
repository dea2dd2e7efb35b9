//! What a person at a terminal is told below the program's lines: what an input looks like that is
//! no tile, and why one can't be read.
ghost use Rattle.std.specs.Prelude.{◌≡◌, ◌==◌, ◌||◌, ◌⊎◌, ◌≤◌, ◌++◌, not, Option, Some, None, false, length, codes, IfOk, string_bytes};
ghost use Rattle.std.specs.Option.{option_copied, option_map, option_or, option_zip};
ghost use Rattle.std.specs.Result.{result_ok};
ghost use Rattle.mvt_places.specs.Lookalikes.{lookalike_of};
ghost use Rattle.mvt_cli.specs.declared.hints.Oddity.TheVariants.{Unread};
ghost use Rattle.mvt_cli.specs.Hints.{begun_after, command_of, hint_of, is_told as the_is_told, look_of, name_of, odd_after, odd_begin, part_of, remedy};

use mvt_base::Text;
use mvt_io::Source;
use mvt_places::{Lookalike, looks_like, shell_word};
use mvt_tasks::Folder;
use std::alloc::{AllocError, Global};
use std::io::ErrorKind;

/// What is odd about an input.
#[derive(Clone, Copy, Debug)]
pub enum Oddity {
    /// It begins as something does that is no tile.
    Looks(Lookalike),
    /// It can't be opened or read.
    Unread(ErrorKind),
}

/// A reader that notes how its bytes begin, and why a read failed.
#[derive(Drop)]
pub struct Watched<R> {
    inner: R,
    is_begun: bool,
    oddity: Option<Oddity>,
}

impl<R> Watched<R> {
    /// A reader of which nothing was read.
    pub fn new(inner: R) -> Self
        ensures { result ≡ record { inner = inner; is_begun = false; oddity = None } }
    {
        Watched {
            inner,
            is_begun: false,
            oddity: None,
        }
    }

    /// What was odd so far.
    pub fn oddity(&self) -> Option<Oddity>
        ensures { result ≡ self.now.oddity }
    {
        self.oddity
    }

    /// Notes what is odd about a read that answered this and filled a front of the buffer.
    fn note_read(&mut self, read: &Result<usize, ErrorKind>, buffer: &[u8])
        requires { IfOk read.now (λ count. count ≤ length buffer.now) }
        ensures same { self.new.inner ≡ self.old.inner }
        ensures begun { self.new.is_begun ≡ begun_after self.old.is_begun read.now }
        ensures odd { self.new.oddity
            ≡ odd_after self.old.is_begun read.now buffer.now self.old.oddity }
    {
        match read {
            Ok(count) => self.note(&buffer[..*count]),
            Err(kind) => self.oddity = Some(Oddity::Unread(*kind)),
        }
    }

    /// Looks at the first bytes that a read gave.
    fn note(&mut self, bytes: &[u8])
        ensures same { self.new.inner ≡ self.old.inner }
        ensures begun { self.new.is_begun ≡ self.old.is_begun || not (length bytes.now == 0) }
        ensures looks { self.new.oddity ≡ odd_begin self.old.is_begun bytes.now self.old.oddity }
    {
        if !self.is_begun && !bytes.is_empty() {
            self.is_begun = true;
            self.oddity = look(bytes);
        }
    }
}

/// What the first bytes look like, if that is odd.
fn look(bytes: &[u8]) -> Option<Oddity>
    ensures { result ≡ look_of (lookalike_of bytes.now) }
{
    match looks_like(bytes) {
        Some(lookalike) => Some(Oddity::Looks(lookalike)),
        None => None,
    }
}

impl<R: Source> Source for Watched<R> {
    ghost state = { λ w. R.state w.inner };

    fn read(&mut self, buffer: &mut [u8]) -> Result<usize, ErrorKind> {
        let read = self.inner.read(buffer);
        self.note_read(&read, buffer);
        read
    }
}

/// A folder that notes the first file about which something is odd.
#[derive(Drop)]
pub struct WatchedFolder<F> {
    alloc: Global,
    inner: F,
    noted: Option<(Text, Oddity)>,
}

impl<F> WatchedFolder<F> {
    /// A folder of which nothing was opened.
    pub fn new(alloc: Global, inner: F) -> Self
        ensures inner { result.inner ≡ inner }
        ensures none { result.noted ≡ None }
    {
        WatchedFolder {
            alloc,
            inner,
            noted: None,
        }
    }

    /// The first odd file, by its name.
    pub fn noted(&self) -> &Option<(Text, Oddity)>
        ensures { result.now ≡ self.now.noted }
    {
        &self.noted
    }

    /// Notes why the file of this name can't be opened, unless memory for the name is wanting.
    fn note_unopened(&mut self, name: &str, kind: ErrorKind)
        ensures same { self.new.inner ≡ self.old.inner }
        ensures first { (self.new.noted ≡ self.old.noted)
            ⊎ (self.new.noted ≡ option_or self.old.noted (Some (name.now, Unread kind))) }
    {
        let text = Text::from_str(self.alloc, name);
        self.note(text, Some(Oddity::Unread(kind)));
    }

    /// Without memory for the name nothing is noted.
    fn note(&mut self, name: Result<Text, AllocError>, oddity: Option<Oddity>)
        ensures same { self.new.inner ≡ self.old.inner }
        ensures first { self.new.noted ≡ option_or self.old.noted
            (option_zip (result_ok name) oddity) }
    {
        if self.noted.is_none() {
            self.noted = name.ok().zip(oddity);
        }
    }
}

impl<F: Folder> Folder for WatchedFolder<F> {
    type Reader = Watched<F::Reader>;

    ghost holds = { λ f. F.holds f.inner };

    ghost visits = { λ f. F.visits f.inner };

    ghost open_files = { λ f. F.open_files f.inner };

    ghost missing = { λ f. F.missing f.inner };

    fn open(&mut self, name: &str) -> Result<Self::Reader, ErrorKind> {
        match self.inner.open(name) {
            Ok(reader) => Ok(Watched::new(reader)),
            Err(kind) => {
                self.note_unopened(name, kind);
                Err(kind)
            }
        }
    }

    fn close(&mut self, name: Text, reader: Self::Reader) {
        let Watched { inner, oddity, .. } = reader;
        let copy = name.copy(self.alloc);
        self.inner.close(name, inner);
        self.note(copy, oddity);
    }
}

/// Whether a hint is told, of a run that ends with this status.
pub fn is_told(status: u8, is_terminal: bool) -> bool
    ensures { result ≡ the_is_told status is_terminal }
{
    is_terminal && (status == 1 || status == 3)
}

/// The line about an odd input, or nothing if there is nothing to add; `file` is the input's name,
/// or FILE where it has none. In its commands the name is a word of a shell.
///
/// # Errors
///
/// When memory runs out.
#[tactic(auto, unfolding(crate::specs::Hints::hint_of))]
pub fn hint(alloc: Global, file: &str, oddity: Oddity) -> Result<String, AllocError>
    ensures { IfOk result (λ line. string_bytes line ≡ hint_of file.now oddity) }
{
    let word = shell_word(alloc, file)?;
    let file = word.as_str();
    match oddity {
        Oddity::Looks(lookalike) => look_hint(alloc, file, lookalike),
        Oddity::Unread(ErrorKind::NotFound) => {
            format!(in alloc; "mvt: {file}: there is no such file\n")
        }
        Oddity::Unread(ErrorKind::PermissionDenied) => {
            format!(in alloc; "mvt: {file}: no permission to read it\n")
        }
        Oddity::Unread(ErrorKind::IsADirectory) => folder_hint(alloc, file),
        Oddity::Unread(_) => Ok(String::new(alloc)),
    }
}

/// The line about a folder whose name is this word.
fn folder_hint(alloc: Global, file: &str) -> Result<String, AllocError>
    ensures { IfOk result (λ line. string_bytes line ≡ codes "mvt: " ++ (file.now
        ++ (codes ": it is a folder: mvt-audit " ++ (file.now ++ codes " --into audit\n")))) }
{
    format!(in alloc; "mvt: {file}: it is a folder: mvt-audit {file} --into audit\n")
}

/// The line about an input that looks like this, whose name is this word.
fn look_hint(alloc: Global, file: &str, lookalike: Lookalike) -> Result<String, AllocError>
    ensures { IfOk result (λ line. string_bytes line ≡ codes "mvt: it looks like "
        ++ (name_of lookalike ++ remedy (command_of lookalike) file.now (part_of lookalike))) }
{
    let name = name(lookalike);
    let part = part(lookalike);
    match command(lookalike) {
        Some(command) => {
            format!(in alloc; "mvt: it looks like {name}: {command} {file}{part} | mvt check\n")
        }
        None => format!(in alloc; "mvt: it looks like {name}\n"),
    }
}

/// What an input looks like, in words.
#[tactic(auto, unfolding(crate::specs::Hints::name_of))]
fn name(lookalike: Lookalike) -> &'static str
    ensures { result.now ≡ name_of lookalike }
{
    match lookalike {
        Lookalike::Gzip => "gzip",
        Lookalike::Zlib => "zlib",
        Lookalike::Zstd => "zstd",
        Lookalike::Png => "a PNG picture",
        Lookalike::Sqlite => "MBTiles",
        Lookalike::Pmtiles => "PMTiles",
        Lookalike::Json => "JSON",
        Lookalike::Html => "HTML, as a server's page about an error",
        Lookalike::Jpeg => "a JPEG picture",
        Lookalike::Gif => "a GIF picture",
        Lookalike::Webp => "a WebP picture",
        Lookalike::FlatGeobuf => "FlatGeobuf",
        Lookalike::Xz => "xz",
        Lookalike::Bzip2 => "bzip2",
        Lookalike::Zip => "a ZIP archive",
        Lookalike::Pdf => "a PDF document",
        Lookalike::OsmPbf => "OpenStreetMap data (PBF)",
        Lookalike::Xml => "XML, as a server's message about an error",
        Lookalike::PlainText => "plain text, as a server's message about an error",
        Lookalike::Brotli => "brotli",
        Lookalike::Mbtiles => "MBTiles",
    }
}

/// The command that gives a tile of it.
#[tactic(auto, unfolding(crate::specs::Hints::command_of))]
fn command(lookalike: Lookalike) -> Option<&'static str>
    ensures { option_copied result ≡ command_of lookalike }
{
    match lookalike {
        Lookalike::Gzip => Some("gunzip -c"),
        Lookalike::Zlib => Some("zlib-flate -uncompress <"),
        Lookalike::Zstd => Some("zstd -dc"),
        Lookalike::Xz => Some("xz -dc"),
        Lookalike::Bzip2 => Some("bzip2 -dc"),
        Lookalike::Brotli => Some("brotli -dc"),
        Lookalike::Zip => Some("unzip -p"),
        Lookalike::Sqlite | Lookalike::Mbtiles | Lookalike::Pmtiles => Some("mvt-tile"),
        _ => None,
    }
}

/// What follows the file's name there: which tile of a store, and which file of an archive.
#[tactic(auto, unfolding(crate::specs::Hints::part_of))]
fn part(lookalike: Lookalike) -> &'static str
    ensures { result.now ≡ part_of lookalike }
{
    match lookalike {
        Lookalike::Sqlite | Lookalike::Mbtiles | Lookalike::Pmtiles => " Z/X/Y",
        Lookalike::Zip => " NAME",
        _ => "",
    }
}
