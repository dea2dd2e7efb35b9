//! What the program `mvt` does with tiles: it lists, shows, draws, checks, explains, lints,
//! rewrites, mends and extracts, over any reader and writer, and checks the files of any folder.
#![tactic(auto)]

mod answering;
mod checking;
mod explaining;
mod extraction;
mod failure;
mod files;
mod folder;
pub mod laws;
mod linting;
mod listing;
mod marks;
mod memory;
mod mending;
mod names;
mod refusal;
mod reply;
mod rewriting;
mod running;
mod tally;
mod task;
mod version;
mod viewing;

pub use answering::answer;
pub use checking::check;
pub use explaining::explain;
pub use extraction::extract_layers;
pub use failure::Failure;
pub use files::{check_files, tell_files};
pub use folder::{Disk, Folder, OpenFiles, Visit};
pub use linting::lint_tile;
pub use listing::list_fields;
pub use memory::{MemoryFile, MemoryFolder};
pub use mending::mend;
pub use names::Names;
pub use reply::{Reply, print};
pub use rewriting::rewrite;
pub use running::run_task;
pub use tally::{Tally, Verdict};
pub use task::Task;
pub use viewing::{View, view_tile};
