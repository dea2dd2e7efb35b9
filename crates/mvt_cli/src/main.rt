//! The program `mvt`: lists, shows, draws, checks, explains, lints, rewrites, mends and extracts
//! Mapbox Vector Tiles.
#![tactic(auto)]

ghost use Rattle.std.specs.Prelude.{◌≡◌, ◌⊎◌, codes, MatchOption};
ghost use Rattle.mvt_tasks.specs.Checks.{Prints};
ghost use Rattle.mvt_cli.specs.Hints.{hint_of};

mod hints;
mod run;

use hints::{Oddity, Watched, WatchedFolder, hint, is_told};
use mvt_io::{Host, Sink};
use mvt_tasks::{Disk, print};
use mvt_words::arguments;
use run::{refuse, run};
use std::alloc::Global;
use std::io::IsTerminal;
use std::process::ExitCode;

fn main(rt: HostRuntime) -> ExitCode {
    let mut reader = Watched::new(Host::new(rt.stdin()));
    let mut folder = WatchedFolder::new(rt.alloc(), Disk::new(&rt));
    let mut writer = Host::new(rt.stdout());
    let mut errors = Host::new(rt.stderr());
    let status = match arguments(&rt) {
        Ok(words) => run(
            rt.alloc(),
            &words,
            &mut folder,
            &mut reader,
            &mut writer,
            &mut errors,
        ),
        Err(refusal) => refuse(refusal, &mut errors),
    };
    if is_told(status, rt.stderr().is_terminal()) {
        match folder.noted() {
            Some((name, oddity)) => tell(rt.alloc(), name.as_str(), *oddity, &mut errors),
            None => tell_of_input(rt.alloc(), reader.oddity(), &mut errors),
        }
    }
    ExitCode::from(status)
}

/// Adds a line about a refused or unread input, if there is one to add; nothing for lack of memory.
fn tell<E: Sink>(alloc: Global, file: &str, oddity: Oddity, errors: &mut E)
    ensures { (errors.new ≡ errors.old)
        ⊎ Prints (E.state errors.old) (E.state errors.new) (hint_of file.now oddity) }
{
    if let Ok(line) = hint(alloc, file, oddity) {
        print(errors, line.as_str());
    }
}

/// The same of standard input, which has no name.
fn tell_of_input<E: Sink>(alloc: Global, oddity: Option<Oddity>, errors: &mut E)
    ensures { MatchOption oddity (errors.new ≡ errors.old) (λ oddity. (errors.new ≡ errors.old)
        ⊎ Prints (E.state errors.old) (E.state errors.new) (hint_of (codes "FILE") oddity)) }
{
    if let Some(oddity) = oddity {
        tell(alloc, "FILE", oddity, errors);
    }
}
