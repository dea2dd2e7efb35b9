//! The option `--version`.
ghost use Rattle.std.specs.Prelude.{◌≡◌, IfOk, IfErr, codes};
ghost use Rattle.mvt_tasks.specs.Output.{done, version_line};

use crate::failure::Failure;
use crate::reply::Reply;
use mvt_base::Items;
use std::alloc::Global;

/// The program's name and version, in a line.
pub(crate) fn told_version(alloc: Global) -> Result<Reply, Failure>
    ensures reply { IfOk result (λ reply. reply ≡ done version_line) }
    ensures failed { IfErr result (λ failure. failure ≡ Failure.Memory) }
{
    Ok(Reply {
        output: Some(Items::new(Vec::from_slice(alloc, b"mvt 0.4.0\n")?)),
        error_line: None,
        changes: None,
        has_findings: false,
    })
}
