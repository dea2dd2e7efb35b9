//! Laws about the definitions alone: functions without effect, whose contract is the law.
ghost use Rattle.std.specs.Prelude.{◌≡◌, ℕ, List, Option};
ghost use Rattle.mvt_io.specs.States.{Outflow};
ghost use Rattle.mvt_tasks.specs.Checks.{EndsEarly, RunState, Prints, SaysOf};
ghost use Rattle.mvt_tasks.specs.declared.failure.Failure.TheVariants.{Memory as MemoryFailure};
ghost use Rattle.mvt_tasks.specs.declared.reply.Reply.{Reply as AReply};
ghost use Rattle.mvt_tasks.specs.declared.task.Task.{Task as ATask};
ghost use Rattle.mvt_tasks.specs.Output.{IsReply};

use mvt_base::LIMIT;

/// A task has one reply for each input.
pub fn one_reply()
    ensures there { (task : ATask) (input : List ℕ) → (reply : AReply)
        × IsReply LIMIT task input reply }
    ensures once { (task : ATask) (input : List ℕ) (a b : AReply)
        → IsReply LIMIT task input a → IsReply LIMIT task input b → a ≡ b }
{}

/// A check of files that was over before its first file, for lack of memory, was cut short, with
/// one line told.
pub fn cut_at_first()
    ensures { (limit : ℕ) (task : ATask) (holds : List ℕ → Option (List ℕ)) (names : List (List ℕ))
        (old : RunState) (errors : Outflow) (line : List ℕ) → Prints old.errors errors line
        → EndsEarly (SaysOf limit task) holds names old (record old { errors = errors }) line
        MemoryFailure }
{}
