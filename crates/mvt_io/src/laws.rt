//! Laws about the definitions alone: functions without effect, whose contract is the law.
ghost use Rattle.std.specs.Prelude.{◌≡◌, List, ℕ, [], ◌++◌, Option, None};
ghost use Rattle.std.specs.declared.io.ErrorKind.{ErrorKind as AnErrorKind};
ghost use Rattle.mvt_io.specs.States.{Outflow};
ghost use Rattle.mvt_io.specs.Transfers.{Wrote, WroteFront};

/// Pieces that were written one after another are written as a whole, and a front of a later one
/// ends a front of the whole.
pub fn writes_add_up()
    ensures nothing { (s : Outflow) → Wrote s s [] }
    ensures more { (a b c : Outflow) (first then : List ℕ) → Wrote a b first → Wrote b c then
        → Wrote a c (first ++ then) }
    ensures none { (s : Outflow) (bytes : List ℕ) → WroteFront s s bytes None }
    ensures part { (a b c : Outflow) (before bytes after whole : List ℕ)
        (kind : Option AnErrorKind) → whole ≡ before ++ (bytes ++ after) → Wrote a b before
        → WroteFront b c bytes kind → WroteFront a c whole kind }
{}
