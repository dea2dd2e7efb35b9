//! Laws about the definitions alone: functions without effect, whose contract is the law.
ghost use Rattle.std.specs.Prelude.{◌≡◌, ◌+◌, ℕ, List, take};
ghost use Rattle.mvt_view.specs.FieldLines.{fields_fault, fields_lines};

/// The first bytes of an input, up to one beyond the limit, have the same fields and the same fault
/// as the whole input.
pub fn front_reports()
    ensures lines { (limit : ℕ) (input : List ℕ)
        → fields_lines limit (take (limit + 1) input) ≡ fields_lines limit input }
    ensures fault { (limit : ℕ) (input : List ℕ)
        → fields_fault limit (take (limit + 1) input) ≡ fields_fault limit input }
{}
