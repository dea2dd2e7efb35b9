//! Laws about the definitions alone: functions without effect, whose contract is the law.
ghost use Rattle.std.specs.Prelude.{◌≡◌, ◌↔◌, Some};
ghost use Rattle.mvt_base.specs.Rules.{Rules, AreOrdered, IsLeast, first};

/// In a table in order, the fault listed first is that of the broken rule of least rank.
pub fn first_is_least<F>()
    ensures { (rules : Rules F) (fault : F) → AreOrdered rules → (first rules ≡ Some fault)
        ↔ IsLeast rules fault }
{}
