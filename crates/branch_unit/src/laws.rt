//! Laws of the definitions: what branches, traps and comparisons always do.

ghost use Rattle.std.specs.Prelude.{true, false};
ghost use Rattle.branch_unit.specs.Laws.{AlwaysGoes, EndsAtOne, EachTrapIs, EachHasOneOrder};

/// A branch with BO 20 is always taken, and leaves CTR as it was.
pub fn bo_20_always_branches()
    ensures { AlwaysGoes 20 }
{}

/// A loop that ends with `bdnz`, whose BO is 16, ends where CTR was 1.
pub fn bdnz_ends_at_count_1()
    ensures { EndsAtOne 16 }
{}

/// A trap with TO 31 always traps, and one with TO 0 never does.
pub fn to_31_always_traps()
    ensures always { EachTrapIs 31 true }
    ensures never { EachTrapIs 0 false }
{}

/// A comparison of two numbers finds exactly one of less, greater and equal.
pub fn comparisons_find_one_order()
    ensures { EachHasOneOrder }
{}
