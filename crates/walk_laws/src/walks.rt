//! Laws of the definitions of walks. Each function does nothing: its contract is the law.

ghost use Rattle.walk_laws.specs.ConfinedLaws.{AdmittedAccessesAreConfined, AdmittedAccessesKeepLowBits};
ghost use Rattle.walk_laws.specs.PartLaws.{NothingKeptIsFreshPart, PartResumedIsOne, PartResumedIsWalk, PartResumedIsShort, PartResumedIsInside};
ghost use Rattle.walk_laws.specs.WalkLaws.{
  FreshWalkIsOne,
  FreshWalkExists,
  TrueWalkIsOne,
  PermittedWalkIsWalk,
  TruePartitionWalkIsOne,
  FreshPartitionWalkIsOne,
  WalkIsShort,
  PartitionWalkIsShort,
  ResumedWalkIsOne,
  ResumedWalkIsWalk,
  NothingKeptIsFresh,
  NothingUsedIsFresh,
  PartitionWalkIsInside,
  EnteredWalkBeginsWithPart,
};

/// Two fresh walks of an ask at one moment, over the same words, are equal.
pub fn fresh_walk_is_one()
    ensures { FreshWalkIsOne }
{}

/// An ask has a fresh walk at each moment, whatever the words are.
pub fn fresh_walk_exists()
    ensures { FreshWalkExists }
{}

/// Two walks of an ask whose words stand as they were read are equal in addresses, values and outcome.
pub fn true_walk_is_one()
    ensures { TrueWalkIsOne }
{}

/// Readings follow the walk of an ask by its rights to a page exactly where they are a walk to it which the rights permit.
pub fn permitted_walk_is_walk()
    ensures { PermittedWalkIsWalk }
{}

/// An access that is admitted to a real address is confined, if it is a guest's: it reaches the pages alone that the partition's
/// tree gives it. The low bits of the address stay.
pub fn admitted_accesses_are_confined()
    ensures confined { AdmittedAccessesAreConfined }
    ensures low_bits { AdmittedAccessesKeepLowBits }
{}

/// Two walks of one address in a partition's tree whose words stand as they were read are equal in addresses, values and
/// outcome.
pub fn true_partition_walk_is_one()
    ensures { TruePartitionWalkIsOne }
{}

/// Two fresh walks of one address in a partition's tree, at one moment over the same words, are equal.
pub fn fresh_partition_walk_is_one()
    ensures { FreshPartitionWalkIsOne }
{}

/// A walk of an ask has at most 36 readings.
pub fn walk_has_at_most_36_readings()
    ensures { WalkIsShort }
{}

/// A walk of a partition's tree has at most 5 readings.
pub fn partition_walk_has_at_most_5_readings()
    ensures { PartitionWalkIsShort }
{}

/// Two walks of an ask that use the same answers, at one moment over the same words, are equal.
pub fn resumed_walk_is_one()
    ensures { ResumedWalkIsOne }
{}

/// A walk that uses what is kept is a walk of the ask.
pub fn resumed_walk_is_walk()
    ensures { ResumedWalkIsWalk }
{}

/// Where nothing is kept, a walk that uses what is kept is the fresh walk.
pub fn nothing_kept_is_fresh()
    ensures { NothingKeptIsFresh }
{}

/// A walk that may use what is kept, and used nothing of it, is the fresh walk.
pub fn nothing_used_is_fresh()
    ensures { NothingUsedIsFresh }
{}

/// A walk of a partition's tree is part of each walk that enters the tree.
pub fn partition_walk_is_inside()
    ensures { PartitionWalkIsInside }
{}

/// A walk that enters a partition's tree begins with a walk of that tree.
pub fn entered_walk_begins_with_part()
    ensures { EnteredWalkBeginsWithPart }
{}

/// Where nothing is kept, a partition's walk that begins with what is kept is the fresh one.
pub fn nothing_kept_is_fresh_partition_walk()
    ensures { NothingKeptIsFreshPart }
{}

/// Two partition's walks that begin with the same answers, at one moment over the same words, are equal.
pub fn resumed_partition_walk_is_one()
    ensures { PartResumedIsOne }
{}

/// A partition's walk that begins with what is kept is a walk of the address.
pub fn resumed_partition_walk_is_walk()
    ensures { PartResumedIsWalk }
{}

/// It has at most 5 items.
pub fn resumed_partition_walk_has_at_most_5_items()
    ensures { PartResumedIsShort }
{}

/// It is part of each walk that enters the tree and uses the same answers.
pub fn resumed_partition_walk_is_inside()
    ensures { PartResumedIsInside }
{}
