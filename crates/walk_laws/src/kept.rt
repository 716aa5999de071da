//! Laws of what is kept: each function's contract is one, and it does nothing.

ghost use Rattle.walk_laws.specs.KeptBegins.{KeptDirectoryBeginsPart, KeptPageBeginsPart, KeptDirectoryBeginsProcess};
ghost use Rattle.walk_laws.specs.ResumedReadings.{ResumedReadingsAreCurrent, ResumedReadingsAreTrue};
ghost use Rattle.walk_laws.specs.LastFourLaws.{WhatStandsIsNewest, TheNewestStands};
ghost use Rattle.walk_laws.specs.ResumedExists.{ResumedWalkExists, StandingWalkExists};
ghost use Rattle.journal_core.specs.Translating.{Stays};
ghost use Rattle.journal_core.specs.Choice.{Choice, PlainChoice};
ghost use Rattle.journal_core.specs.Early.{PagesChoice};
ghost use Rattle.walk_laws.specs.KeptLaws.{OneFillOfAKeyStands, OneDirectoryIsDeepest, UncoveredReadingsStayCurrent, LaterCompletionsDoNotMatter, AChangeOfTheTableCoversEverything, AtMostFourFillsOfASetStand, LaterRowsDoNotMatter, HitsAreAdmitted, LaterRowsKeepAnAnswer, LaterRowsKeepAnswers, LaterStepsKeepUses, FillsAreFew, FillsOfWalksStay, AChoiceKeepsTheRule, APagesChoiceKeepsTheRule, APlainChoiceKeepsTheRule, ReadingsAreTrueAgain};

/// At most one fill of a key stands.
pub fn one_fill_of_a_key_stands()
    ensures { OneFillOfAKeyStands }
{}

/// Of the standing directories for an address one leaves the fewest bits.
pub fn one_directory_is_deepest()
    ensures { OneDirectoryIsDeepest }
{}

/// A reading that is current, and that nothing completed since then covers, stays current.
pub fn uncovered_readings_stay_current()
    ensures { UncoveredReadingsStayCurrent }
{}

/// What is completed in a step or later changes nothing of what is current in that step.
pub fn later_completions_do_not_matter()
    ensures { LaterCompletionsDoNotMatter }
{}

/// A change of the partition table covers every reading.
pub fn a_change_of_the_table_covers_everything()
    ensures { AChangeOfTheTableCoversEverything }
{}

/// At most four fills of one thread, one kind and one set stand at once.
pub fn at_most_four_fills_of_a_set_stand()
    ensures { AtMostFourFillsOfASetStand }
{}

/// Which fills stand at a step is not changed by reads, fills and completions that come then or later.
pub fn later_rows_do_not_matter()
    ensures { LaterRowsDoNotMatter }
{}

/// An ask is admitted to what its own standing fill gives, if that fill was made by a finished walk and its readings are true.
pub fn hits_are_admitted()
    ensures { HitsAreAdmitted }
{}

/// Answers that keep the rule of a step keep it when reads, fills and completions come after them.
pub fn later_rows_keep_answers()
    ensures one { LaterRowsKeepAnAnswer }
    ensures all { LaterRowsKeepAnswers }
{}

/// A choice stays the choice when reads, fills and completions come after it.
pub fn later_rows_keep_a_choice()
    ensures choice { Stays Choice }
    ensures pages { Stays PagesChoice }
    ensures plain { Stays PlainChoice }
{}

/// The uses of a step that keep the rule keep it when later steps come.
pub fn later_steps_keep_uses()
    ensures { LaterStepsKeepUses }
{}

/// The readings of a directory of a partition's tree that is kept begin the walk of each address of its key.
pub fn kept_directory_begins_part()
    ensures { KeptDirectoryBeginsPart }
{}

/// So do those of a guest page that is kept.
pub fn kept_page_begins_part()
    ensures { KeptPageBeginsPart }
{}

/// The readings of a directory of a process's tree that is kept begin the walk of each ask of an address of its key.
pub fn kept_directory_begins_process()
    ensures { KeptDirectoryBeginsProcess }
{}

/// The readings of a walk that resumes at what stands are current.
pub fn resumed_readings_are_current()
    ensures { ResumedReadingsAreCurrent }
{}

/// They are true, if those of the journal are.
pub fn resumed_readings_are_true()
    ensures { ResumedReadingsAreTrue }
{}

/// A walk of an ask to a page adds at most 35 fills.
pub fn fills_are_few()
    ensures { FillsAreFew }
{}

/// A fill of a finished walk stays one when reads are added.
pub fn fills_of_walks_stay()
    ensures { FillsOfWalksStay }
{}

/// A choice keeps the rule of a step.
pub fn a_choice_keeps_the_rule()
    ensures choice { AChoiceKeepsTheRule }
    ensures pages { APagesChoiceKeepsTheRule }
    ensures plain { APlainChoiceKeepsTheRule }
{}

/// After an answer that keeps the rule all readings are true, if those before it were.
pub fn readings_are_true_again()
    ensures { ReadingsAreTrueAgain }
{}

/// A fill that stands is the newest of its key among the last four of its kind and set.
pub fn what_stands_is_newest()
    ensures { WhatStandsIsNewest }
{}

/// The newest of a key among the last four of its kind and set stands, if its readings are current.
pub fn the_newest_stands()
    ensures { TheNewestStands }
{}

/// An ask has a walk that uses what is kept, if each kept entry begins the walk that it is kept for.
pub fn resumed_walk_exists()
    ensures { ResumedWalkExists }
{}

/// An ask has a walk that uses what stands, if each fill that stands was made by a finished walk.
pub fn standing_walk_exists()
    ensures { StandingWalkExists }
{}
