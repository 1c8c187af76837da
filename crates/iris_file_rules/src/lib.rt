//! The rules of a file system's histories: its table of rows as what a portal keeps, and what each request reaches.
//!
//! Each law is the contract of a function that does nothing.
#![tactic(auto)]

ghost use Rattle.iris_file_rules.specs.DraftLaws.{DraftsMove};
ghost use Rattle.iris_file_rules.specs.Laws.{UpkeepReachesNothing, VersionsStandForOneBlock, TrueRecordsPass, TrueHashesAreExpected, FreshIsSaved};
ghost use Rattle.iris_file_rules.specs.TableLaws.{TablesAreSound, TablesAreWellFormed, TablesHaveTexts};

/// A sync and a root hash reach no name.
pub fn upkeep_reaches_nothing()
    ensures { UpkeepReachesNothing }
{}

/// After any past the table is sound, and what it shows is a tree, formed and apart.
pub fn tables_are_sound()
    ensures sound { TablesAreSound }
    ensures formed { TablesAreWellFormed }
{}

/// After a legal past the names of the table are UTF-8.
pub fn tables_have_texts()
    ensures { TablesHaveTexts }
{}

/// In one history a block's name and version stand for one block.
pub fn versions_stand_for_one_block()
    ensures { VersionsStandForOneBlock }
{}

/// In a legal history a true record passes the check of its name.
pub fn true_records_pass()
    ensures { TrueRecordsPass }
{}

/// What plans over a cache say of a true hash is what a history expects.
pub fn true_hashes_are_expected()
    ensures { TrueHashesAreExpected }
{}

/// The state with two empty directories saves the empty history.
pub fn fresh_is_saved()
    ensures { FreshIsSaved }
{}

/// A draft over cache and resident blocks, once it is made, moves every name as an entered call does.
pub fn drafts_move()
    ensures { DraftsMove }
{}
