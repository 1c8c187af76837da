//! What a request makes of a table, in the words of the plans, and what goes through them.

ghost use Rattle.iris_plan_laws.specs.Blocks.{RowsKeepBlocks, WritesChangeBlocks, ResizesChangeBlocks};
ghost use Rattle.iris_plan_laws.specs.Fetches.{RecordsFit, FetchesFit, FetchesKeep};
ghost use Rattle.iris_plan_laws.specs.FileChanges.{BetweenIsSound, WritesGoThrough, ResizesGoThrough};
ghost use Rattle.iris_plan_laws.specs.Makes.{MakesGoThrough};
ghost use Rattle.iris_plan_laws.specs.Moves.{HandsAreHeld, NamesLeadOn, NoNameComes, MovesGoThrough};
ghost use Rattle.iris_plan_laws.specs.PageChanges.{PagesChangeEach, WritesChangePages, ResizesChangePages, RowsKeepPages};
ghost use Rattle.iris_plan_laws.specs.Replies.{ListsAreReplies, StatsAreReplies};
ghost use Rattle.iris_plan_laws.specs.Steps.{FilesAreRefiled, MakesAreRows};
ghost use Rattle.iris_plan_laws.specs.Takes.{TakesAreRows, PutsAreRows};

/// A change of the file at a path is one of its length, its counter and its versions.
pub fn files_are_refiled()
    ensures { FilesAreRefiled }
{}

/// What is made is one row more in its directory.
pub fn makes_are_rows()
    ensures { MakesAreRows }
{}

/// A row goes from a directory into the hand, and comes from it into a directory.
pub fn rows_go_and_come()
    ensures take { TakesAreRows }
    ensures puts { PutsAreRows }
{}

/// A row of a sound table is taken into the hand. Names that don't go through it lead on, and no name comes.
pub fn rows_are_left()
    ensures held { HandsAreHeld }
    ensures leads { NamesLeadOn }
    ensures names { NoNameComes }
{}

/// Which blocks a request changes: none where rows are made or moved, and at most 65 of a file that is written or cut.
pub fn blocks_change()
    ensures rows { RowsKeepBlocks }
    ensures writes { WritesChangeBlocks }
    ensures resizes { ResizesChangeBlocks }
{}

/// The table between the two steps of a cut is sound.
pub fn between_is_sound()
    ensures { BetweenIsSound }
{}

/// What a request makes goes through: the plan leaves a draft that pictures the next table.
pub fn makes_go_through()
    ensures { MakesGoThrough }
{}

/// So does what it moves.
pub fn moves_go_through()
    ensures { MovesGoThrough }
{}

/// So does what it writes.
pub fn writes_go_through()
    ensures { WritesGoThrough }
{}

/// So does what it cuts or fills up.
pub fn resizes_go_through()
    ensures { ResizesGoThrough }
{}

/// What is written goes through the resident blocks: the plan leaves a draft of pages that makes them show the next table.
pub fn writes_change_pages()
    ensures { WritesChangePages }
{}

/// So does what is cut or filled up.
pub fn resizes_change_pages()
    ensures { ResizesChangePages }
{}

/// So does what makes or moves rows, with no page drafted.
pub fn rows_keep_pages()
    ensures { RowsKeepPages }
{}

/// What goes through the blocks changes each that it drafts, and each of these was resident, or a hole.
pub fn pages_change_each()
    ensures { PagesChangeEach }
{}

/// What the plans that read paths answer is the table's reply.
pub fn reads_are_replies()
    ensures lists { ListsAreReplies }
    ensures stats { StatsAreReplies }
{}

/// A node whose record was fetched under the hash that its resident parent holds is the table's with its true hashes, unless
/// SHA-256 collides, and goes into the cache below that parent.
pub fn fetched_nodes_fit()
    ensures records { RecordsFit }
    ensures fetched { FetchesFit }
    ensures inserted { FetchesKeep }
{}
