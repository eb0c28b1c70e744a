// What is true of every tree. Each function does nothing: its contract is the theorem.
ghost use Rattle.tree.specs.Laws.{NumbersFit, OneTree, RankRule, ReadWritesBack, ReadsAList, WalksAreExact, WrittenReadsBack};
ghost use Rattle.tree.specs.Worked.{EmptyExample, Example, FlatExample, OpenedExample, RefusedExamples, WritableExample};

// A tree holds a list of cells; each list of cells has a tree, and only one.
pub fn each_set_has_one_tree()
    ensures a_tree_reads_as_a_list { ReadsAList }
    ensures each_list_has_a_tree { WrittenReadsBack }
    ensures no_other_bits_read_so { ReadWritesBack }
    ensures same_cells_same_bits { OneTree }
{}

// Where the block under a 1 begins, and that going down by it is exact.
pub fn rank_rule()
    ensures block_under_a_one { RankRule }
    ensures each_bit_has_a_square { NumbersFit }
    ensures going_down_is_exact { WalksAreExact }
{}

// Trees worked out by hand: there are trees that are valid, opened and written, and bitmaps that are not.
pub fn worked_trees()
    ensures two_cells { Example }
    ensures no_cell { EmptyExample }
    ensures one_level { FlatExample }
    ensures not_valid { RefusedExamples }
    ensures opened { OpenedExample }
    ensures writable { WritableExample }
{}
