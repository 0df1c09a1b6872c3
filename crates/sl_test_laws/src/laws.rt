//! The laws.

ghost use Rattle.sl_test_laws.specs.Blocks.{ActionsStandInOrder, BlocksAreTakenAway, InnermostTableIsGiven, PatternsStandInBrackets};
ghost use Rattle.sl_test_laws.specs.Conditions.{MoreRoomReadsTheSame};
ghost use Rattle.sl_test_laws.specs.Counting.{CountedNestingIsAFault, CountedTreesAreWithin, NestingIsCounted, TreesKeepTheCount};
ghost use Rattle.sl_test_laws.specs.Lines.{AllLinesAreATree, LinesHaveOneTree};
ghost use Rattle.sl_test_laws.specs.Origins.{BytesHaveTheirOriginsPlace, LinesHaveOrigins};
ghost use Rattle.sl_test_laws.specs.Places.{BytesHaveTheirLinesPlace};
ghost use Rattle.sl_test_laws.specs.Replacement.{LevelsOnlyRefuse, PiecesAreTheText, TextsWithoutNamesStay};

/// The pieces of a text, each with its bytes, are the text.
pub fn pieces_are_the_text()
    ensures { PiecesAreTheText }
{}

/// A text without `$(` is written as it is.
pub fn texts_without_names_stay()
    ensures { TextsWithoutNamesStay }
{}

/// What a text is replaced by doesn't depend on how many levels are left, unless it is refused for them.
pub fn levels_only_refuse()
    ensures { LevelsOnlyRefuse }
{}

/// The bound on the parts of a condition is none: with more room it is read as the same.
pub fn more_room_reads_the_same()
    ensures { MoreRoomReadsTheSame }
{}

/// Any lines of a file are a tree in which each line is what it may be.
pub fn all_lines_are_a_tree()
    ensures { AllLinesAreATree }
{}

/// Such trees with the same lines are the same.
pub fn lines_have_one_tree()
    ensures { LinesHaveOneTree }
{}

/// A byte of a text has the place of its line.
pub fn bytes_have_their_lines_place()
    ensures { BytesHaveTheirLinesPlace }
{}

/// Each line of an expanded text is given by a line of the main file, or of a file that was included there, and has that
/// line's place.
pub fn lines_have_origins()
    ensures { LinesHaveOrigins }
{}

/// The place of a byte is that of the line which gave it.
pub fn bytes_have_their_origins_place()
    ensures { BytesHaveTheirOriginsPlace }
{}

/// Each constructor inside blocks stands in all blocks that are round it, the outermost first.
pub fn blocks_are_taken_away()
    ensures { BlocksAreTakenAway }
{}

/// A constructor's pattern in blocks is that of all written patterns from the outermost inwards, each in brackets.
pub fn patterns_stand_in_brackets()
    ensures { PatternsStandInBrackets }
{}

/// The actions in blocks are all written ones, those of the outermost block first.
pub fn actions_stand_in_order()
    ensures { ActionsStandInOrder }
{}

/// The table in blocks is the constructor's own, else that of the innermost block that writes one.
pub fn innermost_table_is_given()
    ensures { InnermostTableIsGiven }
{}

/// No symbol of a tree within the limits goes past one, by counting over the symbols alone.
pub fn trees_keep_the_count()
    ensures { TreesKeepTheCount }
{}

/// A tree of any limits none of whose symbols goes past one by counting is within the limits.
pub fn counted_trees_are_within()
    ensures { CountedTreesAreWithin }
{}

/// Where a symbol goes past a limit by counting and some tree goes on with it, it is a fault of nesting.
pub fn counted_nesting_is_a_fault()
    ensures { CountedNestingIsAFault }
{}

/// A symbol that is a fault of nesting, the first one, goes past a limit by counting.
pub fn nesting_is_counted()
    ensures { NestingIsCounted }
{}
