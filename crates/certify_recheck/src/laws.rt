//! What a certificate's parts are.

ghost use Rattle.certify_recheck.specs.Following.{PartsFollow};
ghost use Rattle.certify_recheck.specs.Written.{WrittenLinesAreReadBack};
ghost use Rattle.certify_recheck.specs.Laws.{OneAnswer, PartsAreLawfulTrees};

/// The first lines are just what is due where a part is, exactly where they are those of the
/// obligation and of a lawful tree; and no line is then the first bad one.
pub fn parts_are_lawful_trees()
    ensures trees { PartsAreLawfulTrees }
    ensures one_answer { OneAnswer }
{}

/// What stands behind a part is judged from the spot behind it: where the lines between two spots
/// are just what is due, and those between the second and a third what is due behind it, those
/// between the first and the third are both; and a line that is bad for one is bad for both.
pub fn parts_follow_one_another()
    ensures { PartsFollow }
{}

/// A line that is written is read back, also in front of others.
pub fn written_lines_are_read_back()
    ensures { WrittenLinesAreReadBack }
{}
