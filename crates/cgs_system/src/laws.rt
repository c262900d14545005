//! What holds of all exact lists, and a worked one. The functions do nothing.

ghost use Rattle.cgs_system.specs.Examples.{GapIsRefused, LineListIsExact, OtherOrderIsRefused, UntestedIsRefused};
ghost use Rattle.cgs_system.specs.Examples.{OtherConditionsAreRefused, OtherPathIsRefused, PartIsJoined, PartLeftOutIsRefused};
ghost use Rattle.cgs_system.specs.Laws.{ExactListIsComprehensive, ExactListIsUnique, JoinedListIsComprehensive, JoinedListIsExact, TestedJoinIsExact, TestedListIsExact, TestedListsAgree};

use cgs_split::tree_examples;

/// A problem has at most one exact list, since an ideal has at most one reduced Gröbner basis (Cox, Little, O'Shea,
/// chapter 2, section 7, theorem 5).
pub fn exact_list_is_unique()
    ensures { ExactListIsUnique }
{}

/// The exact list is comprehensive, as is each list within limits.
pub fn exact_list_is_comprehensive()
    ensures { ExactListIsComprehensive }
{}

/// The list of a problem within limits is the exact one, unless an entry is refused or untested.
pub fn tested_list_is_exact()
    ensures { TestedListIsExact }
{}

/// So two lists within different limits are the same, unless an entry of one of them is refused or untested.
pub fn tested_lists_agree()
    ensures { TestedListsAgree }
{}

/// A comprehensive list stays one if each refused entry is replaced by a comprehensive list of the problem with the entry's conditions,
/// behind the entry's path.
pub fn joined_list_is_comprehensive()
    ensures { JoinedListIsComprehensive }
{}

/// A list within limits becomes the exact one if its other entries are tested, and each refused one is replaced by the exact list of the
/// problem with the entry's conditions, behind the entry's path.
pub fn joined_list_is_exact()
    ensures { JoinedListIsExact }
{}

/// So the list that is joined from runs within any limits is the exact one, and that of one run, unless an entry of it is refused or untested.
pub fn tested_join_is_exact()
    ensures { TestedJoinIsExact }
{}

/// The two entries of a*x - 1 modulo 7, and three lists that are not exact: one of the two, the two the other way round, and the two with
/// one that is untested.
pub fn line_list_is_exact()
    ensures exact { LineListIsExact }
    ensures gap { GapIsRefused }
    ensures other_order { OtherOrderIsRefused }
    ensures untested { UntestedIsRefused }
{
    tree_examples();
}

/// The list of a*x - 1 with six units, joined with the list where a is 0; and three lists that are joined wrongly: without that part, with
/// the list under the conditions of the other entry in its place, and with the part behind another path.
pub fn part_is_joined()
    ensures joined { PartIsJoined }
    ensures left_out { PartLeftOutIsRefused }
    ensures other_conditions { OtherConditionsAreRefused }
    ensures other_path { OtherPathIsRefused }
{
    tree_examples();
}
