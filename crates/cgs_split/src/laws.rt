//! What holds of all nodes and trees, for the proofs of the crates above. The functions do nothing.

ghost use Rattle.cgs_split.specs.Examples.{ContradictionExample, GivenConditionExample, HighDegreeExample, LineExamples, NothingExample, TwoMembersExample, UnitExample};
ghost use Rattle.cgs_split.specs.Examples.{MissingCoefficientIsRefused, NotMinimalIsRefused, OldZerosAreRefused, OverlapIsRefused};
ghost use Rattle.cgs_split.specs.Laws.{EntriesAreOfRing, EntriesShowOne, HeightsFall, ListIsComprehensive, NodeIsSound, NodesAreNodes, TestedAreConsistent, TreeIsComprehensive};

/// Each point of a good branch's region lies in its entry's region or in one child's, and no other point does; a basis is one of what
/// the polynomials become there, and the children are good branches of the same ideal.
pub fn node_is_sound()
    ensures { NodeIsSound }
{}

/// Each point that meets the conditions lies in the region of one entry of the list, any other in none, and at each point of an entry
/// with a basis this becomes a minimal Gröbner basis of what the polynomials become (Weispfenning 1992; Kapur, Sun, Wang 2010).
pub fn tree_is_comprehensive()
    ensures { TreeIsComprehensive }
{}

/// The node of each branch is one.
pub fn nodes_are_nodes()
    ensures { NodesAreNodes }
{}

/// The list of the tree of all nodes is comprehensive.
pub fn list_is_comprehensive()
    ensures { ListIsComprehensive }
{}

/// The conditions of an entry of that list are in the parameters alone, and its basis is of the ring.
pub fn entries_are_of_ring()
    ensures { EntriesAreOfRing }
{}

/// That basis is 1 alone, or has variables in each member: so it shows whether 1 is in the ideal at its points.
pub fn entries_show_one()
    ensures { EntriesShowOne }
{}

/// Where an entry of that list is tested, its conditions do not contradict each other.
pub fn tested_are_consistent()
    ensures { TestedAreConsistent }
{}

/// The height of a branch is above that of its children.
pub fn heights_fall()
    ensures { HeightsFall }
{}

/// Worked trees.
pub fn tree_examples()
    ensures line { LineExamples }
    ensures given_condition { GivenConditionExample }
    ensures two_members { TwoMembersExample }
    ensures unit { UnitExample }
    ensures nothing { NothingExample }
    ensures contradiction { ContradictionExample }
    ensures high_degree { HighDegreeExample }
{}

/// Children that are none of a sound node: two that share a point, a basis where the members in the parameters alone need not vanish,
/// one where a leading coefficient may vanish, and one that is not minimal.
pub fn other_children_are_refused()
    ensures overlap { OverlapIsRefused }
    ensures old_zeros { OldZerosAreRefused }
    ensures missing_coefficient { MissingCoefficientIsRefused }
    ensures not_minimal { NotMinimalIsRefused }
{}
