//! What the printed texts tell, for the proofs of the crates above. The functions do nothing.

ghost use Rattle.cgs_print.specs.Telling.{ListsAreTold, BasesAreTold, PlacesAreTold};

/// Two lists of entries of a problem that have one text are equal. So a printed list tells the path of each entry, its
/// conditions, its basis and whether the conditions were tested to the end, or why there is no basis.
pub fn printed_lists_tell_entries()
    ensures { ListsAreTold }
{}

/// Two bases of a problem that have one text are equal.
pub fn printed_bases_tell_members()
    ensures { BasesAreTold }
{}

/// Where two lists of entries have one text of located points, each point of the problem lies alike in both: in an entry
/// with the same path, and with the same basis there or refused for the same cause, or in no entry.
pub fn located_points_tell_places()
    ensures { PlacesAreTold }
{}
