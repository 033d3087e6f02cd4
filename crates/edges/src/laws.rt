// The laws of edges, paths, enabling and disabling, for the layers above.
ghost use Rattle.edges.specs.EdgeLaws.{OverLaws, Access, EnablingLaws, DisablingLaws, MatchingLaws, RowLaws};

// The edges over an edge are the one above it and those over that.
pub fn edges_keep_their_laws()
    ensures laws { OverLaws }
{}

// What a path finds is open to the roles that its last set is ≤ to, and so is every edge over it.
pub fn paths_open()
    ensures laws { Access }
{}

// A tree obeys and stands after a role was enabled, where the path's last set is ≤ {role}.
pub fn enabling_keeps_its_laws()
    ensures laws { EnablingLaws }
{}

// A tree obeys and stands after a role was disabled, where the top role is not at or below it.
pub fn disabling_keeps_its_laws()
    ensures laws { DisablingLaws }
{}

// What a tree pattern matches is open to the roles that its second set is ≤ to.
pub fn patterns_open()
    ensures laws { MatchingLaws }
{}

// The rows that flags name are those whose flags are set, in tree order.
pub fn flags_name_rows()
    ensures laws { RowLaws }
{}
