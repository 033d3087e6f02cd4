// A house that is admitted, as a sheet. Role 0 is the top, and 1 is at or below 2.
//
// At location 0 stand two trees on label 1 (one of two lines, one empty), numbers on label 2 (the last is not open to {1}), two scripts
// and a number on label 3, and a pointer on label 4. Path 0 finds label 1, path 1 label 2, and so on; path 4 finds nothing. The patterns
// fill slot 0 with a number, 1 with a script, 2 and 3 with a pointer, and 4 with a tree.
//
// The jobs of policy 0 have roles {1}, and begin at these commands: 1 forks into two runs, 4 goes to location 1, 6 runs the scripts, 8 reads
// the numbers, 10 reads the trees and pastes each, 12 reads the pointer, goes there and runs by its path, 15 reads the trees with nothing
// behind, 16 changes numbers by a template, 18 enables role 2 and then disables role 1, 21 reads the scripts and pastes each, 23 reads the
// number on label 3, 25 changes numbers to 42, 27 reads what is not there, 33 cuts the trees. No job begins at 29 to 32: they read, change,
// enable and disable by slot 3. Nothing follows command 5, a fork.

// A set of roles is a sum of powers: {1} is 2, {0,1} is 3, {0,2} is 5, {3} is 8.
pub(crate) const HOUSE: [u8; 534] = [
    // Policies: least set.
    1, 2, //
    1, 8, //
    // Grants: policy, direction, holders, role.
    2, 0, 0, 2, 2, //
    2, 0, 1, 2, 1, //
    // Locations: policy.
    3, 0, //
    3, 1, //
    3, 0, //
    // Path steps: path, label, set.
    4, 0, 1, 2, //
    4, 1, 2, 2, //
    4, 2, 3, 2, //
    4, 3, 4, 2, //
    4, 4, 9, 2, //
    // Edges: location, depth, label, set, content, first, second.
    5, 0, 1, 1, 3, 0, 0, 0, //
    5, 0, 2, 2, 3, 1, 236, 14, 0, //
    5, 0, 2, 5, 3, 1, 12, 0, //
    5, 0, 1, 1, 3, 0, 0, 0, //
    5, 0, 1, 2, 3, 1, 7, 0, //
    5, 0, 1, 2, 3, 1, 8, 0, //
    5, 0, 1, 2, 5, 1, 9, 0, //
    5, 0, 1, 3, 3, 2, 0, 0, //
    5, 0, 1, 3, 3, 1, 5, 0, //
    5, 0, 1, 3, 3, 2, 1, 0, //
    5, 0, 1, 4, 3, 3, 1, 2, //
    5, 1, 1, 1, 9, 0, 0, 0, //
    // Template lines: template, and on as an edge.
    6, 0, 1, 6, 3, 0, 0, 0, //
    6, 0, 2, 7, 3, 4, 0, 0, //
    // Patterns: kind, slot, policy, first, second.
    7, 1, 0, 0, 0, 0, //
    7, 2, 1, 0, 0, 0, //
    7, 3, 2, 0, 2, 0, //
    7, 4, 4, 0, 3, 2, //
    // Commands: verb, next, operand kind, operand, first to fourth.
    8, 1, 2, 0, 0, 3, 0, 0, 0, //
    8, 3, 0, 0, 2, 0, 0, 0, 0, //
    8, 3, 0, 0, 2, 0, 0, 0, 0, //
    8, 2, 5, 0, 1, 8, 0, 0, 0, //
    8, 1, 0, 0, 0, 0, 0, 0, 0, //
    8, 3, 7, 0, 2, 0, 0, 0, 0, //
    8, 1, 0, 0, 0, 0, 0, 0, 0, //
    8, 4, 9, 0, 1, 0, 0, 0, 0, //
    8, 1, 0, 0, 0, 0, 0, 0, 0, //
    8, 4, 11, 0, 0, 3, 0, 0, 0, //
    8, 5, 0, 0, 1, 0, 4, 4, 0, //
    8, 4, 13, 0, 3, 2, 0, 0, 0, //
    8, 2, 14, 1, 2, 2, 0, 0, 0, //
    8, 3, 0, 1, 3, 0, 0, 0, 0, //
    8, 4, 0, 0, 0, 3, 0, 0, 0, //
    8, 5, 17, 0, 1, 0, 5, 0, 0, //
    8, 1, 0, 0, 0, 0, 0, 0, 0, //
    8, 6, 19, 0, 0, 2, 0, 0, 0, //
    8, 7, 20, 0, 0, 1, 0, 0, 0, //
    8, 1, 0, 0, 0, 0, 0, 0, 0, //
    8, 4, 22, 0, 2, 1, 0, 0, 0, //
    8, 5, 0, 0, 1, 0, 4, 1, 0, //
    8, 4, 24, 0, 2, 0, 0, 0, 0, //
    8, 1, 0, 0, 0, 0, 0, 0, 0, //
    8, 5, 0, 0, 1, 0, 1, 42, 0, //
    8, 1, 0, 0, 0, 0, 0, 0, 0, //
    8, 4, 28, 0, 4, 0, 0, 0, 0, //
    8, 1, 0, 0, 0, 0, 0, 0, 0, //
    8, 4, 0, 1, 3, 0, 0, 0, 0, //
    8, 5, 0, 1, 3, 0, 1, 42, 0, //
    8, 6, 0, 1, 3, 2, 0, 0, 0, //
    8, 7, 0, 1, 3, 1, 0, 0, 0, //
    8, 5, 0, 0, 0, 3, 0, 0, 0, //
    // Jobs: policy, roles, command.
    9, 0, 2, 1, //
    9, 0, 2, 4, //
    9, 0, 2, 6, //
    9, 1, 8, 26, //
    9, 0, 2, 8, //
    9, 0, 2, 10, //
    9, 0, 2, 12, //
    9, 0, 2, 15, //
    9, 0, 2, 16, //
    9, 0, 2, 18, //
    9, 0, 2, 21, //
    9, 0, 2, 23, //
    9, 0, 2, 25, //
    9, 0, 2, 27, //
    9, 0, 2, 33,
];
