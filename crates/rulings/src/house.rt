// A house that is admitted, as a sheet. Role 0 is the top, and 1 is at or below 2.

// A set of roles is a sum of powers: {0,1} is 3, {0,2} is 5, {0,3} is 9.
pub(crate) const HOUSE: [u8; 274] = [
    // Policies: least set.
    1, 2, //
    1, 8, //
    // Grants: policy, direction, holders, role.
    2, 0, 0, 2, 2, //
    2, 0, 1, 2, 1, //
    // Locations: policy.
    3, 0, //
    3, 1, //
    // Path steps: path, label, set.
    4, 0, 7, 3, //
    4, 1, 7, 5, //
    4, 2, 7, 9, //
    // Edges: location, depth, label, set, content, first, second. On one stands 1900.
    5, 0, 1, 7, 3, 0, 0, 0, //
    5, 0, 2, 8, 5, 1, 236, 14, 0, //
    5, 0, 2, 9, 3, 2, 0, 0, //
    5, 1, 1, 7, 9, 0, 0, 0, //
    // Template lines: template, and on as an edge.
    6, 0, 1, 5, 3, 0, 0, 0, //
    6, 0, 2, 6, 5, 1, 4, 0, //
    6, 0, 2, 6, 3, 2, 0, 0, //
    6, 0, 2, 7, 3, 4, 0, 0, //
    6, 1, 1, 5, 5, 0, 0, 0, //
    // Patterns: kind, slot, policy, first, second.
    7, 1, 0, 0, 0, 0, //
    7, 2, 1, 0, 0, 0, //
    7, 3, 2, 1, 9, 0, //
    7, 4, 4, 0, 3, 3, //
    // Commands: verb, next, operand kind, operand, first to fourth.
    8, 4, 2, 0, 0, 1, 0, 0, 0, //
    8, 4, 3, 0, 0, 2, 0, 0, 0, //
    8, 4, 4, 0, 0, 3, 0, 0, 0, //
    8, 5, 5, 0, 0, 0, 5, 0, 0, //
    8, 5, 6, 0, 0, 0, 4, 1, 0, //
    8, 5, 7, 0, 0, 0, 4, 4, 0, //
    8, 5, 8, 0, 0, 0, 4, 2, 0, //
    8, 6, 9, 0, 0, 2, 0, 0, 0, //
    8, 7, 10, 0, 0, 1, 0, 0, 0, //
    8, 1, 11, 0, 0, 12, 0, 0, 0, //
    8, 3, 0, 0, 0, 0, 0, 0, 0, //
    8, 2, 13, 1, 2, 8, 0, 0, 0, //
    8, 3, 0, 1, 3, 0, 0, 0, 0, //
    8, 2, 0, 0, 1, 8, 0, 0, 0, //
    8, 5, 0, 0, 1, 0, 5, 1, 0, //
    // Jobs: policy, roles, command.
    9, 0, 2, 1, //
    9, 1, 8, 14, //
    9, 0, 4, 15,
];
