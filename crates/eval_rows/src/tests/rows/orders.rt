//! Orders of shapes by what they refer to, and answers that are told beforehand.

/// `order LIMIT`, and behind it what each shape refers to, from the first; an order is told with its places
/// and its levels, a cycle by its shapes, and a shape that is too deep by itself. A chain is of 2,000 shapes,
/// each of which refers to the next; behind its limit stands what the last refers to. `told` is of a shape.
pub const ROWS: &str = "\
# orders
? order 0 = order places levels
? order 0 - = order 0 places 0 levels 0
? order 0 -, - = order 0 1 places 0 1 levels 0 0
? order 2 1, 2, - = order 2 1 0 places 2 1 0 levels 2 1 0
? order 1 1, 2, - = deep 0
? order 2 2, -, 3, 1 = deep 0
? order 1 -, 0, 1, 2 = deep 2
? order 3 4, 0, 1, -, 3 = deep 2
? order 1 1 2 3, -, -, - = order 1 2 3 0 places 3 0 1 2 levels 1 0 0 0
? order 1 -, 0, 0, 0 = order 0 1 2 3 places 0 1 2 3 levels 0 1 1 1
? order 2 1 2, 3, 3, - = order 3 1 2 0 places 3 1 2 0 levels 2 1 1 0
? order 2 1 1 2 1, 2 2, - = order 2 1 0 places 2 1 0 levels 2 1 0
? order 9 0 = cycle 0
? order 0 1, 0 = cycle 0 1
? order 9 -, 1 = cycle 1
? order 9 -, 4, 3, 2, 1 = cycle 1 4
? order 9 2, -, 0, 4, 3 = cycle 0 2
? order 9 1, 2, 3, 4, 2 = cycle 2 3 4
? order 9 1 2, 0, 0 = cycle 0 1
? order 9 1, - 0, 0 5 = no shapes
? order 9 1 = no shapes
? not order 2 1, 2, - = order 2 1 0 places 2 1 0 levels 2 1 1
? not order 2 1, 2, - = cycle 0
? not order 9 1, 0 = cycle 1 0
? chain 10 1998 = cycle 1998 1999
? chain 1998 - = deep 0
? told 3 = MinCount
? told 4 = NodeKind
? told 5 =
? not told 3 =";
