//! The laws of gathering. The functions do nothing: each has a law as its clause.
ghost use Rattle.ds_gather.specs.Laws.{BodiesJoined, KeysInOrder, OrderFree, RowsInOrder};

/// What is gathered depends on the answers and not on the order in which they came, where no two
/// of one request start at one key.
pub fn order_free()
    ensures { OrderFree }
{}

/// What is joined in key order, body by body, is the body of the reply, where all are bodies of the
/// request's kind.
pub fn bodies_joined()
    ensures { BodiesJoined }
{}

/// The rows of a reply are in key order, for a reverse scan from the greatest key down, where those
/// of each piece are and lie in its span, and the spans of the pieces are a chain.
pub fn rows_in_order()
    ensures { RowsInOrder }
{}

/// So are deleted keys.
pub fn keys_in_order()
    ensures { KeysInOrder }
{}
