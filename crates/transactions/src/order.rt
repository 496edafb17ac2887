// The order of the tests of each call.
ghost use Rattle.transactions.specs.Order.{RowsAscend};

/// Names the theorem that each call tests what it may refuse in ascending number, so that of several that fit the one with
/// the least number answers.
#[tactic(auto, using(crate::proofs::Ordered::rows_ascend))]
pub fn tests_come_in_order()
    ensures { RowsAscend }
{}
