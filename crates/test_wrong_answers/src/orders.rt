//! Cites that grouping puts in a wrong order.
ghost use Rattle.std.specs.Prelude.{true};
ghost use Rattle.rounds_grouping.specs.FinalOrder.{HasFinalOrder};
ghost use Rattle.test_wrong_answers.specs.Orders.{as_cited, by_a_stale_index, in_blocks};

/// The index of a block is kept while cites are moved, so cites by A, B, A, A and B come out as A A
/// B A B. The cites by A aren't adjacent; in A A A B B they are.
pub fn stale_block_index()
    ensures refuted { ¬ HasFinalOrder true as_cited by_a_stale_index }
    ensures right { HasFinalOrder true as_cited in_blocks }
{}
