// The names of joins, for clauses only. `Rounds::new` makes a name, and no clause says which it is. `Rounds::hand` alone passes it on, to a give of its own
// counters. So a give with the name of a join is one of that join's.
use contract_views::KnownTag;

/// The name of a join. It has no bytes.
pub type JoinName = KnownTag<u64>;

/// The name of the join that made a give.
pub type MadeBy = KnownTag<JoinName>;
