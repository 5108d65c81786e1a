// The next level of Loop refinement, written into the lent tables. The tables are parts that begin
// where the level begins: its vertices have the first rows, and the next level goes right behind them.
#![tactic(auto)]

pub mod numbers;
pub mod vertices;
pub mod write;
