//! Rows over the solver: small cases against truth tables, budgets, and guides of every kind.
#![tactic(auto)]

#[cfg(test)]
mod cases;
#[cfg(test)]
mod guides;
#[cfg(test)]
mod rows;
#[cfg(test)]
mod scopes;
#[cfg(test)]
mod tables;
#[cfg(test)]
mod turns;
#[cfg(test)]
mod wrong_picks;
