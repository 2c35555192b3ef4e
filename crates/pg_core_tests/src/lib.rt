//! Tests of the layers below the games that no row of `pg_rows` can say, since their calls have premises that only a
//! proof can meet.
#![tactic(auto)]

#[cfg(test)]
mod closing;
#[cfg(test)]
mod statement;
