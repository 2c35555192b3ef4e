//! Tests of the door of this machine: a client on 127.0.0.1 is answered, and the standard streams are given once.
#![tactic(auto)]

#[cfg(test)]
mod door;
