//! Tests of goals and of frames: that their calls do not always answer want of memory, and a worked example of each.
#![tactic(auto)]

#[cfg(test)]
mod first_goal;
#[cfg(test)]
mod frames;
