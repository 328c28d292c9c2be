#![tactic(auto)]

#[cfg(test)]
mod levels;
#[cfg(test)]
mod refusals;
