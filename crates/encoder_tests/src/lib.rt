// Encoding and extracting over the three kinds of field: tests alone.
#![tactic(auto)]

#[cfg(test)]
mod tests;
