// A frame's calls, run on codes and loads: tests, and the worked example as a fact.
#![tactic(auto)]

ghost use Rattle.frame_tests.specs.Example.{FrameExample};

#[cfg(test)]
mod calls;
#[cfg(test)]
mod largest;
#[cfg(test)]
mod refusals;
#[cfg(test)]
mod small;

// The worked example, with what a round of each joiner tells.
pub fn example_stands()
    ensures law { FrameExample }
{}
