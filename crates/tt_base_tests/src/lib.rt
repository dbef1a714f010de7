//! Tests of the public calls of the lower libraries, of what no contract says: that ample memory is
//! enough, and what is printed. They stand apart so that each library is proved once, without them.
#![tactic(auto)]

#[cfg(test)]
mod pages;
#[cfg(test)]
mod parts;
#[cfg(test)]
mod same;
#[cfg(test)]
mod values;
#[cfg(test)]
mod versions;
