//! A line tried through its public calls: every refusal at every call that gives it, the order of checking, the limits,
//! and the steps. The expected values were worked by hand from docs/LINE.md.
#![tactic(auto)]

#[cfg(test)]
mod asking;
#[cfg(test)]
mod destinations;
#[cfg(test)]
mod hearing;
#[cfg(test)]
mod helpers;
#[cfg(test)]
mod limits;
#[cfg(test)]
mod members;
#[cfg(test)]
mod numbers;
#[cfg(test)]
mod opening;
#[cfg(test)]
mod phases;
#[cfg(test)]
mod running;
#[cfg(test)]
mod settling;
#[cfg(test)]
mod stations;
#[cfg(test)]
mod unchanged;
