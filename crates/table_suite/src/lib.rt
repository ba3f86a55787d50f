//! Tests of the tables below a world, and of what they stand on: capabilities, items, ranges, what is
//! reached, names and slots; plain values and channels, counts and pools, trees of pages, and places.
#![tactic(auto)]

#[cfg(test)]
mod capabilities;
#[cfg(test)]
mod checks;
#[cfg(test)]
mod items;
#[cfg(test)]
mod late;
#[cfg(test)]
mod names;
#[cfg(test)]
mod places;
#[cfg(test)]
mod pools;
#[cfg(test)]
mod ranges;
#[cfg(test)]
mod reached;
#[cfg(test)]
mod slots;
#[cfg(test)]
mod trees;
#[cfg(test)]
mod values;
