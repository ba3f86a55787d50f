//! Tests of what is read and written: instructions, the machine that runs them, images, sources, listings,
//! scripts, schedules and requests, the lines of reports, generated servers, records of requests, and files.
#![tactic(auto)]

#[cfg(test)]
mod checks;
#[cfg(test)]
mod files;
#[cfg(test)]
mod generated;
#[cfg(test)]
mod images;
#[cfg(test)]
mod inputs;
#[cfg(test)]
mod instructions;
#[cfg(test)]
mod listings;
#[cfg(test)]
mod machine;
#[cfg(test)]
mod records;
#[cfg(test)]
mod reports;
#[cfg(test)]
mod scripts;
#[cfg(test)]
mod sources;
