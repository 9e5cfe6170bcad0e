// Tests of the library as a caller meets it: whole sessions, images, and listings at the edges.
#![tactic(auto)]

#[cfg(test)]
mod images;
#[cfg(test)]
mod limits;
#[cfg(test)]
mod listings;
#[cfg(test)]
mod pruning;
mod samples;
#[cfg(test)]
mod sessions;
