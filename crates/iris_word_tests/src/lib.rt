//! Tests of the words, codes, scripts, stores and logs that all layers above stand on.
#![tactic(auto)]

#[cfg(test)]
mod asking;
#[cfg(test)]
mod codes;
#[cfg(test)]
mod copies;
#[cfg(test)]
mod deeds;
#[cfg(test)]
mod desks;
#[cfg(test)]
mod jobs;
#[cfg(test)]
mod logs;
#[cfg(test)]
mod paths;
#[cfg(test)]
mod replies;
#[cfg(test)]
mod scripts;
#[cfg(test)]
mod stores;
#[cfg(test)]
mod words;
