//! Tests of what networks, windows, flexibilities and copies answer, for networks that are read from texts.
#![tactic(auto)]

#[cfg(test)]
mod copies;
#[cfg(test)]
mod flexibility;
#[cfg(test)]
mod networks;
#[cfg(test)]
mod windows;
