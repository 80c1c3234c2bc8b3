//! Tests of the layers and of messages: what no clause says, and no program over stored cases. They stand apart, since a crate with tests
//! is proved a second time for them.
#![tactic(auto)]

#[cfg(test)]
mod calling;
#[cfg(test)]
mod der;
#[cfg(test)]
mod keys;
#[cfg(test)]
mod making;
#[cfg(test)]
mod outside;
#[cfg(test)]
mod printed;
#[cfg(test)]
mod replies;
#[cfg(test)]
mod running;
#[cfg(test)]
mod setup;
#[cfg(test)]
mod updown;
