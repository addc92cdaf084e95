// Tests of the page: bytes are delivered to pages on panels of every kind, and what is then shown is compared with a
// text that says what it must be.
//
// Nothing but tests is here. They stand apart from `page`, so that the page need not be proved anew with them.

#![tactic(auto)]

#[cfg(test)]
mod cuts;
#[cfg(test)]
mod functions;
#[cfg(test)]
mod kinds;
#[cfg(test)]
mod limits;
#[cfg(test)]
mod marked;
#[cfg(test)]
mod refusals;
#[cfg(test)]
mod renditions;
#[cfg(test)]
mod stops;
#[cfg(test)]
mod text;
