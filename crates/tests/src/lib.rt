// Tests of the libraries on tables of examples, each row worked out by hand.
#![tactic(auto)]

#[cfg(test)]
mod drafts;
#[cfg(test)]
mod printing;
#[cfg(test)]
mod reading;
