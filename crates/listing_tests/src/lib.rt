// The tests of both listings, over the same sample cards: the lister's and the one that reads services.
#![tactic(auto)]

#[cfg(test)]
mod cards;
#[cfg(test)]
mod directories;
#[cfg(test)]
mod full;
#[cfg(test)]
mod plain;
