//! Tests of the top call where one call of the outside fails, over the contract of gateway.
#![tactic(auto)]

#[cfg(test)]
mod faulty;
#[cfg(test)]
mod outcome;
#[cfg(test)]
mod runs;
#[cfg(test)]
mod table;
