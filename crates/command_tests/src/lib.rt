//! Tests of the top call over loaded stores, named facts, imports and rehearsals.
#![tactic(auto)]

#[cfg(test)]
mod imports;
#[cfg(test)]
mod known_code;
#[cfg(test)]
mod loaded_stores;
#[cfg(test)]
mod marks;
#[cfg(test)]
mod rehearsals;
#[cfg(test)]
mod running;
#[cfg(test)]
mod stored;
