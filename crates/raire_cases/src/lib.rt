//! Worked cases of the top call over files and sinks in memory, checks of assertion files of one contest, devices whose calls fail in turn,
//! a comparison with a plain program, workers that wait for each other, and a session that is tried again if memory was short.
#![tactic(auto)]

#[cfg(test)]
mod adoptions;
pub mod again;
#[cfg(test)]
mod audit_table;
#[cfg(test)]
mod cards_table;
#[cfg(test)]
mod cases;
#[cfg(test)]
mod checks;
#[cfg(test)]
mod compared;
#[cfg(test)]
mod contests;
#[cfg(test)]
mod contests_table;
#[cfg(test)]
mod devices;
#[cfg(test)]
mod landslide;
#[cfg(test)]
mod plain;
#[cfg(test)]
mod plurality_table;
#[cfg(test)]
mod poll_table;
#[cfg(test)]
mod session_table;
#[cfg(test)]
mod sets_table;
#[cfg(test)]
mod table;
#[cfg(test)]
mod tie_table;
#[cfg(test)]
mod together;
#[cfg(test)]
mod trims;
pub mod trying;
