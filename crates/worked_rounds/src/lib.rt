//! Worked rounds and runs of Algorithm 1 (section 3 of Dwork, Lynch and Stockmeyer, "Consensus in the Presence of
//! Partial Synchrony", 1988). These are tests alone: of one node, of all nodes over tables of who heard whom, of
//! Worlds, also of processors that take turns by the pace "heard out", and of a recorder with its seats and views. Most
//! runs are cases of `tests/cases/`.
#![tactic(auto)]

#[cfg(test)]
mod locks;
#[cfg(test)]
mod longest_drives;
#[cfg(test)]
mod seats;
#[cfg(test)]
mod sizes;
#[cfg(test)]
mod steps;
#[cfg(test)]
mod strangers;
#[cfg(test)]
mod tables;
#[cfg(test)]
mod threads;
#[cfg(test)]
mod turns;
#[cfg(test)]
mod worked_tables;
#[cfg(test)]
mod worlds;
