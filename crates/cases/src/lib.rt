// Cases for the content kinds, the week, the networks and the crossing, as tables: each test is proved safe and then run.
#![tactic(auto)]

#[cfg(test)]
mod crossings;
#[cfg(test)]
mod lengths;
#[cfg(test)]
mod networks;
#[cfg(test)]
mod rows;
#[cfg(test)]
mod valves;
#[cfg(test)]
mod weeks;
