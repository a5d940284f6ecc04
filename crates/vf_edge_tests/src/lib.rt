//! Tests of the public calls of the edges: vf_ports, vf_adapters, vf_report, vf_top and vf_program. It
//! has no code of its own, so that the crates that it tests are proved once.
#![tactic(auto)]

#[cfg(test)]
mod adapters;
#[cfg(test)]
mod commands;
#[cfg(test)]
mod journals;
#[cfg(test)]
mod lines;
#[cfg(test)]
mod made;
#[cfg(test)]
mod outside;
#[cfg(test)]
mod ports;
#[cfg(test)]
mod program;
