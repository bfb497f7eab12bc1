//! Nodes that are fed lines by their numbers, each in runs of the program `node` over a store of its own, form a network.
//!
//! # Promises
//!
//! - Any number of nodes, each with setups of its own, which may be another at each start, are fed lines by their numbers
//!   and stopped anywhere. Links between them lose, repeat and reorder, and invent nothing. Then all that happened at
//!   them is a run of a network, and so it is right. By law `nodes_form_networks` (`specs/Laws`).
//! - What happened at a node is told by the lines that came to it: what each of them made it do, and its starts
//!   (`specs/Lives`). A node keeps its party, spelled so, and its role.
//! - So it is of runs of `run_node` over stores that were empty at first: there are such lives of these nodes, and what
//!   each store has at the end are the rows that the network has there. By law `fed_nodes_form_networks` (`specs/Fed`),
//!   from `fed_runs_are_exact` of `feeding_laws`.
//! - A line that changed no row may come again in a later run, and its packets are printed again. So all that happened in
//!   the runs is told beside: it is a run of the network too, and each packet that runs without an echo print is among
//!   those which the node sent in it. By law `fed_nodes_are_told`, from `fed_runs_are_told` of `feeding_laws`.
#![tactic(auto)]

pub mod laws;
