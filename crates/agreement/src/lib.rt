// The agreement of two warehouses.
#![tactic(auto)]

pub mod laws;
