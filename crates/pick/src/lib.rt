// The pick: spent turns leave the list, then the one that ends first is found among those left in it.

#![tactic(auto)]

mod picking;

pub use picking::pick_turn;
