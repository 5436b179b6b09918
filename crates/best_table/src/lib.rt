// The best worth of turns in columns, and the set that earns it: groomer after groomer, a table has an entry
// for each turn, filled from the one that ends first on.

#![tactic(auto)]

mod best;
mod blocked;
mod keys;
mod order;
mod table;

pub use best::choose_best;
pub use blocked::{put_places, skip_blocked};
pub use keys::order_by_keys;
pub use order::{put_any_order, row_at_place};
pub use table::{ENTRIES, fill_table, read_back};
