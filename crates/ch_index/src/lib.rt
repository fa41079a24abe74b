//! Rows in the order in which they came, found by their name and by their socket.
//!
//! A [`Row`] has a name and a socket, and no socket has a name twice. Contracts see an index as the list of
//! its rows, the oldest first. Two ordered maps of maps agree with the rows: from each name to the numbers of
//! its rows, each with the row's mark, and from each socket to its names and their numbers.
#![tactic(auto)]

mod holder;
mod index;
mod marks;
mod nest;
mod numbered;
mod row;
mod rows;
mod walk;

pub use holder::{Holder, Holders};
pub use index::{Index, LAST_NUMBER};
pub use marks::Marks;
pub use nest::Nest;
pub use numbered::Numbered;
pub use row::Row;
pub use walk::Walk;
