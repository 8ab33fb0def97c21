#![tactic(auto)]
//! Borrows of memory that a client has leased to its server: the system calls BORROW_READ,
//! BORROW_WRITE and BORROW_INFO (Hubris Reference, on leases).

mod borrowing;
mod entries;
mod informing;
mod way;

pub use borrowing::{borrow_read, borrow_write};
pub use informing::borrow_info;

/// The code of a lender that has no such lease for the borrower.
pub(crate) const NO_LEASE: u32 = 1;
