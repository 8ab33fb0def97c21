//! The way in which borrowed bytes move.

ghost use Rattle.std.specs.Prelude.{◌≡◌};
ghost use Rattle.lease_core.specs.Loans.{way_of};

use kernel_abi::{Access, Borrow};
use region_check::Right;

/// The way in which the bytes of a borrow move.
#[derive(Clone, Copy)]
pub(crate) enum Way {
    /// From the lease into the borrower's buffer.
    Read,
    /// From the borrower's buffer into the lease.
    Write,
}

impl Way {
    /// What the borrower does with the lease.
    pub(crate) fn borrow(self) -> Borrow
        ensures { result ≡ (way_of self).borrow }
    {
        match self {
            Way::Read => Borrow::Read,
            Way::Write => Borrow::Write,
        }
    }

    /// The right that the lender needs to the bytes that it lends.
    pub(crate) fn lender_right(self) -> Right
        ensures { result ≡ (way_of self).lender }
    {
        match self {
            Way::Read => Right::Read,
            Way::Write => Right::Write,
        }
    }

    /// The access that the lender's fault reports if it lacks the right.
    pub(crate) fn lender_access(self) -> Access
        ensures { result ≡ (way_of self).lender_access }
    {
        match self {
            Way::Read => Access::KernelRead,
            Way::Write => Access::KernelWrite,
        }
    }

    /// The right that the borrower needs to its buffer.
    pub(crate) fn own_right(self) -> Right
        ensures { result ≡ (way_of self).own }
    {
        match self {
            Way::Read => Right::Write,
            Way::Write => Right::Read,
        }
    }

    /// The access that the borrower's fault reports if it lacks the right.
    pub(crate) fn own_access(self) -> Access
        ensures { result ≡ (way_of self).own_access }
    {
        match self {
            Way::Read => Access::KernelWrite,
            Way::Write => Access::KernelRead,
        }
    }

    /// The bit of a lease's attributes that allows this way.
    pub(crate) fn bit(self) -> u32
        ensures { result ≡ (way_of self).bit }
    {
        match self {
            Way::Read => 1,
            Way::Write => 2,
        }
    }
}
