//! Members whose texts stand in no line.

ghost use Rattle.std.specs.Prelude.{◌≡◌, IfOk};

use crate::node::{Args, Atom};
use std::alloc::{AllocError, Global};

/// Returns the arguments with texts of their own.
fn copy_args<'a>(alloc: Global, args: &Args<'_>) -> Result<Args<'a>, AllocError>
    ensures { IfOk result (λ copy. copy ≡ args.now) }
{
    match args {
        Args::Any => Ok(Args::Any),
        Args::Nothing => Ok(Args::Nothing),
        Args::Pattern(pattern) => Ok(Args::Pattern(pattern.to_owned_text(alloc)?)),
    }
}

/// Returns the member with texts of its own.
///
/// # Errors
///
/// Memory ran out.
pub fn copy_atom<'a>(alloc: Global, atom: &Atom<'_>) -> Result<Atom<'a>, AllocError>
    ensures { IfOk result (λ copy. copy ≡ atom.now) }
{
    match atom {
        Atom::All => Ok(Atom::All),
        Atom::Alias(name) => Ok(Atom::Alias(name.to_owned_text(alloc)?)),
        Atom::Name(name) => Ok(Atom::Name(name.to_owned_text(alloc)?)),
        Atom::Id(number) => Ok(Atom::Id(*number)),
        Atom::Group(name) => Ok(Atom::Group(name.to_owned_text(alloc)?)),
        Atom::GroupId(number) => Ok(Atom::GroupId(*number)),
        Atom::NonUnix(name) => Ok(Atom::NonUnix(name.to_owned_text(alloc)?)),
        Atom::Netgroup(name) => Ok(Atom::Netgroup(name.to_owned_text(alloc)?)),
        Atom::Host(name) => Ok(Atom::Host(name.to_owned_text(alloc)?)),
        Atom::Address(address) => Ok(Atom::Address(*address)),
        Atom::Network(address, mask) => Ok(Atom::Network(*address, *mask)),
        Atom::Listing => Ok(Atom::Listing),
        Atom::Path { path, args } => {
            let path = path.to_owned_text(alloc)?;
            let args = copy_args(alloc, args)?;
            Ok(Atom::Path { path, args })
        }
        Atom::Sudoedit { args } => {
            let args = copy_args(alloc, args)?;
            Ok(Atom::Sudoedit { args })
        }
    }
}
