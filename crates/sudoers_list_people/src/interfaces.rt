//! Interfaces of a host as they are written.

ghost use Rattle.std.specs.Prelude.{◌≡◌, IfOk};
ghost use Rattle.sudoers_list_people.specs.Person.{interface_of_text, interfaces_of_text};

use crate::text_pieces::split_text_at_byte;
use std::alloc::{AllocError, Global};
use sudoers_grammar::{Atom, Mask, network_of};
use sudoers_match_member::{Interface, Interfaces};

/// Returns the interface that `text` says, if it is an address, `/` and a number of bits.
fn read_interface(text: &[u8]) -> Option<Interface>
    ensures { result ≡ interface_of_text text.now }
{
    match network_of(text) {
        Some(Atom::Network(address, Mask::Bits(bits))) => Some(Interface {
            address,
            mask: Mask::Bits(bits),
        }),
        _ => None,
    }
}

/// Returns the interfaces that `text` says, joined by `,`, if each is one. The empty text says none.
///
/// # Errors
///
/// Memory ran out.
pub fn read_interface_list(alloc: Global, text: &[u8]) -> Result<Option<Interfaces>, AllocError>
    ensures { IfOk result (λ interfaces. interfaces ≡ interfaces_of_text text.now) }
{
    if text.is_empty() {
        return Ok(Some(Interfaces::new(alloc)));
    }
    let mut interfaces = Vec::new(alloc);
    let parts = split_text_at_byte(alloc, b',', text)?;
    for part in &parts {
        let Some(interface) = read_interface(part) else {
            return Ok(None);
        };
        interfaces.push(interface)?;
    }
    Ok(Some(Interfaces::from_vec(alloc, interfaces)?))
}
