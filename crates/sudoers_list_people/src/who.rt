//! Who is asked of.

ghost use Rattle.std.specs.Prelude.{◌≡◌, ◌⊎◌, Ok, Err, IfOk, IfErr};
ghost use Rattle.sudoers_list_people.specs.declared.fault.WhoFault.TheVariants.{NoMemory};
ghost use Rattle.sudoers_list_people.specs.Person.{short_name_of_host, who_or_who_fault};

use crate::fault::WhoFault;
use crate::interfaces::read_interface_list;
use crate::making_person_with_groups::{find_user_account, make_person_with_groups};
use crate::people::People;
use std::alloc::Global;
use sudoers_grammar::Items;
use sudoers_match_member::Who;

/// Returns the short name of a host: what stands before the first `.`.
fn short_host_name_of(host: &[u8]) -> &[u8]
    ensures { result.now ≡ short_name_of_host host.now }
{
    for (at, byte) in host.iter().enumerate() {
        if *byte == b'.' {
            return &host[..at];
        }
    }
    host
}

/// Returns the user `user` on the host `host`, whose interfaces are `ADDRESS/BITS`, joined by `,`.
///
/// # Errors
///
/// `NoUser`: no user has the name. `BadAddress`: the interfaces are not in this form. `NoMemory`: memory ran out.
pub fn who_for(
    alloc: Global,
    people: &People,
    user: &[u8],
    host: &[u8],
    interfaces: &[u8],
) -> Result<Who, WhoFault>
    ensures who { IfOk result (λ who. who_or_who_fault people.now user.now host.now interfaces.now ≡ Ok who) }
    ensures fault { IfErr result (λ fault. (fault ≡ NoMemory) ⊎ (who_or_who_fault people.now user.now host.now interfaces.now ≡ Err fault)) }
{
    let Some(account) = find_user_account(people, user) else {
        return Err(WhoFault::NoUser);
    };
    let Some(interfaces) = read_interface_list(alloc, interfaces)? else {
        return Err(WhoFault::BadAddress);
    };
    Ok(Who {
        user: make_person_with_groups(alloc, people, account)?,
        long_host: Items::from_slice(alloc, host)?,
        short_host: Items::from_slice(alloc, short_host_name_of(host))?,
        interfaces,
    })
}
