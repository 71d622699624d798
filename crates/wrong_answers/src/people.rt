//! Users and groups, who asks, and what is asked.

ghost use Rattle.std.specs.Prelude.{◌≡◌, ◌⊎◌, None, Ok, Err, IfOk, IfErr};
ghost use Rattle.sudoers_list_people.specs.declared.fault.PeopleFault.TheVariants as PeopleFault;
ghost use Rattle.sudoers_list_people.specs.declared.fault.WhoFault.TheVariants as WhoFault;
ghost use Rattle.sudoers_list_people.specs.Asked.{request_or_who_fault};
ghost use Rattle.sudoers_list_people.specs.People.{people_read_result};
ghost use Rattle.sudoers_list_people.specs.Person.{who_or_who_fault};

use std::alloc::Global;
use sudoers_grammar::Items;
use sudoers_list_people::{People, PeopleFault, WhoFault, request_for, who_for};
use sudoers_match_member::{Request, Who};

/// Returns the users and groups of the texts `passwd` and `group`.
///
/// # Errors
///
/// The first fault of the texts, or memory ran out.
pub fn read_people(alloc: Global, passwd: &[u8], group: &[u8]) -> Result<People, PeopleFault>
    ensures people { IfOk result (λ people. people_read_result passwd.now group.now ≡ Ok people) }
    ensures fault { IfErr result (λ fault. (fault ≡ PeopleFault.NoMemory) ⊎ (people_read_result passwd.now group.now ≡ Err fault)) }
{
    People::read(alloc, passwd, group)
}

/// Returns the user of the name `user` on `host`.
///
/// # Errors
///
/// The first fault of the words, or memory ran out.
pub fn who_asks(
    alloc: Global,
    people: &People,
    user: &[u8],
    host: &[u8],
    interfaces: &[u8],
) -> Result<Who, WhoFault>
    ensures who { IfOk result (λ who. who_or_who_fault people.now user.now host.now interfaces.now ≡ Ok who) }
    ensures fault { IfErr result (λ fault. (fault ≡ WhoFault.NoMemory) ⊎ (who_or_who_fault people.now user.now host.now interfaces.now ≡ Err fault)) }
{
    who_for(alloc, people, user, host, interfaces)
}

/// Returns what `who` asks for: to run `words` as the user `target`, at the moment `stamp`.
///
/// # Errors
///
/// The first fault of the words, or memory ran out.
pub fn make_request(
    alloc: Global,
    people: &People,
    who: Who,
    target: &[u8],
    words: &[Items<u8>],
    stamp: &[u8],
) -> Result<Request, WhoFault>
    ensures request { IfOk result (λ request. request_or_who_fault people.now who target.now None words.now stamp.now ≡ Ok request) }
    ensures fault { IfErr result (λ fault. (fault ≡ WhoFault.NoMemory) ⊎ (request_or_who_fault people.now who target.now None words.now stamp.now ≡ Err fault)) }
{
    request_for(alloc, people, who, target, None, words, stamp)
}
