//! Addresses, masks and networks.

ghost use Rattle.std.specs.Prelude.{◌≡◌, [], None, IfOk};
ghost use Rattle.sudoers_match_member.specs.Network.{mask_as_number, network_under_mask, is_any_interface_hit};
ghost use Rattle.sudoers_match_member.specs.internal.LookedUp.{AreHitsOfInterfaces, AreNumbersHitWithoutMask};

use crate::numbers::NumberSet;
use std::alloc::{AllocError, Global};
use std::marker::Model;
use sudoers_grammar::{Address, Mask};

/// A network interface of a host: its address, and the mask of its network.
#[derive(Clone, Copy, Debug)]
pub struct Interface {
    pub address: Address,
    pub mask: Mask,
}

/// Returns `mask` as a number.
fn number_of_mask(mask: Mask) -> u32
    ensures { result ≡ mask_as_number mask }
{
    match mask {
        Mask::Bits(bits) => {
            let rest = 32u8.saturating_sub(bits);
            ((1u64 << 32) - (1u64 << rest)) as u32
        }
        Mask::Dotted(address) => address.number,
    }
}

/// Returns the network under `mask` to which `address` belongs.
fn masked_network_of(mask: Mask, address: Address) -> u32
    ensures { result ≡ network_under_mask mask address }
{
    address.number & number_of_mask(mask)
}

/// The most interfaces that are compared one by one.
const FEW_INTERFACES: usize = 8;

/// The network interfaces of a host, among which addresses are looked up.
#[derive(Drop)]
pub struct Interfaces {
    list: Vec<Interface>,
    /// The addresses of many interfaces and their networks, which hit without a mask. There is one set, or none for few interfaces.
    hits: Vec<NumberSet>,
}

impl Model for Interfaces {
    ghost use Rattle.std.specs.Prelude.{List};
    ghost use Rattle.sudoers_match_member.specs.declared.network.Interface.{Interface};

    ghost Value = { List Interface };

    ghost use Rattle.sudoers_match_member.specs.internal.LookedUp.{AreHitsOfInterfaces};

    ghost view = { λ interfaces. interfaces.list.items };

    ghost invariant = { λ interfaces. AreHitsOfInterfaces interfaces.list.items interfaces.hits.items };
}

/// Returns what hits one of `interfaces` without a mask.
fn collect_numbers_hit_without_mask(
    alloc: Global,
    interfaces: &[Interface],
) -> Result<NumberSet, AllocError>
    ensures { IfOk result (λ numbers. AreNumbersHitWithoutMask interfaces.now numbers) }
{
    let mut numbers = NumberSet::new(alloc);
    for interface in interfaces {
        numbers.add(interface.address.number)?;
        numbers.add(masked_network_of(interface.mask, interface.address))?;
    }
    Ok(numbers)
}

/// Returns what hits one of `interfaces` without a mask, if they are many.
fn collect_hits(alloc: Global, interfaces: &[Interface]) -> Result<Vec<NumberSet>, AllocError>
    ensures { IfOk result (λ hits. AreHitsOfInterfaces interfaces.now hits.items) }
{
    let mut hits = Vec::new(alloc);
    if interfaces.len() > FEW_INTERFACES {
        hits.push(collect_numbers_hit_without_mask(alloc, interfaces)?)?;
    }
    Ok(hits)
}

impl Interfaces {
    /// Returns no interfaces.
    pub fn new(alloc: Global) -> Interfaces
        ensures { result ≡ [] }
    {
        Interfaces {
            list: Vec::new(alloc),
            hits: Vec::new(alloc),
        }
    }

    /// Returns the interfaces `list`, in their order.
    ///
    /// # Errors
    ///
    /// Memory ran out.
    pub fn from_vec(alloc: Global, list: Vec<Interface>) -> Result<Interfaces, AllocError>
        ensures { IfOk result (λ interfaces. interfaces ≡ list.items) }
    {
        let hits = collect_hits(alloc, list.as_slice())?;
        Ok(Interfaces { list, hits })
    }

    /// Returns the interfaces, in their order.
    pub fn as_slice(&self) -> &[Interface]
        ensures { result.now ≡ self.now }
    {
        self.list.as_slice()
    }

    /// Returns whether `address` is that of an interface, or of its network.
    fn has_address(&self, address: Address) -> bool
        ensures { result ≡ is_any_interface_hit address None self.now }
    {
        match self.hits.as_slice().first() {
            Some(numbers) => numbers.has(address.number),
            None => {
                self.list.iter().any(|interface| address.number == interface.address.number
                    || address.number == masked_network_of(interface.mask, interface.address))
            }
        }
    }
}

/// Returns whether `address`, or the network under `mask`, hits one of the interfaces (sudoers(5), Host_List).
pub fn network_hits(address: Address, mask: Option<Mask>, interfaces: &Interfaces) -> bool
    ensures { result ≡ is_any_interface_hit address mask interfaces.now }
{
    match mask {
        None => interfaces.has_address(address),
        Some(mask) => {
            let network = masked_network_of(mask, address);
            interfaces.list.iter().any(|interface| network
                == masked_network_of(mask, interface.address))
        }
    }
}
