//! A list of addresses.

use crate::addresses::address;
use crate::word_fault::WordFault;
use cc_connections::Address;
use std::alloc::Global;

/// The addresses, one at least and none twice, that a word is, as `127.0.0.1:7001,node-2:7001`.
pub fn addresses(alloc: Global, list: &str) -> Result<Vec<Address>, WordFault> {
    let mut addresses = Vec::new(alloc);
    for word in list.split(',') {
        let address = address(word).ok_or(WordFault::Addresses)?;
        if addresses.contains(&address) {
            return Err(WordFault::AddressTwice);
        }
        addresses.push(address).or(Err(WordFault::NoMemory))?;
    }
    Ok(addresses)
}
