// Labels with their addresses.
ghost use Rattle.std.specs.Prelude.{◌≡◌, ℕ, List, Some, OnOk};
ghost use Rattle.std.specs.BTreeMap as tree;
ghost use Rattle.std.specs.Cmp.Lexicographic.{slice_cmp};
ghost use Rattle.std.specs.Map.{update};
ghost use Rattle.std.specs.Ordering.{nat_cmp};
ghost use Rattle.std.specs.Str.{bytes_eq};

use seq_words::NoMemory;
use std::alloc::Global;
use std::collections::BTreeMap;

/// The address of a label, if it stands.
pub fn address_of<'a>(labels: &BTreeMap<&'a [u8], u32>, name: &'a [u8]) -> Option<u32>
    ensures { result ≡ tree.get_by (λ k. slice_cmp nat_cmp name.now k.now) labels.now }
{
    labels.get(&name).copied()
}

/// Notes a label's address.
pub fn put_label<'a>(
    labels: &mut BTreeMap<&'a [u8], u32>,
    name: &'a [u8],
    address: u32,
) -> Result<(), NoMemory>
    ensures put { OnOk result ((q : List ℕ) →
        tree.get_by (λ k. slice_cmp nat_cmp q k.now) labels.new
        ≡ update bytes_eq (λ ds. tree.get_by (λ k. slice_cmp nat_cmp ds k.now) labels.old) name.now (Some address) q) }
{
    match labels.insert(name, address) {
        Ok(_) => Ok(()),
        Err(_) => Err(NoMemory),
    }
}
