ghost use Rattle.std.specs.Prelude.{◌≡◌, ◌≢◌, ℕ, ◌<◌, ◌+◌, ◌-◌, ◌==◌, ◌&&◌, length, slice_index_or, IfSome, IfNone, IfOk, OnOk, OnErr};
ghost use Rattle.packet_store.specs.declared.transaction.Transaction.{Transaction};
ghost use Rattle.packet_store.specs.Transactions.{is_that};
ghost use Rattle.packet_store.specs.Bags.{AreFull, Inserts, begun_if, count_of, one_if, times};

use crate::transaction::Transaction;
use sbp_base::NoMemory;
use smallvec::SmallVec;
use std::alloc::Global;
use std::collections::HashMap;

/// The keys of packets by their transactions: in no order, each as often as it was added. Three stand in
/// place, as those of a request, its response and one that is sent again. The spots are where the keys
/// were put in their bags: each is looked at before it is used.
#[derive(Drop)]
pub(crate) struct Bags {
    alloc: Global,
    pub(crate) bags: HashMap<Transaction, SmallVec<usize, 3>>,
    spots: Vec<usize>,
}

impl Bags {
    /// No key.
    #[tactic(auto, unfolding(crate::specs::Bags::times))]
    pub(crate) fn new(alloc: Global) -> Bags
        ensures none { (t : Transaction) (k : ℕ) → times result t k ≡ 0 }
        ensures full { AreFull result }
    {
        Bags {
            alloc,
            bags: HashMap::new(alloc),
            spots: Vec::new(alloc),
        }
    }

    /// Adds a key under a transaction, if there is one. Where it begins the transaction, the keys before it
    /// leave their bag, and are what is given.
    #[tactic(auto, unfolding(crate::specs::Bags::times))]
    pub(crate) fn insert(
        &mut self,
        transaction: Option<Transaction>,
        key: usize,
        begins: bool,
    ) -> Result<SmallVec<usize, 3>, NoMemory>
        requires { AreFull self.old }
        ensures inserted { IfOk result (λ gone. Inserts (times self.old) (times self.new) transaction (begun_if begins transaction) key gone.items) }
        ensures failed { OnErr result ((t : Transaction) (k : ℕ) → times self.new t k ≡ times self.old t k) }
        ensures full { AreFull self.new }
    {
        let gone = SmallVec::new(self.alloc);
        let Some(transaction) = transaction else {
            return Ok(gone);
        };
        if !begins {
            if let Some(bag) = self.bags.get_mut(&transaction) {
                add_to(bag, key, &mut self.spots)?;
                return Ok(gone);
            }
        }
        let mut bag = SmallVec::new(self.alloc);
        add_to(&mut bag, key, &mut self.spots)?;
        Ok(self.bags.insert(transaction, bag)?.unwrap_or(gone))
    }

    /// Takes a key out from under a transaction, if there is one, and the bag with its last key.
    #[tactic(auto, unfolding(crate::specs::Bags::times))]
    pub(crate) fn remove(&mut self, transaction: Option<Transaction>, key: usize)
        requires { AreFull self.old }
        ensures less { (t : Transaction) (k : ℕ) → times self.new t k ≡ times self.old t k - one_if (is_that t transaction && (key == k)) }
        ensures full { AreFull self.new }
    {
        let Some(transaction) = transaction else {
            return
        };
        let Some(bag) = self.bags.get_mut(&transaction) else {
            return
        };
        take_out(bag, key, &mut self.spots);
        if bag.is_empty() {
            self.bags.remove(&transaction);
        }
    }
}

/// Adds a key to a bag.
#[tactic(auto, using(crate::proofs::Bagged::added))]
#[inline(always)]
fn add_to(bag: &mut SmallVec<usize, 3>, key: usize, spots: &mut Vec<usize>) -> Result<(), NoMemory>
    ensures added { OnOk result ((k : ℕ) → count_of k bag.new.items ≡ one_if (key == k) + count_of k bag.old.items) }
    ensures failed { OnErr result ((k : ℕ) → count_of k bag.new.items ≡ count_of k bag.old.items) }
{
    note(spots, key, bag.len())?;
    bag.push(key)?;
    Ok(())
}

/// Takes a key out of a bag, once.
#[tactic(auto, using(crate::proofs::Bagged::taken_out, crate::proofs::Bagged::not_there))]
fn take_out(bag: &mut SmallVec<usize, 3>, key: usize, spots: &mut Vec<usize>)
    ensures { (k : ℕ) → count_of k bag.new.items ≡ count_of k bag.old.items - one_if (key == k) }
{
    if let Some(spot) = spot_of(bag.as_slice(), key, spots) {
        bag.swap_remove(spot);
        if spot < bag.len() {
            let _noted = note(spots, bag.as_slice()[spot], spot);
        }
    }
}

/// A spot of a key in a bag: the noted one, if the key stands there.
fn spot_of(bag: &[usize], key: usize, spots: &Vec<usize>) -> Option<usize>
    ensures found { IfSome result (λ at. (at < length bag.now) × ((d : ℕ) → slice_index_or bag.now at d ≡ key)) }
    ensures none { IfNone result ((at d : ℕ) → at < length bag.now → slice_index_or bag.now at d ≢ key) }
{
    let noted = if key < spots.len() { spots[key] } else { 0 };
    if noted < bag.len() && bag[noted] == key {
        return Some(noted);
    }
    let mut at = bag.len();
    while at > 0 {
        at -= 1;
        if bag[at] == key {
            return Some(at);
        }
    }
    None
}

/// Notes the spot of a key.
#[inline(always)]
fn note(spots: &mut Vec<usize>, key: usize, spot: usize) -> Result<(), NoMemory>
    ensures { OnOk result (slice_index_or spots.new.items key 0 ≡ spot) }
{
    while spots.len() <= key {
        spots.push(spot)?;
    }
    spots[key] = spot;
    Ok(())
}
