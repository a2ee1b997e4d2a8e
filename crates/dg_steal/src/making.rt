ghost use Rattle.std.specs.Prelude.{◌≡◌, ◌<◌, ◌≤◌, ◌++◌, [], ◌∷◌, IfOk, vec_len};
ghost use Rattle.dg_steal.specs.Known.{AreNew};

use crate::hand::Hand;
use crate::memory::NoMemory;
use crate::own::Own;
use std::alloc::Global;

/// Makes a hand for each worker, in the order of their numbers from 0 on. Every deque is empty. All
/// the ways between them are made here, before the first push.
pub fn hands(alloc: Global, workers: u32) -> Result<Vec<Hand>, NoMemory>
    requires { (1 ≤ workers) × (workers ≤ 64) }
    ensures exact { IfOk result (λ hands. (vec_len hands ≡ workers) × AreNew hands.items) }
{
    let mut hands = Vec::with_capacity(alloc, workers as usize)?;
    for _worker in 0..workers {
        let next = one_more(alloc, &mut hands)?;
        hands.push(next)?;
    }
    Ok(hands)
}

// A hand for the next worker, which has met all the others.
fn one_more(alloc: Global, hands: &mut Vec<Hand>) -> Result<Hand, NoMemory>
    requires few { vec_len hands.old < 64 }
    requires new { AreNew hands.old.items }
    ensures count { vec_len hands.new ≡ vec_len hands.old }
    ensures exact { IfOk result (λ next. AreNew (hands.new.items ++ next ∷ [])) }
{
    let mut own = Own::new(alloc)?;
    let mut others = Vec::with_capacity(alloc, hands.len())?;
    for hand in hands.iter_mut() {
        others.push(hand.meet(&mut own)?)?;
    }
    Ok(Hand::new(others.len() as u32, own, others))
}
