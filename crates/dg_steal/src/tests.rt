ghost use Rattle.std.specs.Prelude.{◌<◌};

use crate::{Hand, NoMemory, Stolen, hands};
use std::alloc::Global;
use std::process::Abort;
use std::test::Fail;
use std::thread;

// Each of the four workers pushes so many.
const EACH: u32 = 25_000;

fn pair(rt: &impl Abort, alloc: Global) -> Result<(Hand, Hand), Fail> {
    let mut both = hands(alloc, 2)?;
    assert_eq!(rt; both.len(), 2);
    let second = both.pop().expect(rt, "hand 1");
    let first = both.pop().expect(rt, "hand 0");
    Ok((first, second))
}

fn steal(rt: &impl Abort, hand: &mut Hand, from: u32) -> Stolen {
    assert!(rt; hand.is_other(from));
    hand.steal(from)
}

#[test]
fn asks_leave_in_the_order_in_which_they_came(rt: HostRuntime) -> Result<(), Fail> {
    let (mut first, mut second) = pair(&rt, rt.alloc())?;
    for ask in [5, 6, 7] {
        assert_eq!(rt; first.push(ask), Ok(()));
    }
    assert_eq!(rt; steal(&rt, &mut second, 0), Stolen::Ask(5));
    assert_eq!(rt; first.pop(), Some(6));
    assert_eq!(rt; steal(&rt, &mut second, 0), Stolen::Ask(7));
    assert_eq!(rt; first.pop(), None);
    assert_eq!(rt; steal(&rt, &mut second, 0), Stolen::Empty);
    Ok(())
}

#[test]
fn a_hand_can_steal_from_all_others(rt: HostRuntime) -> Result<(), Fail> {
    for (workers, number, others) in [
        (1, 0, [false, false, false]),
        (2, 0, [false, true, false]),
        (2, 1, [true, false, false]),
        (3, 1, [true, false, true]),
    ] {
        let made = hands(rt.alloc(), workers)?;
        let hand = made.get(number).expect(&rt, "a hand");
        for from in 0..3 {
            assert_eq!(rt;
                hand.is_other(from),
                others[from as usize],
                "{workers} {number} {from}"
            );
        }
    }
    Ok(())
}

#[test]
fn each_deque_is_the_one_of_its_number(rt: HostRuntime) -> Result<(), Fail> {
    let mut all = hands(rt.alloc(), 64)?;
    for number in 0..64 {
        let hand = all.get_mut(number).expect(&rt, "a hand");
        assert_eq!(rt; hand.push(100 + number as u32), Ok(()));
        assert_eq!(rt; hand.push(200 + number as u32), Ok(()));
    }
    for number in 0..64 {
        let hand = all.get_mut(number).expect(&rt, "a hand");
        let from = (number as u32 + 1) % 64;
        assert_eq!(rt; steal(&rt, hand, from), Stolen::Ask(100 + from));
    }
    for number in 0..64 {
        let hand = all.get_mut(number).expect(&rt, "a hand");
        assert_eq!(rt; hand.pop(), Some(200 + number as u32));
        assert_eq!(rt; hand.pop(), None);
    }
    Ok(())
}

#[test]
fn a_deque_grows_past_its_first_room(rt: HostRuntime) -> Result<(), Fail> {
    let (mut first, mut second) = pair(&rt, rt.alloc())?;
    for ask in 0..1000 {
        assert_eq!(rt; first.push(ask), Ok(()));
    }
    for ask in 0..1000 {
        if ask % 2 == 0 {
            assert_eq!(rt; first.pop(), Some(ask));
        } else {
            assert_eq!(rt; steal(&rt, &mut second, 0), Stolen::Ask(ask));
        }
    }
    assert_eq!(rt; first.pop(), None);
    Ok(())
}

// Pushes the asks of this worker, taking some from each deque between, and then takes what is left
// in its own.
fn work(alloc: Global, mut hand: Hand) -> Result<Vec<u32>, NoMemory> {
    let mut taken = Vec::new(alloc);
    let me = number_of(&hand);
    for i in 0..EACH {
        let ask = me * EACH + i;
        if let Err(back) = hand.push(ask) {
            taken.push(back)?;
        }
        let from = (me + i) % 4;
        if hand.is_other(from) {
            if let Stolen::Ask(ask) = hand.steal(from) {
                taken.push(ask)?;
            }
        } else if let Some(ask) = hand.pop() {
            taken.push(ask)?;
        }
    }
    for _ in 0..EACH {
        let Some(ask) = hand.pop() else {
            break;
        };
        taken.push(ask)?;
    }
    Ok(taken)
}

// The number of a hand among four: the one from which it can't steal.
fn number_of(hand: &Hand) -> u32
    ensures { result < 4 }
{
    for from in 0..3 {
        if !hand.is_other(from) {
            return from;
        }
    }
    3
}

#[test]
fn four_threads_take_each_ask_once(rt: HostRuntime) -> Result<(), Fail> {
    let alloc = rt.alloc();
    let lists = thread::map_vec(&rt, hands(alloc, 4)?, &|hand: Hand| work(alloc, hand))?;
    let mut times = Vec::from_elem(alloc, 0u32, 100_000)?;
    for list in lists {
        for ask in list?.iter() {
            let count = times
                .get_mut(*ask as usize)
                .expect(&rt, "an ask that was pushed");
            *count = count.wrapping_add(1);
        }
    }
    assert!(rt; times.iter().all(|count| *count == 1));
    Ok(())
}
