//! Threads that count under one lock, seats that are split and joined, and a turn that is never ended.
use std::alloc::Global;
use std::sync::Wait;
use std::test::Fail;
use std::thread::Threads;
use turn_count::{
    Counter, bump, close_there, count_of_four, count_of_two, counted, in_generations, two_around,
};
use turn_lock::Closed;

fn count_of_generations<R: Wait>(rt: &R, alloc: Global, generations: u64) -> Option<u64> {
    let (lock, mut seat) = Counter::locked(alloc).ok()?;
    if !in_generations(rt, &lock, &mut seat, generations) {
        return None;
    }
    counted(lock.close(seat))
}

fn words_after_a_drop<R: Wait>(rt: &R, alloc: Global) -> Option<(u64, u64)> {
    let (lock, mut one) = Counter::locked(alloc).ok()?;
    let mut two = lock.split(&mut one);
    let Ok(held) = two.turn(rt, &lock) else {
        return None;
    };
    drop(held);
    match lock.shut(one).ends() {
        Closed::Whole(_) => None,
        Closed::Stuck { next, serving } => Some((next, serving)),
    }
}

fn count_elsewhere<R: Threads + Sync>(rt: &R, alloc: Global) -> Option<u64> {
    let (lock, mut one) = Counter::locked(alloc).ok()?;
    let mut two = lock.split(&mut one);
    two_around(rt, &lock, &mut one, &mut two);
    counted(close_there(rt, lock, one))
}

// What each of three turns answers, of two seats.
fn counts_before<R: Wait>(rt: &R, alloc: Global) -> Option<(u64, u64, u64)> {
    let (lock, mut one) = Counter::locked(alloc).ok()?;
    let mut two = lock.split(&mut one);
    let first = bump(rt, &lock, &mut one, 7).ok()?;
    let second = bump(rt, &lock, &mut two, 8).ok()?;
    let third = bump(rt, &lock, &mut one, 9).ok()?;
    Some((first, second, third))
}

#[test]
fn two_threads_take_a_thousand_turns_each(rt: HostRuntime) -> Result<(), Fail> {
    assert!(rt; count_of_two(&rt, rt.alloc(), 1000) == Ok(2000));
    Ok(())
}

#[test]
fn four_threads_take_a_thousand_turns_each(rt: HostRuntime) -> Result<(), Fail> {
    assert!(rt; count_of_four(&rt, rt.alloc(), 1000) == Some(4000));
    Ok(())
}

// Each of ten generations splits the seat of the one before, and each seat takes one turn.
#[test]
fn ten_generations_of_seats_are_joined_again(rt: HostRuntime) -> Result<(), Fail> {
    assert!(rt; count_of_generations(&rt, rt.alloc(), 10) == Some(11));
    Ok(())
}

#[test]
fn a_turn_that_is_dropped_leaves_the_lock_stuck(rt: HostRuntime) -> Result<(), Fail> {
    assert!(rt; words_after_a_drop(&rt, rt.alloc()) == Some((1, 0)));
    Ok(())
}

#[test]
fn a_lock_is_closed_in_another_thread(rt: HostRuntime) -> Result<(), Fail> {
    assert!(rt; count_elsewhere(&rt, rt.alloc()) == Some(0));
    Ok(())
}

#[test]
fn each_turn_answers_the_count_before_it(rt: HostRuntime) -> Result<(), Fail> {
    assert!(rt; counts_before(&rt, rt.alloc()) == Some((0, 1, 2)));
    Ok(())
}
