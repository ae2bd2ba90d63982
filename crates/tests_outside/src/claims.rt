//! Threads draw from one word, and each number is drawn once.
ghost use Rattle.std.specs.Prelude.{All, IfOk, IfSome};
ghost use Rattle.claim_word.specs.Passes.{IsPassOf};

use claim_word::{ClaimPass, Claims};
use std::alloc::{AllocError, Global};
use std::test::Fail;
use std::thread;
use std::thread::Threads;

const NUMBERS: u32 = 100_000;

#[derive(Drop)]
struct Drawer {
    pass: ClaimPass,
    numbers: Vec<u32>,
}

fn draw_to_the_end(claims: &Claims, drawer: &mut Drawer)
    requires { IsPassOf claims.now drawer.old.pass }
    ensures { IsPassOf claims.now drawer.new.pass }
{
    for _ in 0..=claims.limit {
        let Some(number) = claims.claim(&mut drawer.pass) else {
            return;
        };
        // A number for which there is no memory is missed below.
        let _ = drawer.numbers.push(number);
    }
}

fn draw_in_threads<R: Threads + Sync>(rt: &R, claims: &Claims, drawers: &mut [Drawer])
    requires { All (λ d. IsPassOf claims.now d.pass) drawers.old }
    ensures { All (λ d. IsPassOf claims.now d.pass) drawers.new }
{
    let threads = drawers.len();
    if threads > 0 {
        thread::for_each_mut(rt, drawers, threads, &|_, d| draw_to_the_end(claims, d));
    }
}

fn drawers_of(
    alloc: Global,
    claims: &Claims,
    mut first: ClaimPass,
) -> Result<Vec<Drawer>, AllocError>
    requires { IsPassOf claims.now first }
    ensures { IfOk result (λ v. All (λ d. IsPassOf claims.now d.pass) v.items) }
{
    let mut drawers = Vec::new(alloc);
    for _ in 0..claims.callers {
        let Ok(pass) = claims.split(&mut first) else {
            break;
        };
        let numbers = Vec::new(alloc);
        drawers.push(Drawer { pass, numbers })?;
    }
    let numbers = Vec::new(alloc);
    drawers.push(Drawer {
        pass: first,
        numbers,
    })?;
    Ok(drawers)
}

fn join_all(claims: &Claims, mut drawers: Vec<Drawer>) -> Option<ClaimPass>
    requires { All (λ d. IsPassOf claims.now d.pass) drawers.items }
    ensures { IfSome result (IsPassOf claims.now) }
{
    let Drawer {
        mut pass,
        numbers: _,
    } = drawers.pop()?;
    while let Some(
        Drawer {
            pass: other,
            numbers: _,
        },
    ) = drawers.pop()
    {
        claims.join(&mut pass, other);
    }
    Some(pass)
}

/// Counts how often each number is there. Whether all are below the limit.
fn count(times: &mut [u32], numbers: &[u32]) -> bool {
    let mut within = true;
    for number in numbers {
        let place = *number as usize;
        if place < times.len() {
            times[place] = times[place].wrapping_add(1);
        } else {
            within = false;
        }
    }
    within
}

/// Whether the drawers have each number once, and no other.
fn are_drawn_once(alloc: Global, drawers: &[Drawer]) -> Result<bool, AllocError> {
    let mut times = Vec::from_elem(alloc, 0u32, NUMBERS as usize)?;
    let mut within = true;
    for drawer in drawers {
        within = count(times.as_mut_slice(), drawer.numbers.as_slice()) && within;
    }
    Ok(within && times.as_slice().iter().all(|t| *t == 1))
}

#[test]
fn threads_draw_each_number_once(rt: HostRuntime) -> Result<(), Fail> {
    for callers in [1u32, 2, 16, 64] {
        let (claims, first) = Claims::new(rt.alloc(), NUMBERS, callers)?;
        let mut drawers = drawers_of(rt.alloc(), &claims, first)?;
        assert!(rt; drawers.len() == callers as usize);
        draw_in_threads(&rt, &claims, drawers.as_mut_slice());
        assert!(rt; are_drawn_once(rt.alloc(), drawers.as_slice())?);
        let pass = join_all(&claims, drawers);
        assert!(rt; pass.is_some());
        if let Some(mut pass) = pass {
            // Each pass has met the end once, and the joined one draws no more.
            assert!(rt; claims.claim(&mut pass).is_none());
            assert!(rt; claims.close(pass) == NUMBERS as u64 + callers as u64);
        }
    }
    Ok(())
}
