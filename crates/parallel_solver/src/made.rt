//! What workers make beside one another, one result for each place.

ghost use Rattle.std.specs.Prelude.{◌≡◌, ℕ, ◌<◌, Ok, Some, map, length, vec_len, slice_index_or, IfOk, IfSome};
ghost use Rattle.std.specs.Fn.{FnReturns};
ghost use Rattle.parallel_solver.specs.Made.{AreMade};

use std::alloc::{AllocError, Global};
use std::thread;
use std::thread::Threads;

// A place for each result.
fn empty_places<T: Drop>(alloc: Global, count: usize) -> Result<Vec<Option<T>>, AllocError>
    ensures { IfOk result (λ found. vec_len found ≡ count) }
{
    let mut found = Vec::with_capacity(alloc, count)?;
    for _ in 0..count {
        found.push(None)?;
    }
    Ok(found)
}

// Makes the result of each place, by so many workers; a place stays empty only where its call was in want of memory.
fn fill<R: Threads + Sync, T: Send + Drop, F: Fn(usize) -> Result<T, AllocError> + Sync>(
    rt: &R,
    workers: usize,
    found: &mut [Option<T>],
    make: &F,
)
    requires workers { 0 < workers }
    requires may_be_called { (place : ℕ) → place < length found.old → F.pre make.now place }
    ensures { (place : ℕ) (d : _) → place < length found.old → IfSome (slice_index_or found.new place d) (λ x. FnReturns F.Fn make.now (place, tt) (Ok x)) }
{
    thread::for_each_mut(
        rt,
        found,
        workers,
        &|place: usize, slot: &mut Option<T>|
            requires { F.pre make.now place }
            ensures { IfSome slot.new (λ x. FnReturns F.Fn make.entry.now (place, tt) (Ok x)) }
        { *slot = make(place).ok() },
    );
}

// The results, if no place is empty.
fn all_found<T: Drop>(alloc: Global, found: Vec<Option<T>>) -> Result<Vec<T>, AllocError>
    ensures { IfOk result (λ made. map Some made.items ≡ found.items) }
{
    let mut made = Vec::with_capacity(alloc, found.len())?;
    for slot in found {
        let Some(one) = slot else {
            return Err(AllocError);
        };
        made.push(one)?;
    }
    Ok(made)
}

/// What calls at the places below a count give, in order, by so many workers beside one another. They share out the places
/// in runs of the same length.
pub fn made_by<R: Threads + Sync, T: Send + Drop, F: Fn(usize) -> Result<T, AllocError> + Sync>(
    rt: &R,
    alloc: Global,
    workers: usize,
    count: usize,
    make: &F,
) -> Result<Vec<T>, AllocError>
    requires workers { 0 < workers }
    requires may_be_called { (place : ℕ) → place < count → F.pre make.now place }
    ensures count { IfOk result (λ made. vec_len made ≡ count) }
    ensures made { IfOk result (λ made. AreMade F.Fn make.now made.items) }
{
    let mut found = empty_places(alloc, count)?;
    fill(rt, workers, &mut found, make);
    let made = all_found(alloc, found)?;
    Ok(made)
}
