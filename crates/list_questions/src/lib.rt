//! Questions about the items of a list. Each loop over a list is here once, for items of any type, and so it is proved once: who asks
//! only says what holds of one item, what is made of it, what it adds, or what is written of it.
#![tactic(auto)]

ghost use Rattle.std.specs.Prelude.{◌≡◌, ◌++◌, ℕ, List, Bool, Option, IfOk, OnOk, count_by, filter, find, map, option_copied, string_bytes};
ghost use Rattle.std.specs.List.{filter_map, flat_map, list_any};

use std::alloc::{AllocError, Global};

/// A question about an item.
pub trait Asks<T> {
    ghost holds: { Self → T → Bool };

    /// Whether it holds of an item.
    fn holds(&self, item: &T) -> bool
        ensures { result ≡ holds self.now item.now };
}

/// Whether it holds of one of some items.
pub fn any<T, Q: Asks<T>>(items: &[T], question: &Q) -> bool
    ensures { result ≡ list_any (Q.holds question.now) items.now }
{
    for item in items {
        if question.holds(item) {
            return true;
        }
    }
    false
}

/// The items of which it holds.
pub fn those<T: Copy, Q: Asks<T>>(
    alloc: Global,
    items: &[T],
    question: &Q,
) -> Result<Vec<T>, AllocError>
    ensures { IfOk result (λ v. v.items ≡ filter (Q.holds question.now) items.now) }
{
    let mut those = Vec::new(alloc);
    for item in items {
        if question.holds(item) {
            those.push(*item)?;
        }
    }
    Ok(those)
}

/// The first item of which it holds.
pub fn first<'a, T, Q: Asks<T>>(items: &'a [T], question: &Q) -> Option<&'a T>
    ensures { option_copied result ≡ find (Q.holds question.now) items.now }
{
    for item in items {
        if question.holds(item) {
            return Some(item);
        }
    }
    None
}

/// Of how many items it holds.
pub fn count<T, Q: Asks<T>>(items: &[T], question: &Q) -> usize
    ensures { result ≡ count_by (Q.holds question.now) items.now }
{
    let mut count = 0;
    for item in items {
        if question.holds(item) {
            count += 1;
        }
    }
    count
}

/// What is made of an item.
pub trait Makes<T, R> {
    ghost made: { Self → T → R };

    /// Makes it.
    fn make(&self, item: &T) -> R
        ensures { result ≡ made self.now item.now };
}

/// What is made of each item, in their order.
pub fn each<T, R: Copy, M: Makes<T, R>>(
    alloc: Global,
    items: &[T],
    maker: &M,
) -> Result<Vec<R>, AllocError>
    ensures { IfOk result (λ v. v.items ≡ map (M.made maker.now) items.now) }
{
    let mut all = Vec::new(alloc);
    for item in items {
        all.push(maker.make(item))?;
    }
    Ok(all)
}

/// What is found of an item, if something is.
pub trait Finds<T, R> {
    ghost found: { Self → T → Option R };

    /// Finds it.
    fn find(&self, item: &T) -> Option<R>
        ensures { result ≡ found self.now item.now };
}

/// What is found of the items, in their order.
pub fn all_found<T, R: Copy, F: Finds<T, R>>(
    alloc: Global,
    items: &[T],
    finder: &F,
) -> Result<Vec<R>, AllocError>
    ensures { IfOk result (λ v. v.items ≡ filter_map (F.found finder.now) items.now) }
{
    let mut all = Vec::new(alloc);
    for item in items {
        if let Some(found) = finder.find(item) {
            all.push(found)?;
        }
    }
    Ok(all)
}

/// What an item adds to another list.
pub trait Adds<T, R> {
    ghost added: { Self → T → List R };

    /// Adds it.
    fn add(&self, alloc: Global, out: &mut Vec<R>, item: &T) -> Result<(), AllocError>
        ensures { OnOk result (out.new.items ≡ out.old.items ++ added self.now item.now) };
}

/// Adds what each item adds, in their order.
pub fn add_all<T, R, A: Adds<T, R>>(
    alloc: Global,
    out: &mut Vec<R>,
    items: &[T],
    adder: &A,
) -> Result<(), AllocError>
    ensures { OnOk result (out.new.items ≡ out.old.items ++ flat_map (A.added adder.now) items.now) }
{
    for item in items {
        adder.add(alloc, out, item)?;
    }
    Ok(())
}

/// What is written of an item.
pub trait Line<T> {
    ghost line: { Self → T → List ℕ };

    /// Writes it.
    fn add(&self, out: &mut String, item: &T) -> Result<(), AllocError>
        ensures { OnOk result (string_bytes out.new ≡ string_bytes out.old ++ line self.now item.now) };
}

/// Writes what is written of each item, in their order.
pub fn add_each<T, L: Line<T>>(out: &mut String, items: &[T], line: &L) -> Result<(), AllocError>
    ensures { OnOk result (string_bytes out.new ≡ string_bytes out.old ++ flat_map (L.line line.now) items.now) }
{
    for item in items {
        line.add(out, item)?;
    }
    Ok(())
}
