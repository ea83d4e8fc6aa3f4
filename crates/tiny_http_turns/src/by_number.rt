//! Values under consecutive numbers. Leading numbers without a value take no memory.
ghost use Rattle.std.specs.Prelude.{◌≡◌, ◌+◌, ◌-◌, ◌^◌, ◌<◌, ◌↔◌, ◌++◌, ◌∷◌, [], length, Some, None, Err, OnOk};
ghost use Rattle.std.specs.Prelude.{OnErr, IfSome, IfNone, slice_get, slice_set};
ghost use Rattle.std.specs.Option.{option_to_list};
ghost use Rattle.tiny_http_turns.specs.ByNumber.{with_passed, BeginsWithValue, value_of};
ghost use Rattle.tiny_http_turns.specs.declared.turns.TurnsError.TheVariants.{Exhausted};

use crate::turns::TurnsError;
use std::alloc::Global;
use std::collections::VecDeque;
use std::marker::Model;
use std::mem;

/// A queue of optional values, numbered from 0. Numbers before the first value are only counted. A contract sees an
/// entry for each number.
#[derive(Drop)]
pub struct ByNumber<T> {
    // The entries from number `passed` on. The first one, if there is one, has a value.
    kept: VecDeque<Option<T>>,
    // No number below this one has a value.
    passed: u64,
}

impl<T> Model for ByNumber<T> {
    ghost use Rattle.std.specs.Prelude.{◌+◌, ◌<◌, ◌^◌, length, List, Option};
    ghost use Rattle.tiny_http_turns.specs.ByNumber.{with_passed, BeginsWithValue};

    ghost Value = { List (Option T) };

    ghost view = { λ n. with_passed n.passed n.kept.items };

    ghost invariant = { λ n. BeginsWithValue n.kept.items × (n.passed + length n.kept.items < 2 ^ 64) };
}

impl<T: Drop> ByNumber<T> {
    /// Makes an empty queue.
    pub fn new(alloc: Global) -> ByNumber<T>
        ensures { result ≡ [] }
    {
        ByNumber {
            kept: VecDeque::new(alloc),
            passed: 0,
        }
    }

    /// Returns the number of entries, including those without a value.
    pub fn len(&self) -> u64
        ensures { result ≡ length self.now }
    {
        self.passed + self.kept.len() as u64
    }

    /// Returns the value under this number, if there is one.
    #[inline(always)]
    pub fn get(&self, number: u64) -> Option<&T>
        ensures some { IfSome result (λ value. slice_get self.now number ≡ Some (Some value.now)) }
        ensures none { IfNone result (value_of (slice_get self.now number) ≡ None) }
    {
        let at = number.checked_sub(self.passed)?;
        match self.kept.get(at as usize) {
            Some(Some(value)) => Some(value),
            _ => None,
        }
    }

    /// Adds an entry under the next number. Fails with `Exhausted` if there are 2^64 - 1 numbers, and only then; with
    /// `Memory` if memory can't be allocated. A call that fails drops the value and changes nothing else.
    #[inline(always)]
    pub fn push(&mut self, value: Option<T>) -> Result<(), TurnsError>
        ensures ok { OnOk result (self.new ≡ self.old ++ (value ∷ [])) }
        ensures err { OnErr result (self.new ≡ self.old) }
        // The next number fits in 64 bits.
        ensures bound { length self.new < 2 ^ 64 }
        ensures exhausted { (result ≡ Err Exhausted) ↔ (length self.old ≡ 2 ^ 64 - 1) }
    {
        if self.len() == u64::MAX {
            return Err(TurnsError::Exhausted);
        }
        if self.kept.push_back(value).is_err() {
            return Err(TurnsError::Memory);
        }
        pass_empty(&mut self.kept, &mut self.passed);
        Ok(())
    }

    /// Removes the last number and returns its entry, or `None` if there are no numbers.
    pub fn pop(&mut self) -> Option<Option<T>>
        ensures last { self.old ≡ self.new ++ option_to_list result }
        ensures none { IfNone result (self.old ≡ []) }
    {
        if let Some(last) = self.kept.pop_back() {
            return Some(last);
        }
        self.passed = self.passed.checked_sub(1)?;
        Some(None)
    }

    /// Replaces the value under a number with `value`, or removes it if `value` is `None`, and returns the old value.
    /// Returns `None`, drops `value` and changes nothing if the number has no value.
    #[inline(always)]
    pub fn replace(&mut self, number: u64, value: Option<T>) -> Option<T>
        ensures some { IfSome result (λ was. (slice_get self.old number ≡ Some (Some was))
            × (self.new ≡ slice_set self.old number value)) }
        ensures none { IfNone result ((value_of (slice_get self.old number) ≡ None) × (self.new ≡ self.old)) }
    {
        let at = number.checked_sub(self.passed)?;
        let was = exchange(&mut self.kept, at as usize, value)?;
        pass_empty(&mut self.kept, &mut self.passed);
        Some(was)
    }
}

// Replaces the value at this index with `value`, or removes it if `value` is `None`, and returns the old value. Returns
// `None`, drops `value` and changes nothing if there is no value at this index.
#[inline(always)]
fn exchange<T: Drop>(kept: &mut VecDeque<Option<T>>, at: usize, value: Option<T>) -> Option<T>
    ensures some { IfSome result (λ was. (slice_get kept.old.items at ≡ Some (Some was))
        × (kept.new.items ≡ slice_set kept.old.items at value)) }
    ensures none { IfNone result ((value_of (slice_get kept.old.items at) ≡ None) × (kept.new.items ≡ kept.old.items)) }
{
    let entry = kept.get_mut(at)?;
    match entry {
        Some(_) => mem::replace(entry, value),
        None => None,
    }
}

// Drops leading entries without a value and counts them in `passed`.
#[inline(always)]
fn pass_empty<T: Drop>(kept: &mut VecDeque<Option<T>>, passed: &mut u64)
    requires bound { passed.old + length kept.old.items < 2 ^ 64 }
    ensures same { with_passed passed.new kept.new.items ≡ with_passed passed.old kept.old.items }
    ensures bound { passed.new + length kept.new.items < 2 ^ 64 }
    ensures front { BeginsWithValue kept.new.items }
{
    while let Some(None) = kept.front() {
        drop(kept.pop_front());
        *passed += 1;
    }
}
