//! An aggregator that has no memory for results, so that what goes by a result fails.
use asm_element::Value;
use asm_update::{Action, Aggregator, Family, Group, JoinError, ResultError};
use std::alloc::Global;

/// It answers what the inner one does, but that each result is refused memory.
#[derive(Drop)]
pub struct Resultless<A> {
    inner: A,
}

impl<A: Aggregator> Resultless<A> {
    /// Return the one over this aggregator.
    pub fn over(inner: A) -> Resultless<A> {
        Resultless { inner }
    }
}

impl<A: Aggregator> Aggregator for Resultless<A> {
    ghost meaning = { λ r. A.meaning r.inner };

    ghost laws = { λ r. A.laws r.inner };

    fn owns(&self, family: Family) -> bool {
        self.inner.owns(family)
    }

    fn result(
        &self,
        _alloc: Global,
        _old: Option<&Value>,
        _group: &Group,
    ) -> Result<Value, ResultError> {
        Err(ResultError::Memory)
    }

    fn admit(&self, alloc: Global, old: Option<&Value>, group: &Group) -> Result<(), ResultError> {
        self.inner.admit(alloc, old, group)
    }

    fn change(&self, alloc: Global, value: &mut Value, group: &Group) -> Result<(), ResultError> {
        self.inner.change(alloc, value, group)
    }

    fn join(
        &self,
        alloc: Global,
        first: &[Action],
        second: &[Action],
    ) -> Result<Vec<Action>, JoinError> {
        self.inner.join(alloc, first, second)
    }
}
