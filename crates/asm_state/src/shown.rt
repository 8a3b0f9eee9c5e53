//! What is shown over a state at the locations of one function: whether there is a value, and how many there are.
ghost use Rattle.std.specs.Prelude.{◌≡◌, ◌&&◌, ◌+◌, [], None, Option, min, not, is_some, true, unwrap_or, if◌then◌else◌};
ghost use Rattle.std.specs.Bool.{OnFalse, OnTrue};
ghost use Rattle.std.specs.FinMap as map;
ghost use Rattle.std.specs.Option.{option_copied};
ghost use Rattle.asm_element.specs.Place.{Place};
ghost use Rattle.asm_element.specs.Value.{is_undef, undef};
ghost use Rattle.asm_element.specs.declared.value.Value as values;
ghost use Rattle.asm_state.specs.Shown.{HidesAll, IsCountOf, IsNoneShown, IsOneShown, count_limit, shown_as_opened, shown_there, with_own};
ghost use Rattle.asm_state.specs.View.{value_at};

use crate::entries::scanning::has_name;
use crate::entries::{Entries, WrittenValue};
use crate::state::State;
use asm_element::{Location, Value};
use asm_update::{Lookup, PlainState};

// Return whether there is a value other than undef.
fn is_there(value: Option<&Value>) -> bool
    ensures { result ≡ not (is_undef (unwrap_or (option_copied value.entry) undef)) }
{
    match value {
        Some(value) => !value.is_undef(),
        None => false,
    }
}

// Return one more where the test holds.
fn one_more_if(count: u64, test: bool) -> u64
    ensures { result ≡ if test then min (count + 1) count_limit else count }
{
    if test { count.saturating_add(1) } else { count }
}

// Return whether a value is shown at the location.
fn shows<L: Lookup>(shown: &L, at: &Location) -> bool
    ensures { result ≡ not (is_undef (L.value_at shown.now at.now)) }
{
    is_there(shown.get(at))
}

// Return whether a value is shown at a location with the name of the first one, which has no arguments, where the
// opening state has one.
fn shows_opening<L: Lookup>(opening: &PlainState, first: &Location, shown: &L) -> bool
    requires { first.now.args ≡ [] }
    ensures some { OnTrue result (IsOneShown first.now.name (L.value_at shown.now)) }
    ensures none { OnFalse result (HidesAll opening.now first.now.name (L.value_at shown.now)) }
{
    for (at, _value) in opening.onward(first) {
        if !has_name(first.name(), at) {
            return false;
        }
        if shows(shown, at) {
            return true;
        }
    }
    false
}

impl Entries {
    // Return whether a value is shown at a location with the name of the first one that has an entry.
    fn show_one<L: Lookup>(&self, first: &Location, shown: &L) -> bool
        requires { first.now.args ≡ [] }
        ensures some { OnTrue result (IsOneShown first.now.name (L.value_at shown.now)) }
        ensures none { OnFalse result (HidesAll self.now first.now.name (L.value_at shown.now)) }
    {
        for (at, _written) in self.onward(first) {
            if !has_name(first.name(), at) {
                return false;
            }
            if shows(shown, at) {
                return true;
            }
        }
        false
    }
}

// Return whether the entry has a value, and one is shown at its location.
fn is_shown<L: Lookup>(written: &WrittenValue, shown: &L, at: &Location) -> bool
    ensures { result ≡ (not (is_undef (unwrap_or written.now.value undef)) && not (is_undef (L.value_at shown.now at.now))) }
{
    is_there(written.value.as_ref()) && shows(shown, at)
}

impl State {
    // Return whether the location has this opening value still, and a value is shown there.
    fn is_shown_as_opened<L: Lookup>(&self, value: &Value, shown: &L, at: &Location) -> bool
        ensures { result ≡ (not (is_undef value.now) && (not (is_some (map.get self.now.entries at.now))
            && not (is_undef (L.value_at shown.now at.now)))) }
    {
        !value.is_undef() && self.entries.get(at).is_none() && shows(shown, at)
    }

    // Return at how many locations with the name of the first one that have their opening value a value is shown.
    fn count_opening<L: Lookup>(&self, first: &Location, shown: &L) -> u64
        requires { first.now.args ≡ [] }
        ensures { IsCountOf (shown_as_opened self.now first.now.name (L.value_at shown.now)) result }
    {
        let mut count: u64 = 0;
        for (at, value) in self.base.onward(first) {
            if !has_name(first.name(), at) {
                return count;
            }
            count = one_more_if(count, self.is_shown_as_opened(value, shown, at));
        }
        count
    }

    /// Return whether a value is shown at a location with the name of the first one, which has no arguments.
    ///
    /// It asks for the locations of that name where this state has or had a value, up to the first at which one is
    /// shown. It copies nothing and takes no memory.
    #[tactic(auto, using(crate::proofs::Counted::none_shown))]
    pub fn shows_one<L: Lookup>(&self, first: &Location, shown: &L) -> bool
        requires { first.now.args ≡ [] }
        ensures some { OnTrue result (IsOneShown first.now.name (L.value_at shown.now)) }
        ensures none { OnFalse result (IsNoneShown self.now first.now.name (L.value_at shown.now)) }
    {
        if self.entries.show_one(first, shown) {
            return true;
        }
        shows_opening(&self.base, first, shown)
    }

    /// Return at how many locations with the name of the first one, which has no arguments, a value is shown.
    ///
    /// Those count where this state has a value too. It walks the locations of that name alone, copies nothing and takes
    /// no memory. The count is at most 18,446,744,073,709,551,615.
    pub fn count_shown<L: Lookup>(&self, first: &Location, shown: &L) -> u64
        requires { first.now.args ≡ [] }
        ensures { IsCountOf (shown_there self.now first.now.name (L.value_at shown.now)) result }
    {
        let mut count = self.count_opening(first, shown);
        for (at, written) in self.entries.onward(first) {
            if !has_name(first.name(), at) {
                return count;
            }
            count = one_more_if(count, is_shown(written, shown, at));
        }
        count
    }
    /// Return the count with one more for each location of the other state at which this one has no value.
    ///
    /// Where this state has none, nothing was counted. It walks the other state, copies nothing and takes no memory. The
    /// count is at most 18,446,744,073,709,551,615.
    pub fn count_beside(&self, own: &PlainState, counted: u64) -> u64
        ensures { (found : Place → Option values.Value) → IsCountOf found counted →
            ((l : Place) → is_undef (value_at self.now l) ≡ true → found l ≡ None) →
            IsCountOf (with_own (value_at self.now) own.now found) result }
    {
        let mut count = counted;
        for (at, _value) in own.iter() {
            count = one_more_if(count, !is_there(self.get(at)));
        }
        count
    }
}
