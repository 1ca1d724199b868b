ghost use Rattle.std.specs.Prelude.{◌≡◌, ◌<◌, ◌+◌, ◌^◌, [], ◌∷◌, ◌++◌, Some, None, false, length, slice_set, IsSome, OnOk, OnErr, IfOk, IfSome, MatchOption};
ghost use Rattle.std.specs.List.{count_by};
ghost use Rattle.vch_base.specs.Places.{Placed, unmade};
ghost use Rattle.vch_base.specs.Slots.{is_taken};
ghost use Rattle.vch_base.specs.Managers.{IsAbsent, Handed, MadeBelow, is_user, live_at, value_at, made_at, due_at, with_due, content_at, next_handle, slots_with, free_after};
ghost use Rattle.vch_intern.specs.Tags.{live_of};

use crate::tag::Tag;
use indexmap::IndexMap;
use std::alloc::Global;
use std::marker::Model;
use vch_base::{GetFault, Got, Live, NoMemory, Value};
use vch_shelf::Shelf;

/// Live values, each at its handle, the handles that are free, and an index that finds a value.
#[derive(Drop)]
pub struct Interned {
    places: Shelf<Live>,
    index: IndexMap<Tag, u32>,
}

impl Model for Interned {
    ghost use Rattle.vch_base.specs.Places.{Shelf};
    ghost use Rattle.vch_intern.specs.Tags.{Indexed};

    ghost Value = { Shelf };

    ghost view = { λ s. record { slots = s.places.slots; free = s.places.free } };

    ghost invariant = { λ s. Indexed s.index s.places.slots };
}

impl Interned {
    /// No values. It takes no memory.
    pub fn new(alloc: Global) -> Interned
        ensures { result ≡ record { slots = []; free = [] } }
    {
        Interned {
            places: Shelf::new(alloc),
            index: IndexMap::new(alloc),
        }
    }

    /// One value at handle 0, which was not handed out yet.
    ///
    /// # Errors
    ///
    /// Out of memory alone.
    pub fn holding(alloc: Global, value: Value) -> Result<Interned, NoMemory>
        requires { is_user value ≡ false }
        ensures { IfOk result (λ made. made ≡ record { slots = Some (unmade value) ∷ []; free = [] }) }
    {
        let mut values = Interned::new(alloc);
        values.add(value, 0)?;
        Ok(values)
    }

    /// The handle of a value, where it is live. Expected constant time.
    pub fn find(&self, value: &Value) -> Option<u32>
        requires { is_user value.now ≡ false }
        ensures { MatchOption result (IsAbsent self.now.slots value.now) (λ h. value_at self.now.slots h ≡ Some value.now) }
    {
        self.index.get(&Tag::of(value)).copied()
    }

    /// How often a live value was handed out. Constant time.
    pub fn made(&self, handle: u32) -> u64
        requires { IsSome (live_at self.now.slots handle) }
        ensures { result ≡ made_at self.now.slots handle }
    {
        match self.places.get(handle) {
            Some(live) => live.made,
            None => unreachable!(),
        }
    }

    /// The value at a handle. Constant time.
    pub fn look(&self, handle: u32) -> Option<&Value>
        ensures { MatchOption result (value_at self.now.slots handle ≡ None) (λ v. value_at self.now.slots handle ≡ Some v.now) }
    {
        match self.places.get(handle) {
            Some(live) => Some(&live.value),
            None => None,
        }
    }

    /// What is due on a value, or 0 where no value is live at the handle. Constant time.
    pub fn due(&self, handle: u32) -> u128
        ensures { result ≡ due_at self.now.slots handle }
    {
        match self.places.get(handle) {
            Some(live) => live.due,
            None => 0,
        }
    }

    /// Writes what is due on a value. Constant time.
    pub fn set_due(&mut self, handle: u32, due: u128)
        requires { IsSome (live_at self.old.slots handle) }
        ensures slots { self.new.slots ≡ slice_set self.old.slots handle (with_due due (live_at self.old.slots handle)) }
        ensures free { self.new.free ≡ self.old.free }
    {
        let live = self.places.item_mut(handle);
        live.due = due;
    }

    /// Appends the content of a value; nothing where no value is live at the handle.
    ///
    /// # Errors
    ///
    /// Out of memory alone, which leaves `out` as it was.
    pub fn extract(&self, handle: u32, out: &mut Vec<u8>) -> Result<(), NoMemory>
        ensures done { OnOk result (out.new.items ≡ out.old.items ++ content_at self.now.slots handle) }
        ensures refused { OnErr result (out.new.items ≡ out.old.items) }
    {
        match self.look(handle) {
            Some(value) => value.append(out),
            None => Ok(()),
        }
    }

    /// No value stands at two handles, and the free handles are those without a value, each once. It does nothing.
    pub fn know(&self)
        ensures { Placed self.now }
    {
        self.places.know();
    }

    /// How many handles were ever used. Constant time.
    pub fn handles(&self) -> usize
        ensures { result ≡ length self.now.slots }
    {
        self.places.len()
    }

    /// How many values are live. Constant time.
    pub fn live(&self) -> usize
        ensures { result ≡ count_by is_taken self.now.slots }
    {
        self.places.count()
    }

    /// A live value is handed out once more. Constant time; it takes no memory.
    pub fn again(&mut self, handle: u32) -> Result<Got, GetFault>
        requires there { IsSome (live_at self.old.slots handle) }
        requires room { made_at self.old.slots handle < 2 ^ 63 }
        ensures { IfSome (value_at self.old.slots handle) (λ x. Handed self.old.slots self.old.free x result self.new.slots self.new.free) }
    {
        let live = self.places.item_mut(handle);
        live.made += 1;
        let persist = live.value.is_default();
        Ok(Got::Value {
            handle,
            fresh: false,
            persist,
        })
    }

    /// A value is handed out, and becomes live where it is not. Expected amortised constant time.
    ///
    /// # Errors
    ///
    /// Out of memory alone, for a value that is not live; all stays as it was.
    pub fn hand(&mut self, value: Value) -> Result<Got, GetFault>
        requires tagged { is_user value ≡ false }
        requires handles { length self.old.slots < 4294967295 }
        requires counts { MadeBelow (2 ^ 63) self.old.slots }
        ensures { Handed self.old.slots self.old.free value result self.new.slots self.new.free }
    {
        if let Some(handle) = self.find(&value) {
            return self.again(handle);
        }
        let persist = value.is_default();
        let handle = self.add(value, 1)?;
        Ok(Got::Value {
            handle,
            fresh: true,
            persist,
        })
    }

    /// A live value goes, and its handle is the first free one. Expected constant time; it takes no memory.
    pub fn remove(&mut self, handle: u32)
        requires { IsSome (live_at self.old.slots handle) }
        ensures slots { self.new.slots ≡ slice_set self.old.slots handle None }
        ensures free { self.new.free ≡ handle ∷ self.old.free }
    {
        let live = self.places.remove(handle);
        let tag = Tag::of(&live.value);
        self.index.swap_remove(&tag);
    }

    /// A value that is not live becomes so, handed out so many times.
    fn add(&mut self, value: Value, made: u64) -> Result<u32, NoMemory>
        requires tagged { is_user value ≡ false }
        requires absent { IsAbsent self.old.slots value }
        requires room { length self.old.slots < 4294967295 }
        ensures handle { IfOk result (λ h. h ≡ next_handle self.old.free (length self.old.slots)) }
        ensures slots { OnOk result (self.new.slots ≡ slots_with self.old.slots self.old.free (live_of value made)) }
        ensures free { OnOk result (self.new.free ≡ free_after self.old.free) }
        ensures refused { OnErr result (self.new ≡ self.old) }
    {
        let tag = Tag::of(&value);
        self.index.reserve(1)?;
        let handle = self.places.insert(Live {
            value,
            made,
            due: 0,
        })?;
        self.index.insert(tag, handle).unwrap();
        Ok(handle)
    }
}
