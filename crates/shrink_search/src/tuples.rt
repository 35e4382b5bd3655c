use crate::values::{Digit, SliceValues};
use cov_model::{ParamNo, Slice};
use std::alloc::Global;
use tuple_index::Plan;
use value_text::NoMemory;

// A member of a demanded set, and what a step of its digit adds to a place.
#[derive(Clone, Copy)]
pub(crate) struct Member {
    pub(crate) param: ParamNo,
    pub(crate) stride: u32,
}

// A demanded set: where its places begin, and where its members stand.
#[derive(Clone, Copy)]
struct SetShape {
    base: u32,
    begin: u32,
    end: u32,
}

// The sets of which a parameter is a member. Among the members of each the parameter is the first one. They stand one
// behind another, since a change of the parameter's value goes through all of them.
#[derive(Drop)]
pub(crate) struct OwnSets {
    sets: Vec<SetShape>,
    members: Vec<Member>,
}

// A digit that a tuple gives a parameter.
#[derive(Clone, Copy)]
pub(crate) struct Target {
    pub(crate) param: ParamNo,
    pub(crate) digit: Digit,
}

// The demanded tuples of a slice as places: those of one set stand one behind another, in mixed radix.
#[derive(Drop)]
pub(crate) struct SliceTuples {
    sets: Vec<SetShape>,
    members: Vec<Member>,
    sets_of: Vec<OwnSets>,
    size: u32,
}

// A number of sets or members, of which there are fewer than 2^32.
fn small(count: usize) -> u32 {
    count.min(u32::MAX as usize) as u32
}

// Whether a set has tuples in a slice.
fn is_part(members: &[ParamNo], slice: Slice) -> bool {
    match slice {
        Slice::Positive => true,
        Slice::Negative(q, _) => members.iter().any(|p| *p == q),
    }
}

// The members between two places of a list.
#[inline]
fn part(members: &[Member], begin: u32, end: u32) -> &[Member] {
    members.get(begin as usize..end as usize).unwrap_or(&[])
}

impl OwnSets {
    // Room for so many sets with so many members.
    fn new(alloc: Global, sets: usize, members: usize) -> Result<OwnSets, NoMemory> {
        Ok(OwnSets {
            sets: Vec::with_capacity(alloc, sets)?,
            members: Vec::with_capacity(alloc, members)?,
        })
    }

    // Puts a set behind the others, of which the parameter is this member.
    fn push(&mut self, base: u32, own: Member, members: &[Member]) -> Result<(), NoMemory> {
        let begin = small(self.members.len());
        self.members.push(own)?;
        for member in members {
            if member.param != own.param {
                self.members.push(*member)?;
            }
        }
        let end = small(self.members.len());
        self.sets.push(SetShape { base, begin, end })?;
        Ok(())
    }

    // The number of sets.
    #[inline]
    pub(crate) fn len(&self) -> usize {
        self.sets.len()
    }

    // The first place of the set of this number among them, and its members.
    #[inline]
    pub(crate) fn set(&self, number: usize) -> (u32, &[Member]) {
        match self.sets.get(number) {
            Some(shape) => (
                shape.base,
                part(self.members.as_slice(), shape.begin, shape.end),
            ),
            None => (0, &[]),
        }
    }
}

impl SliceTuples {
    // The tuples of a plan in a slice with these values.
    pub(crate) fn new(
        alloc: Global,
        plan: &Plan,
        slice: Slice,
        values: &SliceValues,
        params: usize,
    ) -> Result<SliceTuples, NoMemory> {
        let mut tuples = SliceTuples {
            sets: Vec::new(alloc),
            members: Vec::new(alloc),
            sets_of: Vec::new(alloc),
            size: 0,
        };
        for set in 0..plan.set_count() {
            let members = plan.members(set);
            if is_part(members, slice) {
                tuples.push(members, values)?;
            }
        }
        tuples.list_sets(alloc, params)?;
        Ok(tuples)
    }

    // Puts the places of a set behind those of the others.
    fn push(&mut self, members: &[ParamNo], values: &SliceValues) -> Result<(), NoMemory> {
        let begin = small(self.members.len());
        let mut stride: u32 = 1;
        for param in members {
            self.members.push(Member {
                param: *param,
                stride,
            })?;
            stride = stride.saturating_mul(values.count(*param));
        }
        self.sets.push(SetShape {
            base: self.size,
            begin,
            end: small(self.members.len()),
        })?;
        self.size = self.size.saturating_add(stride);
        Ok(())
    }

    // Lists for each parameter the sets of which it is a member.
    fn list_sets(&mut self, alloc: Global, params: usize) -> Result<(), NoMemory> {
        let sets = self.sets.as_slice();
        let members = self.members.as_slice();
        let mut counts = vec![in alloc; (0usize, 0usize); params]?;
        for shape in sets {
            let own = part(members, shape.begin, shape.end);
            for member in own {
                if let Some(count) = counts.get_mut(member.param as usize) {
                    count.0 = count.0.saturating_add(1);
                    count.1 = count.1.saturating_add(own.len());
                }
            }
        }
        for count in counts.as_slice() {
            self.sets_of.push(OwnSets::new(alloc, count.0, count.1)?)?;
        }
        for shape in sets {
            let own = part(members, shape.begin, shape.end);
            for member in own {
                if let Some(sets) = self.sets_of.get_mut(member.param as usize) {
                    sets.push(shape.base, *member, own)?;
                }
            }
        }
        Ok(())
    }

    // The number of places.
    pub(crate) fn size(&self) -> u32 {
        self.size
    }

    // The number of sets.
    pub(crate) fn set_count(&self) -> u32 {
        small(self.sets.len())
    }

    // The first place of a set, and its members.
    #[inline]
    pub(crate) fn set(&self, set: u32) -> (u32, &[Member]) {
        match self.sets.get(set as usize) {
            Some(shape) => (
                shape.base,
                part(self.members.as_slice(), shape.begin, shape.end),
            ),
            None => (0, &[]),
        }
    }

    // The places behind those of the sets up to a number.
    pub(crate) fn end(&self, set: u32) -> u32 {
        match self.sets.get((set as usize).saturating_add(1)) {
            Some(shape) => shape.base,
            None => self.size,
        }
    }

    // The sets of which a parameter is a member.
    #[inline]
    pub(crate) fn sets_of(&self, p: ParamNo) -> Option<&OwnSets> {
        self.sets_of.get(p as usize)
    }

    // The set to which a place belongs.
    pub(crate) fn set_holding(&self, place: u32) -> u32 {
        let count = self.sets.partition_point(|shape| shape.base <= place);
        small(count.saturating_sub(1))
    }

    // Puts the digits of the tuple at a place.
    pub(crate) fn put_tuple(
        &self,
        place: u32,
        values: &SliceValues,
        into: &mut Vec<Target>,
    ) -> Result<(), NoMemory> {
        let (base, members) = self.set(self.set_holding(place));
        let rank = place.saturating_sub(base);
        into.clear();
        for member in members {
            let steps = rank.checked_div(member.stride).unwrap_or(0);
            let digit = steps.checked_rem(values.count(member.param)).unwrap_or(0);
            into.push(Target {
                param: member.param,
                digit: (digit & 0xffff) as Digit,
            })?;
        }
        Ok(())
    }
}
