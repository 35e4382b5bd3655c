use crate::parameter::ParamNo;
use value_text::OwnedList;

/// A list of numbers of parameters or values.
pub type NoList = OwnedList<u16>;

/// A list of parameters with an order: a sub-model (PICT's guide) or a relation (the ACTS guide).
#[derive(Drop)]
pub struct Group {
    /// How many of its parameters are taken together: the order of a sub-model, the strength of a relation.
    pub order: u32,
    /// Its parameters, in the order in which they were written.
    pub members: NoList,
}

/// The groups of one kind, in order.
pub type GroupList = OwnedList<Group>;

/// What a suite has to cover.
#[derive(Drop)]
pub struct Demand {
    /// How many units, sub-models or single parameters, are taken together.
    pub order: u32,
    /// The sub-models, each a unit of the demand.
    pub subs: GroupList,
    /// The relations, each demanded besides.
    pub relations: GroupList,
}
