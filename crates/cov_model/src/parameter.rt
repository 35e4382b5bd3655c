use value_text::{OwnedList, Text, TextList};

/// The number of a parameter, from 0 in order of declaration.
pub type ParamNo = u16;

/// The number of a value of a parameter, from 0 in order of declaration.
pub type ValueNo = u16;

/// A value of a parameter (PICT's guide).
#[derive(Drop)]
pub struct Value {
    /// Its name and its aliases. The first one decides its type and is what constraints see.
    pub names: TextList,
    /// Its weight: of values that would serve equally well, a heavier one is taken first.
    pub weight: u32,
    /// Whether it is an invalid input, of which a row holds at most one.
    pub negative: bool,
}

/// The values of a parameter, in order of declaration.
pub type ValueList = OwnedList<Value>;

/// A parameter with its values (PICT's guide).
#[derive(Drop)]
pub struct Param {
    /// Its name.
    pub name: Text,
    /// The line of the model file that declares it, from 1.
    pub line: u32,
    /// Whether the first name of each of its values is a number.
    pub numeric: bool,
    /// Its values.
    pub values: ValueList,
}

/// The parameters of a model, in order of declaration.
pub type ParamList = OwnedList<Param>;
