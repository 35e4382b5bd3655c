ghost use Rattle.std.specs.Prelude.{◌≡◌};
ghost use Rattle.jeldroft_lint.specs.believed.Kinds.{kind_name, rank_of};

/// What is told of a model: its findings, of which clauses speak, and then hints, which the form of a line gives.
#[derive(Debug, Drop, Clone, Copy, PartialEq, Eq)]
pub enum Kind {
    /// `no-test`: no row is valid.
    NoTest,
    /// `value-in-no-test`: a value is in no test, though there are tests.
    ValueInNoTest,
    /// `unknown-value`: a comparison with what no value of its parameter is.
    UnknownValue,
    /// `constant-comparison`: another comparison that is the same for every value.
    ConstantComparison,
    /// `never-excludes`: a constraint is true of every row that meets the others.
    NeverExcludes,
    /// `premise-never-holds`: the condition of a constraint is true of no valid row.
    PremiseNeverHolds,
    /// `constraint-on-invalid`: a constraint keeps an invalid value from every test.
    ConstraintOnInvalid,
    /// `same-value-twice`: a name of a value is given again, and dropped.
    SameValueTwice,
    /// `looks-like-constraint`: the line of a parameter begins as a constraint does.
    LooksLikeConstraint,
    /// `looks-like-weight`: the name of a value ends as if with a weight.
    LooksLikeWeight,
    /// `single-value`: a parameter has one value.
    SingleValue,
    /// `unused-alias-in-constraint`: a constraint compares with a later name of a value.
    UnusedAlias,
}

impl Kind {
    /// Its name.
    pub fn name(&self) -> &'static str
        ensures { result.now ≡ kind_name self.now }
    {
        match self {
            Kind::NoTest => "no-test",
            Kind::ValueInNoTest => "value-in-no-test",
            Kind::UnknownValue => "unknown-value",
            Kind::ConstantComparison => "constant-comparison",
            Kind::NeverExcludes => "never-excludes",
            Kind::PremiseNeverHolds => "premise-never-holds",
            Kind::ConstraintOnInvalid => "constraint-on-invalid",
            Kind::SameValueTwice => "same-value-twice",
            Kind::LooksLikeConstraint => "looks-like-constraint",
            Kind::LooksLikeWeight => "looks-like-weight",
            Kind::SingleValue => "single-value",
            Kind::UnusedAlias => "unused-alias-in-constraint",
        }
    }

    // Its place among those of one line.
    pub(crate) fn rank(&self) -> u8
        ensures { result ≡ rank_of self.now }
    {
        match self {
            Kind::NoTest => 0,
            Kind::ValueInNoTest => 1,
            Kind::UnknownValue => 2,
            Kind::ConstantComparison => 3,
            Kind::NeverExcludes => 4,
            Kind::PremiseNeverHolds => 5,
            Kind::ConstraintOnInvalid => 6,
            Kind::SameValueTwice => 7,
            Kind::LooksLikeConstraint => 8,
            Kind::LooksLikeWeight => 9,
            Kind::SingleValue => 10,
            Kind::UnusedAlias => 11,
        }
    }
}
