//! Why an entry may not come next.

/// Why an entry may not come next, as far as the tables without their rows tell.
#[derive(Clone, Copy, Debug, PartialEq, Eq)]
pub enum SchemaRefusal {
    /// There is a table of that name already.
    AlreadyExists,
    /// There is no table of that incarnation, or it has no family of a name that a mutation gives.
    NotFound,
    /// The rule of a family is outside the limits of rules.
    BadRule,
    /// There are 1,000 tables already.
    TooManyTables,
    /// The table would have more than 100 families.
    TooManyFamilies,
}
