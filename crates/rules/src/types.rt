// The kinds of values: enum Type of compiler.rs.
ghost use Rattle.std.specs.Prelude.{◌≡◌};
ghost use Rattle.rules.specs.Types.{matches_type, exact_matches, sigil_unit, rvalue_type, sigil_type};

use recorder::unit::{DOLLAR, PERCENT};

#[derive(Clone, Copy, PartialEq, Eq)]
pub enum Type {
    Integer,
    Real,
    String,
    Error,
}

impl Type {
    // The kind of a name by its last unit; a From of a unit would not say which.
    pub fn of_last_unit(last: u16) -> Type
        ensures { result ≡ sigil_type last }
    {
        match last {
            PERCENT => Type::Integer,
            DOLLAR => Type::String,
            _ => Type::Real,
        }
    }

    // Whether a value of one kind may stand where the other is wanted: an error anywhere, a number where a number is, a text
    // where a text is. It is no equality, so it is not derived.
    pub fn matches(self, want: Type) -> bool
        ensures { result ≡ matches_type self want }
    {
        match (self, want) {
            (Type::Error, _) | (_, Type::Error) => true,
            (Type::String, Type::String) => true,
            (Type::Integer | Type::Real, Type::Integer | Type::Real) => true,
            _ => false,
        }
    }

    pub fn exact_matches(self, want: Type) -> bool
        ensures { result ≡ exact_matches self want }
    {
        self == want
    }

    // The unit that a name of the kind ends in, or 0: document 01's word for a sigil, which goes on into the name's entry.
    pub fn sigil(self) -> u32
        ensures { result ≡ sigil_unit self }
    {
        match self {
            Type::Integer => u32::from(PERCENT),
            Type::String => u32::from(DOLLAR),
            Type::Real | Type::Error => 0,
        }
    }

    pub fn as_rvalue_type(self) -> Type
        ensures { result ≡ rvalue_type self }
    {
        match self {
            Type::Integer => Type::Real,
            other => other,
        }
    }
}
