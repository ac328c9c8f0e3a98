//! The rules by name, and a broken rule.

ghost use Rattle.std.specs.Prelude.{◌≡◌};

/// The eight rules of a legal place, in the order in which they are tested.
#[derive(Clone, Copy, Debug, PartialEq, Eq)]
pub enum Rule {
    /// The box is from 1 to 8 core sites high.
    Height,
    /// A row lies at the box's lower edge, holds its x range, and has its x on the grid of sites.
    Row,
    /// Rows of alternating rails carry the box over all of its height.
    Stand,
    /// The orientation fits the macro and, if the height is odd, the bottom row.
    Orient,
    /// If the height is even, the macro's bottom rail is the bottom row's.
    Rail,
    /// The box stays in its team's ground.
    Fence,
    /// The box overlaps no obstacle.
    Obstacle,
    /// The box, widened on its left and right by its team's padding, overlaps no other placed cell
    /// of the team.
    Overlap,
}

impl Rule {
    ghost use Rattle.lf_rules.specs.Legality.{number_of};

    /// Returns the rule's number in replies and reports, from 1 to 8.
    pub fn number(self) -> u32
        ensures { result ≡ number_of self }
    {
        match self {
            Rule::Height => 1,
            Rule::Row => 2,
            Rule::Stand => 3,
            Rule::Orient => 4,
            Rule::Rail => 5,
            Rule::Fence => 6,
            Rule::Obstacle => 7,
            Rule::Overlap => 8,
        }
    }
}

/// The first broken rule.
#[derive(Clone, Copy, Debug, PartialEq, Eq)]
pub struct Broken {
    pub rule: Rule,
    /// For Overlap, the number of the first cell in loading order that overlaps; `None` for another
    /// rule.
    pub other: Option<u32>,
}
