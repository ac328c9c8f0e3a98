//! Laws on the definitions of a legal place.

ghost use Rattle.lf_rules.specs.Choice.{BestPlaceIsUnique, KeyOrders, KeysDiffer, LegalInRange, LegalIsUpright};
ghost use Rattle.lf_rules.specs.FullyLegal.{TeamsMakeLegal};
ghost use Rattle.lf_rules.specs.Legality.{LessPaddingKeepsLegal};
ghost use Rattle.lf_rules.specs.Legalizer.{Legalizer, VerdictIsUnique, VerdictExists};
ghost use Rattle.lf_rules.specs.Padding.{PaddingIsSymmetric};
ghost use Rattle.lf_rules.specs.Tidy.{TidiedIsLegal, TidiedKeepsCells, TidyKeepsLegal};

/// A cell at a place has one verdict: one first broken rule with one other cell, or `None`.
pub fn verdict_is_unique()
    ensures { VerdictIsUnique }
{}

/// A cell of a macro of whole size has a verdict at each place.
pub fn verdict_exists()
    ensures { VerdictExists }
{}

/// A legal place is upright: N, S, FN or FS.
pub fn legal_is_upright()
    ensures { LegalIsUpright }
{}

/// Two different upright places have different keys for a target.
pub fn keys_differ()
    ensures { KeysDiffer }
{}

/// The keys for a target order the upright places totally.
pub fn key_is_total()
    ensures { KeyOrders }
{}

/// A search for a best place has one result.
pub fn best_place_is_unique()
    ensures { BestPlaceIsUnique }
{}

/// A team-legal place has coordinates that a DEF text can hold.
pub fn legal_in_range()
    ensures { LegalInRange }
{}

/// There is a legalizer: at each place a cell has a first broken rule or `None`, and each cell has
/// a best place or `None`.
pub fn legalizer_exists()
    ensures { Legalizer }
{}

/// After a tidy in which no cell was stuck, every cell of the team is placed and team-legal.
pub fn tidied_is_legal()
    ensures { TidiedIsLegal }
{}

/// Tidying only moves cells: their number, order and macros are unchanged.
pub fn tidied_keeps_cells()
    ensures { TidiedKeepsCells }
{}

/// A cell that is placed and team-legal remains so while another cell is tidied.
pub fn tidy_keeps_legal()
    ensures { TidyKeepsLegal }
{}

/// A design in which each team's cells are placed and team-legal with no padding is fully legal.
pub fn teams_make_legal()
    ensures { TeamsMakeLegal }
{}

/// A team-legal place remains team-legal with less padding.
pub fn less_padding_keeps_legal()
    ensures { LessPaddingKeepsLegal }
{}

/// Widening either of two boxes with points by a padding is the same: rule 8 holds for both cells
/// or for neither.
pub fn padding_is_symmetric()
    ensures { PaddingIsSymmetric }
{}
