//! Laws on the grammar of LEF, whatever is read.

ghost use Rattle.std.specs.Prelude.{◌≡◌, List, ℕ};
ghost use Rattle.lf_lex.specs.Tokens.{Lexed};
ghost use Rattle.lf_lex.specs.Reading.{block, taken};
ghost use Rattle.lf_lef.specs.declared.sites.SiteParts.{SiteParts};
ghost use Rattle.lf_lef.specs.declared.pins.Pin.{Pin};
ghost use Rattle.lf_lef.specs.declared.macros.MacroParts.{MacroParts};
ghost use Rattle.lf_lex.specs.Laws.{TakesTokens, ReadsAlike};
ghost use Rattle.lf_lef.specs.Sites.{symmetry_word, site_statement, site_parts};
ghost use Rattle.lf_lef.specs.Pins.{port_statement, pin_statement};
ghost use Rattle.lf_lef.specs.Contents.{Contents, ExtendsLibrary};
ghost use Rattle.lf_lef.specs.Laws.{UnreadLefBytesDoNotMatter, FirstSiteStatementsCount, FirstPinUseCounts, FirstMacroStatementsCount};
ghost use Rattle.lf_lef.specs.Library.{lef_statement, library};
ghost use Rattle.lf_floorplan.specs.declared.sites.Site.{Site};
ghost use Rattle.lf_floorplan.specs.declared.macros.Macro.{Macro};
ghost use Rattle.lf_lef.specs.Printed.{SkipsStatements, ReadsSite, ReadsMacro};
ghost use Rattle.lf_lef.specs.PrintedMacros.{MacroStatement, ReadsMacroOf};
ghost use Rattle.lf_lef.specs.PrintedSites.{SiteStatement, ReadsSiteOf};
ghost use Rattle.lf_lef.specs.Macros.{passed_statement, macro_statement, macro_parts};

/// Each statement after which more follow takes a token, so every block reaches its END or a fault.
pub fn lef_statements_take_tokens()
    ensures symmetry { TakesTokens symmetry_word }
    ensures site { (name : List ℕ) → TakesTokens (site_statement name) }
    ensures port { TakesTokens port_statement }
    ensures pin { (name : List ℕ) → TakesTokens (pin_statement name) }
    ensures passed { TakesTokens passed_statement }
    ensures cell { (name : List ℕ) → TakesTokens (macro_statement name) }
    ensures text { TakesTokens lef_statement }
{}

/// White space, comments and what follows do not affect how the statements of a site or a macro are
/// read.
pub fn lef_statements_read_alike()
    ensures site { (name : List ℕ) → ReadsAlike (site_parts name) }
    ensures cell { (name : List ℕ) → ReadsAlike (macro_parts name) }
{}

/// Nothing after END LIBRARY counts. If reading a text leaves tokens unread, any bytes may replace
/// those from the first unread token on.
pub fn nothing_after_end_library_counts()
    ensures { (before after : Contents) (text : List ℕ) → UnreadLefBytesDoNotMatter before after text }
{}

/// The first of several statements of one kind counts, and every PIN and RECT counts. The first of
/// several sites or macros with one name counts, in one text or several.
pub fn first_of_each_kind_counts()
    ensures site { (name : List ℕ) (old new : SiteParts) (l m : Lexed)
        → block (site_statement name) old l ≡ taken new m → FirstSiteStatementsCount old new }
    ensures pin { (name : List ℕ) (old new : Pin) (l m : Lexed)
        → block (pin_statement name) old l ≡ taken new m → FirstPinUseCounts old new }
    ensures cell { (name : List ℕ) (old new : MacroParts) (l m : Lexed)
        → block (macro_statement name) old l ≡ taken new m → FirstMacroStatementsCount old new }
    ensures text { (old new : Contents) (l m : Lexed)
        → library old l ≡ taken new m → ExtendsLibrary old new }
{}

/// Statements that are skipped have no effect, however many there are.
pub fn skipped_statements_play_no_part()
    ensures { (c : Contents) → SkipsStatements c }
{}

/// A printed SITE reads back, alone and after any skipped statements. It may have a CLASS, a
/// SYMMETRY and a SIZE, or any statements in any order.
pub fn a_printed_site_is_read_back()
    ensures three_statements { (c : Contents) (s : Site) → ReadsSite c s }
    ensures any_statements { (c : Contents) (s : Site) (statements : List SiteStatement)
        → ReadsSiteOf c s statements }
{}

/// A printed MACRO reads back, alone and after any skipped statements. It may have one PIN, or any
/// statements in any order: any number of PIN and PORT, RECT with MASK and ITERATE, OBS, DENSITY,
/// TIMING and others. Skipped statements may have any words and quoted texts.
pub fn a_printed_macro_is_read_back()
    ensures one_pin { (c : Contents) (m : Macro) → ReadsMacro c m }
    ensures any_statements { (c : Contents) (m : Macro) (statements : List MacroStatement)
        → ReadsMacroOf c m statements }
{}
