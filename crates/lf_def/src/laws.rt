//! Laws on the grammar of DEF, whatever is read.

ghost use Rattle.std.specs.Prelude.{◌≡◌, ◌≢◌, List, [], ◌∷◌, ◌++◌, map, true, ℕ, ℤ, Some, All, codes};
ghost use Rattle.std.specs.List.{list_all};
ghost use Rattle.std.specs.Fmt.{signed_decimal};
ghost use Rattle.lf_lex.specs.Laws.{TakesTokens, ReadsAlike};
ghost use Rattle.lf_lex.specs.Splices.{joined_words, is_word_text, plain_word};
ghost use Rattle.lf_def.specs.Entries.{entry_or_end};
ghost use Rattle.lf_def.specs.Rows.{row};
ghost use Rattle.lf_def.specs.Regions.{region, region_token, regions};
ghost use Rattle.lf_def.specs.Groups.{group, group_token, groups};
ghost use Rattle.lf_def.specs.Components.{component, component_token, components};
ghost use Rattle.lf_def.specs.Blockages.{blockage, blockage_token, blockage_or_end, blockages};
ghost use Rattle.lf_def.specs.Document.{def_statement};
ghost use Rattle.lf_def.specs.Ranges.{IsDefCoordinate};
ghost use Rattle.lf_def.specs.declared.rows.RowStatement.{RowStatement};
ghost use Rattle.lf_def.specs.declared.regions.Region.{Region};
ghost use Rattle.lf_def.specs.declared.groups.Group.{Group};
ghost use Rattle.lf_def.specs.declared.components.Component.{Component};
ghost use Rattle.lf_def.specs.declared.blockages.Blockage.{Blockage};
ghost use Rattle.lf_def.specs.Printed.{WritesNumbers, ReadsBack, row_words, IsPrintedRow, region_words, IsPrintedRegion};
ghost use Rattle.lf_def.specs.Printed.{group_words, IsPrintedGroup, component_words, IsPrintedComponent, ComponentReadsBack};
ghost use Rattle.lf_def.specs.Printed.{blockage_words, IsPrintedBlockage, ComponentsReadBack, section_words};
ghost use Rattle.lf_def.specs.PrintedComponents.{PrintedComponent, IsPrintedEntry, printed_component};
ghost use Rattle.lf_def.specs.PrintedComponents.{entry_tokens, components_tokens, EntryReadsBack, EntriesReadBack};
ghost use Rattle.lf_def.specs.PrintedTexts.{TextPart, one_row, regions_section, groups_section, blockages_section, BeginsWith};
ghost use Rattle.lf_def.specs.PrintedTexts.{PartsReadBack, ReadsBackInTexts, ComponentsReadBackInTexts};
ghost use Rattle.lf_def.specs.Laws.{ComponentReadsAlike, ReadsTheSame, UnreadDefBytesDoNotMatter, ComponentsHaveClauses, ComponentsAreInTextOrder};

/// Each statement, entry and token after which more follow takes a token, so every block reaches
/// its end or a fault.
pub fn def_statements_take_tokens()
    ensures text { TakesTokens def_statement }
    ensures regions { TakesTokens (entry_or_end (codes "REGIONS") region) }
    ensures region { TakesTokens region_token }
    ensures groups { TakesTokens (entry_or_end (codes "GROUPS") group) }
    ensures group { TakesTokens group_token }
    ensures components { TakesTokens (entry_or_end (codes "COMPONENTS") component) }
    ensures component { TakesTokens component_token }
    ensures blockages { TakesTokens blockage_or_end }
    ensures blockage { TakesTokens blockage_token }
{}

/// White space, comments and what follows do not affect how a row, a region, a group, a blockage or
/// a component is read. The offsets of a component may differ.
pub fn def_statements_read_alike()
    ensures row { ReadsAlike row }
    ensures region { ReadsAlike region }
    ensures group { ReadsAlike group }
    ensures blockage { ReadsAlike blockage }
    ensures component { ComponentReadsAlike }
{}

/// Texts that differ only in white space and comments give the same document, except for the
/// offsets of components.
pub fn the_same_tokens_say_the_same()
    ensures { (a b : List ℕ) → ReadsTheSame a b }
{}

/// Nothing after END DESIGN counts. If reading a text leaves tokens unread, any bytes may replace
/// those from the first unread token on.
pub fn nothing_after_end_design_counts()
    ensures { (text : List ℕ) → UnreadDefBytesDoNotMatter text }
{}

/// A printed row, region, group, component or blockage reads back, however its numbers are written
/// and whatever follows. The offsets of a component may differ. A component's entry may also have
/// skipped words, quoted texts and clauses, or a point after UNPLACED.
pub fn printed_entries_read_back()
    ensures row { (print : ℤ → List ℕ) → WritesNumbers print → (r : RowStatement) → IsPrintedRow r
        → ReadsBack row (row_words print r) r }
    ensures region { (print : ℤ → List ℕ) → WritesNumbers print → (r : Region) → IsPrintedRegion r
        → ReadsBack region (region_words print r) r }
    ensures group { (g : Group) → IsPrintedGroup g → ReadsBack group (group_words g) g }
    ensures component { (print : ℤ → List ℕ) → WritesNumbers print → (c : Component) → IsPrintedComponent c
        → ComponentReadsBack (component_words print c) c }
    ensures component_with_others { (print : ℤ → List ℕ) → WritesNumbers print
        → (p : PrintedComponent) → IsPrintedEntry p
        → EntryReadsBack (entry_tokens print p) p.component }
    ensures blockage { (print : ℤ → List ℕ) → WritesNumbers print → (b : Blockage) → IsPrintedBlockage b
        → ReadsBack blockage (blockage_words print b) (Some b) }
{}

/// The placement clause of a component extends from the first byte of its `+` to the last byte of
/// its last token. That token is the orientation, or UNPLACED if no point follows. The offset of
/// the component's `;` is that of its last token.
pub fn clauses_are_in_components()
    ensures { ComponentsHaveClauses }
{}

/// The components of a document are in its text in order, without overlap. The clause of each is in
/// front of its own `;`, and after the `;` of the previous component.
pub fn components_rise()
    ensures { (text : List ℕ) → ComponentsAreInTextOrder text }
{}

/// A printed REGIONS, GROUPS, COMPONENTS or BLOCKAGES section reads back as its list, after the
/// entries of earlier sections, whatever its count. The offsets of components may differ.
pub fn printed_sections_read_back()
    ensures regions { (print : ℤ → List ℕ) → WritesNumbers print → (count : List ℕ) → count ≢ codes ";"
        → (new known : List Region) → All IsPrintedRegion new
        → ReadsBack (regions known) (section_words (codes "REGIONS") count (region_words print) new) (known ++ new) }
    ensures groups { (count : List ℕ) → count ≢ codes ";" → (new known : List Group) → All IsPrintedGroup new
        → ReadsBack (groups known) (section_words (codes "GROUPS") count group_words new) (known ++ new) }
    ensures components { (print : ℤ → List ℕ) → WritesNumbers print → (count : List ℕ) → count ≢ codes ";"
        → (new known : List Component) → All IsPrintedComponent new
        → ComponentsReadBack (components known) (section_words (codes "COMPONENTS") count (component_words print) new)
        (known ++ new) }
    ensures components_with_others { (print : ℤ → List ℕ) → WritesNumbers print
        → (count : List ℕ) → count ≢ codes ";" → (new : List PrintedComponent) (known : List Component)
        → All IsPrintedEntry new → EntriesReadBack (components known)
        (components_tokens print count new) (known ++ map printed_component new) }
    ensures blockages { (print : ℤ → List ℕ) → WritesNumbers print → (count : List ℕ) → count ≢ codes ";"
        → (new known : List Blockage) → All IsPrintedBlockage new
        → ReadsBack (blockages known)
        (section_words (codes "BLOCKAGES") count (blockage_words print) new) (known ++ new) }
{}

/// A printed text reads back. Its statements and sections may be in any order, with DESIGN and any
/// skipped ones among them. Each list has the order of the text. White space, comments and what
/// follows END DESIGN are ignored.
pub fn printed_texts_read_back()
    ensures { (print : ℤ → List ℕ) → WritesNumbers print → (parts : List TextPart) → PartsReadBack print parts }
{}

/// A text of printed rows, or of a printed REGIONS, GROUPS, COMPONENTS or BLOCKAGES section, reads
/// back as these alone, with or without skipped statements in front. The offsets of components may
/// differ. What follows END DESIGN is ignored.
pub fn printed_lists_read_back_in_texts()
    ensures rows { (print : ℤ → List ℕ) → WritesNumbers print → (new : List RowStatement) → All IsPrintedRow new
        → ReadsBackInTexts print (map one_row new) (λ d. record d { rows = new }) }
    ensures regions { (print : ℤ → List ℕ) → WritesNumbers print → (count : List ℕ) → count ≢ codes ";"
        → (new : List Region)
        → All IsPrintedRegion new
        → ReadsBackInTexts print (regions_section count new ∷ []) (λ d. record d { regions = new }) }
    ensures groups { (print : ℤ → List ℕ) → WritesNumbers print → (count : List ℕ) → count ≢ codes ";"
        → (new : List Group)
        → All IsPrintedGroup new
        → ReadsBackInTexts print (groups_section count new ∷ []) (λ d. record d { groups = new }) }
    ensures components { (print : ℤ → List ℕ) → WritesNumbers print → (count : List ℕ) → count ≢ codes ";"
        → (new : List Component) → All IsPrintedComponent new → ComponentsReadBackInTexts print count new }
    ensures blockages { (print : ℤ → List ℕ) → WritesNumbers print → (count : List ℕ) → count ≢ codes ";"
        → (new : List Blockage)
        → All IsPrintedBlockage new → ReadsBackInTexts print (blockages_section count new ∷ [])
        (λ d. record d { blockages = new }) }
{}

/// A text may be printed with one space between its words, a line feed after them, and any bytes
/// after that. Its first tokens are these words.
pub fn printed_words_are_read()
    ensures { (words : List (List ℕ)) (rest : List ℕ) → list_all is_word_text words ≡ true
        → BeginsWith (joined_words words ++ 10 ∷ rest) (map plain_word words) }
{}

/// Decimal numbers, as the standard library writes them, denote coordinates that read back. Each of
/// them is a word.
pub fn decimal_numbers_are_read()
    ensures numbers { WritesNumbers signed_decimal }
    ensures words { (x : ℤ) → IsDefCoordinate x → is_word_text (signed_decimal x) ≡ true }
{}
